//! The audit of a whole history.

ghost use Rattle.std.specs.Prelude.{◌≡◌, IfOk, Ok, Err};
ghost use Rattle.words.specs.Reading.{Gives, map_refusal};
ghost use Rattle.history_types.specs.declared.state.State.{State as AState};
ghost use Rattle.lineage_model.specs.Step.{broken_rule};
ghost use Rattle.lineage_model.specs.History.{Fault, IsHistory, IsFirstFault, stepped, audited_from};
ghost use Rattle.history_log.specs.Refusal.{is_memory};
ghost use Rattle.history_log.specs.Audit.{illegal, verdict};

use crate::opening::is_opening;
use crate::refusal::HistoryRefusal;
use crate::rules::broken_rule;
use crate::step::apply;
use history_types::{Entries, Entry, State};
use lineage_model::Rule;
use lineage_model::laws::an_audit_finds_histories;
use row_types::Columns;
use std::alloc::Global;

/// The state after all entries of a history that begins with `start`; or the first entry that is no
/// legal step, with the first rule that it breaks. It is entry 0 with `Start` where the history may
/// not begin so. The cells of the state and of the requests are those of a table of these columns.
/// docs/LINEAGE.md, "The rules of a history".
pub fn audit(
    alloc: Global,
    _columns: &Columns,
    start: State,
    entries: &Entries,
) -> Result<State, HistoryRefusal>
    ensures exact { Gives is_memory (λ state. state) result (verdict start entries.now) }
    // An answer is the state after a legal history, and each legal history is answered so.
    ensures found { IfOk result (λ state. IsHistory start entries.now state) }
    ensures only { (end : AState) → IsHistory start entries.now end
        → Gives is_memory (λ state. state) result (Ok end) }
    // A fault is the first one of the history, and each first fault is answered so.
    ensures illegal { (fault : Fault)
        → result ≡ Err (HistoryRefusal.Illegal fault.entry fault.rule)
        → IsFirstFault start entries.now fault }
    ensures illegal_only { (fault : Fault) → IsFirstFault start entries.now fault
        → Gives is_memory (λ state. state) result
        (Err (HistoryRefusal.Illegal fault.entry fault.rule)) }
{
    an_audit_finds_histories();
    audited(alloc, start, entries.as_slice())
}

/// What `audit` answers.
#[tactic(auto, unfolding(lineage_model::specs::History::audited))]
fn audited(alloc: Global, start: State, entries: &[Entry]) -> Result<State, HistoryRefusal>
    ensures { Gives is_memory (λ state. state) result (verdict start entries.now) }
{
    if !is_opening(&start) {
        return Err(HistoryRefusal::Illegal {
            entry: 0,
            rule: Rule::Start,
        });
    }
    audited_from(alloc, start, entries)
}

/// The state after the entries, or the first fault among them.
fn audited_from(alloc: Global, start: State, entries: &[Entry]) -> Result<State, HistoryRefusal>
    ensures { Gives is_memory (λ state. state) result
        (map_refusal illegal (audited_from 1 start entries.now)) }
{
    let mut state = start;
    for (place, entry) in entries.iter().enumerate() {
        state = stepped(alloc, place as u64 + 1, state, entry)?;
    }
    Ok(state)
}

/// The state after the entry at this place, or the first rule that it breaks.
fn stepped(alloc: Global, place: u64, state: State, entry: &Entry) -> Result<State, HistoryRefusal>
    ensures { Gives is_memory (λ after. after) result
        (map_refusal illegal (stepped place state entry.now (broken_rule state entry.now))) }
{
    if let Some(rule) = broken_rule(&state, entry) {
        return Err(HistoryRefusal::Illegal { entry: place, rule });
    }
    let Ok(after) = apply(alloc, state, entry) else {
        return Err(HistoryRefusal::Memory);
    };
    Ok(after)
}
