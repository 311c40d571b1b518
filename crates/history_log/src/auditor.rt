//! An audit that takes the entries one by one, and keeps no row.

ghost use Rattle.std.specs.Prelude.{◌≡◌, List, length, IfOk, IfSome};
ghost use Rattle.std.specs.List.{fold};
ghost use Rattle.history_types.specs.declared.entry.Entry.{Entry as AEntry};
ghost use Rattle.history_types.specs.declared.state.State.{State as AState};
ghost use Rattle.lineage_model.specs.Tally.{upgraded_tally, committed_tally, appended_tally, counted};
ghost use Rattle.lineage_model.specs.History.{audited};
ghost use Rattle.history_log.specs.declared.auditor.Audit.TheVariants.{Legal};
ghost use Rattle.history_log.specs.Auditing.{audit_begun, audit_more, audit_of};

use crate::opening::is_opening;
use crate::rules::{appended, is_upgrade, rule_broken, tally_of};
use crate::taker::Taker;
use history_types::{Entry, State};
use lineage_model::laws::numbers_are_enough;
use lineage_model::{Rule, Tally};
use std::alloc::{AllocError, Global};

/// What an audit has found behind the entries that it took.
#[derive(Clone, Copy)]
pub enum Audit {
    /// Each is a legal step: how many there are, and the numbers of the state behind them.
    Legal { entries: u64, tally: Tally },
    /// The entry, counted from 1, breaks this rule, and none before it. Entry 0 is the state that
    /// the history begins with.
    Illegal { entry: u64, rule: Rule },
}

impl Taker for Audit {
    ghost use Rattle.std.specs.Prelude.{List};
    ghost use Rattle.row_types.specs.declared.column.Column.{Column as AColumn};
    ghost use Rattle.history_log.specs.Auditing.{audit_begun, audit_more};

    ghost begun = { audit_begun };

    ghost more = { audit_more };

    ghost fits = { λ columns audit. Unit {0} };

    fn begin(_alloc: Global, start: State) -> Audit {
        if is_opening(&start) {
            Audit::Legal {
                entries: 0,
                tally: tally_of(&start),
            }
        } else {
            Audit::Illegal {
                entry: 0,
                rule: Rule::Start,
            }
        }
    }

    fn take(self, entry: Entry) -> Result<Audit, AllocError> {
        match self {
            Audit::Legal { entries, tally } => stepped(entries, &tally, &entry),
            Audit::Illegal { .. } => Ok(self),
        }
    }
}

/// What is found behind one entry more, where each before it is a legal step. An `Err` says that
/// there are more entries or rows than a number of 64 bits counts.
fn stepped(entries: u64, tally: &Tally, entry: &Entry) -> Result<Audit, AllocError>
    ensures { IfOk result (λ after. after ≡ audit_more (Legal entries tally.now) entry.now) }
{
    let Some(place) = entries.checked_add(1) else {
        return Err(AllocError);
    };
    if let Some(rule) = rule_broken(tally, entry) {
        return Ok(Audit::Illegal { entry: place, rule });
    }
    let Some(tally) = counted(tally, entry) else {
        return Err(AllocError);
    };
    Ok(Audit::Legal {
        entries: place,
        tally,
    })
}

/// The numbers behind an entry that breaks no rule. `None`: one of them is too large.
fn counted(tally: &Tally, entry: &Entry) -> Option<Tally>
    ensures { IfSome result (λ after. after ≡ counted tally.now entry.now) }
{
    if is_upgrade(&entry.request) {
        return Some(upgraded(tally));
    }
    if tally.version == 3 {
        committed(tally, entry)
    } else {
        joined(tally, entry)
    }
}

/// The numbers behind an upgrade.
fn upgraded(tally: &Tally) -> Tally
    ensures { result ≡ upgraded_tally tally.now }
{
    Tally {
        version: 3,
        unnamed: tally.unnamed,
        rows: tally.rows,
        next: Some(0),
        seq: tally.seq,
    }
}

/// The numbers of version 3 behind an entry that gives ids.
fn committed(tally: &Tally, entry: &Entry) -> Option<Tally>
    ensures { IfSome result (λ after. after ≡ committed_tally tally.now entry.now) }
{
    let named = tally.rows.checked_add(tally.unnamed)?;
    let rows = named.checked_add(appended(&entry.request))?;
    let seq = tally.seq.checked_add(1)?;
    Some(Tally {
        version: tally.version,
        unnamed: 0,
        rows,
        next: entry.next,
        seq,
    })
}

/// The numbers of version 2 behind rows that join those without id.
fn joined(tally: &Tally, entry: &Entry) -> Option<Tally>
    ensures { IfSome result (λ after. after ≡ appended_tally tally.now entry.now) }
{
    let unnamed = tally.unnamed.checked_add(appended(&entry.request))?;
    let seq = tally.seq.checked_add(1)?;
    Some(Tally {
        version: tally.version,
        unnamed,
        rows: tally.rows,
        next: entry.next,
        seq,
    })
}

/// What an audit finds that takes the entries one by one is what the history is.
pub fn audit_agrees()
    ensures { (start : AState) (entries : List AEntry)
        → fold audit_more (audit_begun start) entries
        ≡ audit_of (length entries) (audited start entries) }
{
    numbers_are_enough();
}
