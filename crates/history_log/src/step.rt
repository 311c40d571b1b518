//! The state after an entry.

ghost use Rattle.std.specs.Prelude.{◌≡◌, ◌++◌, [], ℤ, pos, ◌+ℤ◌, ◌<ℤ◌, ◌^◌, map, All, Some, None, IfOk, OnOk};
ghost use Rattle.history_types.specs.declared.state.State.{State as AState};
ghost use Rattle.lineage_model.specs.Ids.{ids_of};
ghost use Rattle.lineage_model.specs.Rows.{stamped, under, with_rows};
ghost use Rattle.lineage_model.specs.Asked.{asked};
ghost use Rattle.lineage_model.specs.Step.{appended_to, committed_to, upgraded, broken_rule, applied};

use crate::ids::Ids;
use history_types::{Entry, Request, Run, State};
use lists::{Copied, List};
use row_types::{Cells, RowMap, Unnamed};
use std::alloc::{AllocError, Global};

/// The state after an entry that breaks no rule. An `Err` says that memory ran out.
/// Rows that get an id are moved, and the others are not looked at.
/// docs/LINEAGE.md, "The rules of a history".
pub fn apply(alloc: Global, state: State, entry: &Entry) -> Result<State, AllocError>
    requires legal { broken_rule state entry.now ≡ None }
    ensures exact { IfOk result (λ after. after ≡ applied state entry.now) }
{
    // Of the entries that break no rule only an upgrade has no sequence number.
    let Some(seq) = entry.seq else {
        return Ok(upgraded(state));
    };
    let adds = added(&entry.request);
    if state.version != 3 {
        return appended(alloc, state, entry, adds, seq);
    }
    // The rules want it in version 3.
    let Some(next) = entry.next else {
        unreachable!()
    };
    committed(alloc, state, entry, adds, seq, next)
}

/// The state after an upgrade.
fn upgraded(state: State) -> State
    ensures { result ≡ upgraded state }
{
    State {
        version: 3,
        unnamed: state.unnamed,
        rows: state.rows,
        next: Some(0),
        seq: state.seq,
    }
}

/// The cells of the rows that a request adds; no request changes or removes rows.
fn added(request: &Request) -> &[Cells]
    ensures { (state : AState) → asked request.now state
        ≡ Some (record { adds = result.now; changes = []; removes = [] }) }
{
    match request {
        Request::Append(rows) => rows.as_slice(),
        Request::Compact(_) | Request::Upgrade => &[],
    }
}

/// The state of version 3 after rows got their ids: those that had none, and those that are added.
fn committed(
    alloc: Global,
    state: State,
    entry: &Entry,
    adds: &[Cells],
    seq: i64,
    next: i64,
) -> Result<State, AllocError>
    requires seq { seq ≡ state.seq +ℤ pos 1 }
    requires next { entry.now.next ≡ Some next }
    requires named { All (λ id. id <ℤ pos (2 ^ 63)) (ids_of entry.now.named) }
    requires given { All (λ id. id <ℤ pos (2 ^ 63)) (ids_of entry.now.given) }
    ensures { IfOk result (λ after. after ≡ committed_to state entry.now
        (record { adds = adds.now; changes = []; removes = [] })) }
{
    let mut rows = state.rows;
    put_under(&mut rows, entry.named.as_slice(), state.unnamed)?;
    let mut new = List::new(alloc);
    push_stamped(alloc, &mut new, adds, seq)?;
    put_under(&mut rows, entry.given.as_slice(), new)?;
    Ok(State {
        version: state.version,
        unnamed: List::new(alloc),
        rows,
        next: Some(next),
        seq,
    })
}

/// The state of version 2 after rows came to those without id.
fn appended(
    alloc: Global,
    state: State,
    entry: &Entry,
    adds: &[Cells],
    seq: i64,
) -> Result<State, AllocError>
    requires { seq ≡ state.seq +ℤ pos 1 }
    ensures { IfOk result (λ after. after ≡ appended_to state entry.now
        (record { adds = adds.now; changes = []; removes = [] })) }
{
    let mut unnamed = state.unnamed;
    push_stamped(alloc, &mut unnamed, adds, seq)?;
    Ok(State {
        version: state.version,
        unnamed,
        rows: state.rows,
        next: entry.next,
        seq,
    })
}

/// Puts the new rows at the ids of the runs, the first row at the first id, and so on.
fn put_under(rows: &mut RowMap, runs: &[Run], new: Unnamed) -> Result<(), AllocError>
    requires { All (λ id. id <ℤ pos (2 ^ 63)) (ids_of runs.now) }
    ensures { OnOk result (rows.new ≡ with_rows rows.old (under (ids_of runs.now) new)) }
{
    let mut ids = Ids::new(runs);
    for (last, cells) in new.into_vec() {
        let Some(id) = ids.next() else {
            return Ok(());
        };
        rows.insert(id, last, cells)?;
    }
    Ok(())
}

/// Adds copies of the cells as rows that changed last at this sequence number.
fn push_stamped(
    alloc: Global,
    rows: &mut Unnamed,
    adds: &[Cells],
    seq: i64,
) -> Result<(), AllocError>
    ensures { OnOk result (rows.new ≡ rows.old ++ map (stamped seq) adds.now) }
{
    for cells in adds {
        rows.push((seq, cells.copy(alloc)?))?;
    }
    Ok(())
}
