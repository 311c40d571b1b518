//! The rules of one entry.

ghost use Rattle.std.specs.Prelude.{◌≡◌, ℤ, pos, ◌+ℤ◌};
ghost use Rattle.lineage_model.specs.Step.{is_upgrade, gives_ids, appended, is_this, breaks_version, breaks_unnamed, breaks_seq, breaks_next, breaks_named, breaks_given, breaks_fresh, breaks_asked, broken_rule};
ghost use Rattle.lineage_model.specs.Tally.{tally_of, blank, rule_broken};

use crate::ids::{are_fresh, has_count};
use history_types::{Entry, Request, State};
use lineage_model::laws::numbers_are_enough;
use lineage_model::{Rule, Tally};

/// The first rule that the entry breaks in the state before it, in the order of the rules. None: it
/// is a legal step. docs/LINEAGE.md, "The rules of a history".
pub fn broken_rule(state: &State, entry: &Entry) -> Option<Rule>
    ensures { result ≡ broken_rule state.now entry.now }
{
    numbers_are_enough();
    rule_broken(&tally_of(state), entry)
}

/// The numbers of the state.
pub fn tally_of(state: &State) -> Tally
    ensures { result ≡ tally_of state.now }
{
    Tally {
        version: state.version,
        unnamed: state.unnamed.len(),
        rows: state.rows.len(),
        next: state.next,
        seq: state.seq,
    }
}

/// The first rule that the entry breaks in a state with these numbers, in the order of the rules.
#[tactic(auto, unfolding(lineage_model::specs::Step::broken_rule))]
pub fn rule_broken(tally: &Tally, entry: &Entry) -> Option<Rule>
    ensures { result ≡ rule_broken tally.now entry.now }
{
    if breaks_version(tally, &entry.request) {
        return Some(Rule::Version);
    }
    if breaks_unnamed(tally, &entry.request) {
        return Some(Rule::Unnamed);
    }
    if breaks_seq(tally, entry) {
        return Some(Rule::Seq);
    }
    if breaks_next(tally, entry) {
        return Some(Rule::Next);
    }
    if breaks_named(tally, entry) {
        return Some(Rule::Named);
    }
    if breaks_given(tally, entry) {
        return Some(Rule::Given);
    }
    if breaks_fresh(tally, entry) {
        return Some(Rule::Fresh);
    }
    if breaks_asked(tally, entry) {
        return Some(Rule::Asked);
    }
    None
}

/// Whether it is a compaction in version 2, or an upgrade in version 3.
fn breaks_version(tally: &Tally, request: &Request) -> bool
    ensures { result ≡ breaks_version (blank tally.now) request.now }
{
    match request {
        Request::Append(_) => false,
        Request::Compact(_) => tally.version == 2,
        Request::Upgrade => tally.version == 3,
    }
}

/// Whether it is a compaction while some row has no id.
#[tactic(auto, using(crate::proofs::TallyLemmas::blank_rows))]
fn breaks_unnamed(tally: &Tally, request: &Request) -> bool
    ensures { result ≡ breaks_unnamed (blank tally.now) request.now }
{
    match request {
        Request::Compact(_) => tally.unnamed != 0,
        Request::Append(_) | Request::Upgrade => false,
    }
}

/// Whether an upgrade has a sequence number, or another entry has not the next one.
fn breaks_seq(tally: &Tally, entry: &Entry) -> bool
    ensures { result ≡ breaks_seq (blank tally.now) entry.now }
{
    if is_upgrade(&entry.request) {
        entry.seq.is_some()
    } else {
        !is_behind(tally.seq, entry.seq)
    }
}

/// Whether the next id is there in version 2, absent in version 3, or not 0 after an upgrade.
fn breaks_next(tally: &Tally, entry: &Entry) -> bool
    ensures { result ≡ breaks_next (blank tally.now) entry.now }
{
    if is_upgrade(&entry.request) {
        !is_zero(entry.next)
    } else if tally.version == 2 {
        entry.next.is_some()
    } else {
        entry.next.is_none()
    }
}

/// Whether the named ids are not as many as the rows without one; where no ids are given, whether
/// there are some.
#[tactic(auto, using(crate::proofs::TallyLemmas::blank_count))]
fn breaks_named(tally: &Tally, entry: &Entry) -> bool
    ensures { result ≡ breaks_named (blank tally.now) entry.now }
{
    let count = if gives_ids(tally, &entry.request) {
        tally.unnamed
    } else {
        0
    };
    !has_count(entry.named.as_slice(), count)
}

/// Whether the given ids are not as many as the appended rows; where no ids are given, whether
/// there are some.
fn breaks_given(tally: &Tally, entry: &Entry) -> bool
    ensures { result ≡ breaks_given (blank tally.now) entry.now }
{
    let count = if gives_ids(tally, &entry.request) {
        appended(&entry.request)
    } else {
        0
    };
    !has_count(entry.given.as_slice(), count)
}

/// Whether ids are given that are not fresh: that don't rise from the old next id on to below the
/// new one.
fn breaks_fresh(tally: &Tally, entry: &Entry) -> bool
    ensures { result ≡ breaks_fresh (blank tally.now) entry.now }
{
    let named = entry.named.as_slice();
    let given = entry.given.as_slice();
    gives_ids(tally, &entry.request) && !are_fresh(tally.next, entry.next, named, given)
}

/// Whether what is asked can't be done.
fn breaks_asked(_tally: &Tally, entry: &Entry) -> bool
    ensures { result ≡ breaks_asked (blank _tally.now) entry.now }
{
    match &entry.request {
        Request::Append(_) | Request::Compact(_) | Request::Upgrade => false,
    }
}

/// Whether it is an upgrade.
pub fn is_upgrade(request: &Request) -> bool
    ensures { result ≡ is_upgrade request.now }
{
    match request {
        Request::Append(_) | Request::Compact(_) => false,
        Request::Upgrade => true,
    }
}

/// Whether the entry gives ids to rows.
fn gives_ids(tally: &Tally, request: &Request) -> bool
    ensures { result ≡ gives_ids (blank tally.now) request.now }
{
    tally.version == 3 && !is_upgrade(request)
}

/// How many rows are appended.
pub fn appended(request: &Request) -> usize
    ensures { result ≡ appended request.now }
{
    match request {
        Request::Append(rows) => rows.len(),
        Request::Compact(_) | Request::Upgrade => 0,
    }
}

/// Whether the number is there, and is the one after `before`.
fn is_behind(before: i64, number: Option<i64>) -> bool
    ensures { result ≡ is_this (before +ℤ pos 1) number }
{
    match (before.checked_add(1), number) {
        (Some(next), Some(number)) => number == next,
        _ => false,
    }
}

/// Whether the number is there, and is 0.
fn is_zero(number: Option<i64>) -> bool
    ensures { result ≡ is_this (pos 0) number }
{
    match number {
        None => false,
        Some(number) => number == 0,
    }
}
