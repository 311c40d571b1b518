//! A table of members, and the first fault that it finds.

ghost use Rattle.std.specs.Prelude.{◌≡◌, [], ◌∷◌};
ghost use Rattle.serde_json.specs.Find.{get_member};
ghost use Rattle.serde_json.specs.View.{view, items_view, members_view};
ghost use Rattle.json_members.specs.Fault.{is_memory};
ghost use Rattle.json_members.specs.Members.{without};
ghost use Rattle.json_members.specs.Rows as spec;
ghost use Rattle.json_members.specs.Rows.{tested, checked, row_of, rows_of, of_version, field_names};
ghost use Rattle.words.specs.Reading.{Gives};

use crate::fault::{Fault, missing, wrong};
use crate::form::{Form, has_form};
use crate::members::{Members, member, take};
use serde_json::Value;
use std::alloc::Global;

/// Whether an object needs a member.
#[derive(Clone, Copy)]
pub enum Need {
    /// The object needs it.
    Needed,
    /// It may be absent.
    MayBeAbsent,
    /// It may be absent, and null counts as absent.
    MayBeNull,
}

/// A version of a format that has two: the newer one has members that the older one lacks.
#[derive(Clone, Copy)]
pub enum Version {
    Older,
    Newer,
}

/// How the caller keeps a member.
#[derive(Clone, Copy)]
pub enum Keep {
    /// In a field of its own.
    InField,
    /// As a member, beside the fields.
    Carried,
}

/// A row of a table of members.
#[derive(Clone, Copy)]
pub struct Row {
    /// The member's name.
    pub name: &'static str,
    /// Whether the object needs the member.
    pub need: Need,
    /// What its value has to be.
    pub form: Form,
    /// The first version that has the member.
    pub since: Version,
    /// How the caller keeps the member.
    pub keep: Keep,
}

fn takes_null(need: Need, value: &Value) -> bool
    ensures { result ≡ spec.takes_null need (view value.now) }
{
    match need {
        Need::Needed => false,
        Need::MayBeAbsent => false,
        Need::MayBeNull => value.is_null(),
    }
}

/// Checks the member of one row. An `Err` is the row's fault.
pub fn check(alloc: Global, members: &Members, row: &Row) -> Result<(), Fault>
    ensures exact { Gives is_memory (λ _. tt) result
        (tested (row_of row.now) (get_member row.now.name.now (members_view members.now.entries))) }
{
    match member(members, row.name) {
        None => match row.need {
            Need::Needed => Err(missing(alloc, row.name)),
            Need::MayBeAbsent => Ok(()),
            Need::MayBeNull => Ok(()),
        },
        Some(value) => if takes_null(row.need, value) || has_form(row.form, value) {
            Ok(())
        } else {
            Err(wrong(alloc, row.name))
        },
    }
}

/// Checks an object by the rows that the version has. An `Err` is the fault of the first such row
/// that has one.
pub fn check_all(
    alloc: Global,
    members: &Members,
    rows: &[Row],
    version: Version,
) -> Result<(), Fault>
    ensures exact { Gives is_memory (λ _. tt) result
        (checked (of_version version (rows_of rows.now)) (members_view members.now.entries)) }
{
    for row in rows {
        if !is_in(version, row) {
            continue;
        }
        check(alloc, members, row)?;
    }
    Ok(())
}

/// Checks each item of a list as an object, by the rows that the version has. An `Err` is the first
/// fault. An item that is no object is the fault of the list's own name.
pub fn each_right(
    alloc: Global,
    list: &str,
    items: &[Value],
    rows: &[Row],
    version: Version,
) -> Result<(), Fault>
    ensures exact { Gives is_memory (λ _. tt) result
        (spec.each_checked list.now (of_version version (rows_of rows.now))
        (items_view items.now)) }
{
    for item in items {
        item_right(alloc, list, item, rows, version)?;
    }
    Ok(())
}

fn item_right(
    alloc: Global,
    list: &str,
    item: &Value,
    rows: &[Row],
    version: Version,
) -> Result<(), Fault>
    ensures exact { Gives is_memory (λ _. tt) result
        (spec.item_checked list.now (of_version version (rows_of rows.now)) (view item.now)) }
{
    match item.as_object() {
        Some(members) => check_all(alloc, members, rows, version),
        None => Err(wrong(alloc, list)),
    }
}

/// Leaves out the members that the caller keeps in fields.
pub fn leave_out_fields(members: &mut Members, rows: &[Row], version: Version)
    ensures { members_view members.new.entries
        ≡ without (field_names version (rows_of rows.now)) (members_view members.old.entries) }
{
    for row in rows {
        leave_out_field(members, row, version);
    }
}

fn leave_out_field(members: &mut Members, row: &Row, version: Version)
    ensures { members_view members.new.entries
        ≡ without (field_names version (row_of row.now ∷ [])) (members_view members.old.entries) }
{
    if has_field(row, version) {
        drop(take(members, row.name));
    }
}

fn has_field(row: &Row, version: Version) -> bool
    ensures { result ≡ spec.has_field version (row_of row.now) }
{
    match row.keep {
        Keep::InField => is_in(version, row),
        Keep::Carried => false,
    }
}

fn is_in(version: Version, row: &Row) -> bool
    ensures { result ≡ spec.is_in version (row_of row.now) }
{
    match row.since {
        Version::Older => true,
        Version::Newer => match version {
            Version::Older => false,
            Version::Newer => true,
        },
    }
}
