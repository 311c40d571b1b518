//! The members of a JSON object that have no field.

ghost use Rattle.std.specs.Prelude.{◌≡◌, IfOk, option_map};
ghost use Rattle.serde_json.specs.View.{members_view};
ghost use Rattle.snapshot_entries.specs.Summary as spec;

use json_members::{Members, member, put, text_at};
use serde_json::Value;
use std::alloc::{AllocError, Global};
use std::default::Emptied;
use std::marker::Model;

/// A JSON object, which contracts see as its members.
#[derive(Drop)]
pub struct Tree {
    members: Members,
}

impl Model for Tree {
    ghost use Rattle.snapshot_entries.specs.Coded.{members_code};
    ghost use Rattle.serde_json.specs.Data as values;
    ghost use Rattle.serde_json.specs.View.{members_view};

    ghost Value = { values.Members };

    ghost coded = { members_code };

    ghost view = { λ t. members_view t.members.entries };
}

impl Tree {
    /// The object of these members.
    pub fn from_members(members: Members) -> Tree
        ensures { result ≡ members_view members.entries }
    {
        Tree { members }
    }

    /// A summary that names this operation, and nothing else. An `Err` says that memory ran out.
    /// Iceberg spec, "Snapshots".
    pub fn with_operation(alloc: Global, operation: &str) -> Result<Tree, AllocError>
        ensures { IfOk result (λ t. t ≡ spec.of_operation operation.now) }
    {
        let mut summary = Members::new(alloc);
        let text = Value::try_from_str(alloc, operation)?;
        put(alloc, &mut summary, "operation", text)?;
        let mut members = Members::new(alloc);
        put(alloc, &mut members, "summary", Value::Object(summary))?;
        Ok(Tree { members })
    }

    /// The operation that the summary names. `None`: there is no summary, or no text there.
    /// Iceberg spec, "Snapshots".
    pub fn operation(&self) -> Option<&str>
        ensures { option_map (λ text. text.now) result ≡ spec.operation self.now }
    {
        match summary(&self.members) {
            Some(summary) => text_at(summary, "operation"),
            None => None,
        }
    }

    /// The members, borrowed.
    pub fn members(&self) -> &Members
        ensures { members_view result.now.entries ≡ self.now }
    {
        &self.members
    }

    /// The members, in memory of their own. An `Err` says that memory ran out.
    pub fn to_members(&self) -> Result<Members, AllocError>
        ensures { IfOk result (λ members. members_view members.entries ≡ self.now) }
    {
        copy_members(&self.members)
    }

    /// An equal object, in memory of its own. An `Err` says that memory ran out.
    pub fn copy(&self) -> Result<Tree, AllocError>
        ensures { IfOk result (λ t. t ≡ self.now) }
    {
        let members = copy_members(&self.members)?;
        Ok(Tree { members })
    }
}

/// The members of the summary. `None`: there is none that is an object.
fn summary(members: &Members) -> Option<&Members>
    ensures { option_map (λ summary. members_view summary.now.entries) result
        ≡ spec.summary (members_view members.now.entries) }
{
    match member(members, "summary") {
        Some(value) => value.as_object(),
        None => None,
    }
}

fn copy_members(members: &Members) -> Result<Members, AllocError>
    ensures { IfOk result (λ copy. members_view copy.entries ≡ members_view members.now.entries) }
{
    let mut copies = Members::emptied(members)?;
    for (name, value) in members.iter() {
        let key = name.clone()?;
        drop(copies.insert(key, value.clone()?)?);
    }
    Ok(copies)
}
