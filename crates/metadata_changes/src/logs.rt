//! The carried members that a change touches.

ghost use Rattle.std.specs.Prelude.{◌≡◌, [], ◌∷◌, IfOk, option_map, option_and_then, codes, Some};
ghost use Rattle.serde_json.specs.Data.{object, no_members};
ghost use Rattle.serde_json.specs.Find.{get_member, as_object};
ghost use Rattle.serde_json.specs.View.{view, items_view, members_view};
ghost use Rattle.json_members.specs.Members.{with_fields, without};
ghost use Rattle.metadata_changes.specs.Logs as spec;

use json_members::{Members, put, take};
use serde_json::Value;
use std::alloc::{AllocError, Global};

/// The items, with one last. They are moved, and not copied.
pub fn with_last(mut items: Vec<Value>, entry: Members) -> Result<Vec<Value>, AllocError>
    ensures { IfOk result (λ after. items_view after.items
        ≡ spec.with_last (items_view items.items) (object (members_view entry.entries))) }
{
    items.push(Value::Object(entry))?;
    Ok(items)
}

/// An entry of the log of snapshots. Iceberg spec, "Table Metadata Fields".
pub fn snapshot_entry(alloc: Global, id: i64, time: i64) -> Result<Members, AllocError>
    ensures { IfOk result (λ entry. members_view entry.entries
        ≡ with_fields (spec.snapshot_fields id time) no_members) }
{
    let mut entry = Members::new(alloc);
    put(alloc, &mut entry, "timestamp-ms", Value::from(time))?;
    put(alloc, &mut entry, "snapshot-id", Value::from(id))?;
    Ok(entry)
}

/// An entry of the log of metadata files. Iceberg spec, "Table Metadata Fields".
pub fn metadata_entry(alloc: Global, path: &str, time: i64) -> Result<Members, AllocError>
    ensures { IfOk result (λ entry. members_view entry.entries
        ≡ with_fields (spec.metadata_fields path.now time) no_members) }
{
    let mut entry = Members::new(alloc);
    put(alloc, &mut entry, "timestamp-ms", Value::from(time))?;
    let file = Value::try_from_str(alloc, path)?;
    put(alloc, &mut entry, "metadata-file", file)?;
    Ok(entry)
}

/// The references, with the branch `main` at this snapshot. Iceberg spec, "Snapshot References".
pub fn with_main(alloc: Global, mut refs: Members, id: i64) -> Result<Members, AllocError>
    ensures { IfOk result (λ after. members_view after.entries
        ≡ spec.with_main id (members_view refs.entries)) }
{
    let branch = take_object(&mut refs, "main");
    let branch = branch_at(alloc, branch, id)?;
    put(alloc, &mut refs, "main", Value::Object(branch))?;
    Ok(refs)
}

fn branch_at(alloc: Global, branch: Option<Members>, id: i64) -> Result<Members, AllocError>
    ensures { IfOk result (λ after. members_view after.entries
        ≡ spec.branch_at id (option_map (λ branch. members_view branch.entries) branch)) }
{
    match branch {
        Some(branch) => moved(alloc, branch, id),
        None => new_branch(alloc, id),
    }
}

fn moved(alloc: Global, mut branch: Members, id: i64) -> Result<Members, AllocError>
    ensures { IfOk result (λ after. members_view after.entries
        ≡ spec.branch_at id (Some (members_view branch.entries))) }
{
    put(alloc, &mut branch, "snapshot-id", Value::from(id))?;
    Ok(branch)
}

fn new_branch(alloc: Global, id: i64) -> Result<Members, AllocError>
    ensures { IfOk result (λ branch. members_view branch.entries
        ≡ with_fields (spec.branch_fields id) no_members) }
{
    let mut branch = Members::new(alloc);
    let word = Value::try_from_str(alloc, "branch")?;
    put(alloc, &mut branch, "type", word)?;
    put(alloc, &mut branch, "snapshot-id", Value::from(id))?;
    Ok(branch)
}

/// Takes the member of the name out of the object, without a copy. `None`: it is no object.
pub fn take_object(members: &mut Members, name: &str) -> Option<Members>
    ensures value { option_map (λ taken. members_view taken.entries) result
        ≡ option_and_then as_object (get_member name.now (members_view members.old.entries)) }
    ensures left { members_view members.new.entries
        ≡ without (name.now ∷ []) (members_view members.old.entries) }
{
    match take(members, name) {
        Some(value) => object_of(value),
        None => None,
    }
}

/// The members of an object, moved out of the value. `None`: the value is no object.
fn object_of(value: Value) -> Option<Members>
    ensures { option_map (λ object. members_view object.entries) result ≡ as_object (view value) }
{
    match value {
        Value::Object(object) => Some(object),
        _ => None,
    }
}

/// Takes the members of the object of the name, without a copy. Whatever else is there has none.
pub fn take_members(alloc: Global, members: &mut Members, name: &str) -> Members
    ensures value { members_view result.entries
        ≡ spec.members_in (get_member name.now (members_view members.old.entries)) }
    ensures left { members_view members.new.entries
        ≡ without (name.now ∷ []) (members_view members.old.entries) }
{
    match take_object(members, name) {
        Some(object) => object,
        None => Members::new(alloc),
    }
}
