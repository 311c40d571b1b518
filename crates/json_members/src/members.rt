//! The members of a JSON object.

ghost use Rattle.std.specs.Prelude.{◌≡◌, [], ◌∷◌, option_map, OnOk, OnErr};
ghost use Rattle.serde_json.specs.Data.{put as with_member};
ghost use Rattle.serde_json.specs.Find.{get_member};
ghost use Rattle.serde_json.specs.View.{view, items_view, members_view};
ghost use Rattle.json_members.specs.Form.{items_in};
ghost use Rattle.json_members.specs.Members.{without, with_field};

use serde_json::{Map, Value};
use std::alloc::{AllocError, Global};

/// The members of a JSON object, by their names. A name that a text gives twice has its last
/// value.
pub type Members = Map<String, Value>;

/// The member of the name. `None`: there is none.
pub fn member<'v>(members: &'v Members, name: &str) -> Option<&'v Value>
    ensures { option_map (λ value. view value.now) result
        ≡ get_member name.now (members_view members.now.entries) }
{
    members.get(name)
}

/// Takes the member of the name out of the object, without a copy. `None`: there is none.
pub fn take(members: &mut Members, name: &str) -> Option<Value>
    ensures value { option_map view result
        ≡ get_member name.now (members_view members.old.entries) }
    ensures left { members_view members.new.entries
        ≡ without (name.now ∷ []) (members_view members.old.entries) }
{
    members.remove(name)
}

/// Takes the member of the name out of the object, and returns its items without a copy. A member
/// that is missing, or is no list, has no items.
pub fn take_items(alloc: Global, members: &mut Members, name: &str) -> Vec<Value>
    ensures value { items_view result.items
        ≡ items_in (get_member name.now (members_view members.old.entries)) }
    ensures left { members_view members.new.entries
        ≡ without (name.now ∷ []) (members_view members.old.entries) }
{
    match take(members, name) {
        Some(Value::Array(items)) => items,
        _ => Vec::new(alloc),
    }
}

/// Puts a member at the name, in place of an older one. An `Err` says that memory ran out, and
/// leaves the members as they were.
pub fn put(alloc: Global, members: &mut Members, name: &str, value: Value) -> Result<(), AllocError>
    ensures ok { OnOk result (members_view members.new.entries
        ≡ with_member name.now (view value) (members_view members.old.entries)) }
    ensures unchanged { OnErr result
        (members_view members.new.entries ≡ members_view members.old.entries) }
{
    let key = String::from_str(alloc, name)?;
    members.insert(key, value)?;
    Ok(())
}

/// Puts a member at the name if there is a value. An `Err` says that memory ran out, and leaves the
/// members as they were.
pub fn put_some(
    alloc: Global,
    members: &mut Members,
    name: &str,
    value: Option<Value>,
) -> Result<(), AllocError>
    ensures ok { OnOk result (members_view members.new.entries
        ≡ with_field name.now (option_map view value) (members_view members.old.entries)) }
    ensures unchanged { OnErr result
        (members_view members.new.entries ≡ members_view members.old.entries) }
{
    match value {
        None => Ok(()),
        Some(value) => put(alloc, members, name, value),
    }
}
