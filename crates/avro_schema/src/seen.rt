//! The names that a schema's text has defined so far.

ghost use Rattle.std.specs.Prelude.{◌≤◌, IfOk, ◌≡◌, OnOk};
ghost use Rattle.std.specs.BTreeMap.{insert_entry};
ghost use Rattle.std.specs.Option.{option_copied};
ghost use Rattle.std.specs.String.{string_cmp};
ghost use Rattle.avro_schema.specs.Defined.{Definitions, known_as, is_taken, with_name, begun, defined, nothing_seen};
ghost use Rattle.avro_schema.specs.Reading.{counted, use_of};
ghost use Rattle.schema_tree.specs.Tree.{depth, size};
ghost use Rattle.avro_schema.specs.Refusal.{is_memory};
ghost use Rattle.words.specs.Reading.{Gives};

use crate::refusal::SchemaRefusal;
use avro_wire::Text;
use lists::Copied;
use schema_tree::{Schema, is_within, take_size};
use std::alloc::{AllocError, Global};
use std::collections::BTreeMap;
use std::marker::Model;

/// How many schemas may stand in a schema, each name replaced by what it was defined as.
const MOST_SCHEMAS: usize = 65_536;

/// How many bytes the full names of a text may have, those that it defines and those that it uses.
/// More are answered as lack of memory. docs/DECISIONS.md, "Schemas".
const MOST_NAMED: usize = 268_435_456;

/// The full names that are taken so far, each with its schema once that is whole, and how many
/// schemas stand in the tree so far. A name is looked up in the logarithm of their number.
#[derive(Drop)]
pub struct Seen {
    names: BTreeMap<String, Option<Schema>>,
    count: usize,
    // How many bytes are left for full names.
    left: usize,
}

impl Model for Seen {
    ghost use Rattle.std.specs.Prelude.{◌≤◌};
    ghost use Rattle.std.specs.Coded.{codes};
    ghost use Rattle.avro_schema.specs.Defined as spec;
    ghost use Rattle.schema_tree.specs.contracts.schema.Schema as schemas;
    ghost use Rattle.avro_schema.specs.SeenNames.{names_of};

    ghost Value = { spec.Seen };

    ghost coded = { Prim.hlevel (codes, schemas.the_row.coded) };

    ghost view = { λ s. record { names = names_of s.names.entries; count = s.count } };

    ghost invariant = { λ s. s.count ≤ 65536 };
}

impl Seen {
    /// Nothing.
    pub fn new(alloc: Global) -> Seen
        ensures { result ≡ nothing_seen }
    {
        Seen {
            names: BTreeMap::new(alloc),
            count: 0,
            left: MOST_NAMED,
        }
    }

    /// Whether the full name is taken.
    pub fn is_taken(&self, name: &str) -> bool
        ensures { result ≡ is_taken self.now.names name.now }
    {
        self.names.contains_key(name)
    }

    /// What is known of the full name. `None`: it is not taken. `Some(None)`: its definition has
    /// begun, and is not whole.
    fn known(&self, name: &str) -> Option<&Option<Schema>>
        ensures { option_copied result ≡ known_as self.now.names name.now }
    {
        self.names.get(name)
    }

    /// Takes the full name for a definition that begins. An `Err` says that memory ran out.
    pub fn begin(&mut self, alloc: Global, name: &str) -> Result<(), AllocError>
        ensures ok { OnOk result (self.new ≡ begun self.old name.now) }
    {
        self.put(alloc, name, None)
    }

    /// Defines the full name as the schema. An `Err` says that memory ran out.
    pub fn define(&mut self, alloc: Global, name: &str, schema: &Schema) -> Result<(), AllocError>
        ensures ok { OnOk result (self.new ≡ defined self.old name.now schema.now) }
    {
        let Some(left) = self.left.checked_sub(name.len()) else {
            return Err(AllocError);
        };
        let copy = schema.copy(alloc)?;
        self.left = left;
        self.put(alloc, name, Some(copy))
    }

    fn put(&mut self, alloc: Global, name: &str, schema: Option<Schema>) -> Result<(), AllocError>
        ensures ok { OnOk result (self.new
            ≡ record { names = with_name self.old.names name.now schema; count = self.old.count }) }
    {
        let key = String::from_str(alloc, name)?;
        put_name(&mut self.names, key, schema)?;
        Ok(())
    }

    /// Counts a schema that holds none, or none yet, where `room` levels may stand from it down.
    pub fn count_one(&mut self, room: usize) -> Result<(), SchemaRefusal>
        ensures { Gives is_memory (λ _. self.new) result (counted room 1 1 self.old) }
    {
        if room == 0 || self.count >= MOST_SCHEMAS {
            return Err(SchemaRefusal::Nesting);
        }
        self.count += 1;
        Ok(())
    }

    /// The schema that a name stands for, where `room` levels may stand from it down. `word`: the
    /// name as it is written; `name`: the full name.
    pub fn take_use(
        &mut self,
        alloc: Global,
        room: usize,
        word: &str,
        name: &str,
    ) -> Result<Schema, SchemaRefusal>
        ensures exact { Gives is_memory (λ schema. (schema, self.new)) result
            (use_of room word.now self.old (known_as self.old.names name.now)) }
    {
        let Some(Some(schema)) = self.known(name) else {
            return Err(SchemaRefusal::Unknown {
                name: Text::from_str(alloc, word)?,
            });
        };
        let count = count_use(self.count, room, schema)?;
        let Some(left) = self.left.checked_sub(name.len()) else {
            return Err(SchemaRefusal::Memory);
        };
        let copy = schema.copy(alloc)?;
        self.count = count;
        self.left = left;
        Ok(copy)
    }
}

/// Puts the name among the names, with what is known of it.
fn put_name(
    names: &mut BTreeMap<String, Option<Schema>>,
    name: String,
    schema: Option<Schema>,
) -> Result<(), AllocError>
    ensures ok { OnOk result (names.new.entries
        ≡ insert_entry string_cmp names.old.entries name schema) }
{
    names.insert(name, schema)?;
    Ok(())
}

/// How many schemas there are with those of one that a name stands for, where `room` levels may
/// stand from it down.
fn count_use(count: usize, room: usize, schema: &Schema) -> Result<usize, SchemaRefusal>
    requires { count ≤ 65536 }
    ensures exact { (names : Definitions) → Gives is_memory
        (λ after. record { names = names; count = after }) result
        (counted room (depth schema.now) (size schema.now)
        (record { names = names; count = count })) }
    ensures few { IfOk result (λ after. after ≤ 65536) }
{
    if !is_within(schema, room) {
        return Err(SchemaRefusal::Nesting);
    }
    let Some(left) = take_size(schema, MOST_SCHEMAS - count) else {
        return Err(SchemaRefusal::Nesting);
    };
    Ok(MOST_SCHEMAS - left)
}
