//! What the reading of a text and its meaning have to do with each other.

ghost use Rattle.std.specs.Prelude.{◌≡◌, ℕ, List, Ok};
ghost use Rattle.schema_tree.specs.declared.schema.Schema.{Schema};
ghost use Rattle.avro_schema.specs.Meaning.{IsSchemaText};
ghost use Rattle.avro_schema.specs.Reading.{schema_of};

/// A law, and no code: a text is the schema that is read of it, and the schema that a text is, is
/// read of it.
pub fn reading_agrees()
    ensures found { (text : List ℕ) (schema : Schema) → schema_of text ≡ Ok schema
        → IsSchemaText text schema }
    ensures only { (text : List ℕ) (schema : Schema) → IsSchemaText text schema
        → schema_of text ≡ Ok schema }
{}
