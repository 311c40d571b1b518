//! The text of a schema: its JSON tokens, without a space between them.

ghost use Rattle.std.specs.Prelude.{◌≡◌, ◌++◌, ◌∷◌, [], true, codes, map, option_map, Ok, IfOk, OnOk};
ghost use Rattle.json.specs.Token.{begin_object, key};
ghost use Rattle.schema_tree.specs.declared.schema.Schema.TheVariants.{Fixed, Enum, Rec, Array, Map};
ghost use Rattle.avro_schema.specs.Reading.{schema_of};
ghost use Rattle.avro_schema.specs.Printable.{IsPrintable};
ghost use Rattle.avro_schema.specs.Printing.{schema_text, written, text_member, id_member, default_member, keyed_member, utc_member, object_of, list_of, texts_of, logical_type, number_tokens, int_tokens, long_tokens};
ghost use Rattle.schema_tree.specs.Logical.{attributes_of};
ghost use Rattle.schema_tree.specs.Ids.{is_id, all_true, has_ids, field_has_ids};
ghost use Rattle.avro_schema.specs.Putting.{Puts, field_written, fields_tokens, branches_tokens};

use avro_wire::Text;
use json::Writer;
use schema_tree::{Attributes, Branches, Field, Fields, Logical, Names, Schema};
use std::alloc::{AllocError, Global};

/// The text of the schema, without spaces. An `Err` says that memory ran out.
/// docs/FORMATS.md, "Avro schemas".
pub fn print_schema(alloc: Global, schema: &Schema) -> Result<Vec<u8>, AllocError>
    ensures text { IfOk result (λ text. text.items ≡ schema_text schema.now) }
    // what is printed is read as the schema
    ensures reads_back { IfOk result (λ text. IsPrintable schema.now
        → schema_of text.items ≡ Ok schema.now) }
{
    let mut out = Writer::new(Vec::new(alloc));
    put_schema(&mut out, schema)?;
    Ok(out.into_inner())
}

#[cycle(printing)]
fn put_schema(out: &mut Writer, schema: &Schema) -> Result<(), AllocError>
    ensures tokens { Puts result out.old out.new (written schema.now).tokens }
    ensures ids { OnOk result (has_ids schema.now ≡ true) }
{
    match schema {
        Schema::Null => out.string("null"),
        Schema::Boolean => out.string("boolean"),
        Schema::Int(logical) => put_int(out, *logical),
        Schema::Long(logical) => put_long(out, *logical),
        Schema::Float => out.string("float"),
        Schema::Double => out.string("double"),
        Schema::Raw => out.string("bytes"),
        Schema::Str => out.string("string"),
        Schema::Fixed { name, size } => put_fixed(out, name.get(), *size),
        Schema::Enum { name, symbols } => put_enum(out, name.get(), symbols.get()),
        Schema::Rec { name, fields } => put_record(out, name.get(), fields.get()),
        Schema::Array {
            items,
            element_id,
            keyed,
        } => put_array(out, items.get(), *element_id, *keyed),
        Schema::Map {
            values,
            key_id,
            value_id,
        } => put_map(out, values.get(), *key_id, *value_id),
        Schema::Union(branches) => put_branches(out, branches),
    }
}

#[cycle(printing)]
fn put_record(out: &mut Writer, name: &Text, fields: &Fields) -> Result<(), AllocError>
    ensures tokens { Puts result out.old out.new (written (Rec name.now fields.now)).tokens }
    ensures ids { OnOk result (has_ids (Rec name.now fields.now) ≡ true) }
{
    begin_fields(out, name)?;
    put_fields(out, fields)?;
    out.end_object()
}

#[cycle(printing)]
fn put_array(
    out: &mut Writer,
    items: &Schema,
    id: Option<i32>,
    keyed: bool,
) -> Result<(), AllocError>
    ensures tokens { Puts result out.old out.new (written (Array items.now id keyed)).tokens }
    ensures ids { OnOk result (has_ids (Array items.now id keyed) ≡ true) }
{
    begin_items(out, keyed)?;
    put_schema(out, items)?;
    put_id(out, "element-id", id)?;
    out.end_object()
}

#[cycle(printing)]
fn put_map(
    out: &mut Writer,
    values: &Schema,
    key_id: Option<i32>,
    value_id: Option<i32>,
) -> Result<(), AllocError>
    ensures tokens { Puts result out.old out.new (written (Map values.now key_id value_id)).tokens }
    ensures ids { OnOk result (has_ids (Map values.now key_id value_id) ≡ true) }
{
    begin_values(out)?;
    put_schema(out, values)?;
    put_ids(out, key_id, value_id)?;
    out.end_object()
}

#[cycle(printing)]
fn put_fields(out: &mut Writer, fields: &Fields) -> Result<(), AllocError>
    ensures tokens { Puts result out.old out.new (list_of (fields_tokens fields.now)) }
    ensures ids { OnOk result (all_true (map field_has_ids fields.now) ≡ true) }
{
    out.begin_array()?;
    for field in fields.as_slice() {
        put_field(out, field)?;
    }
    out.end_array()
}

#[cycle(printing)]
fn put_field(out: &mut Writer, field: &Field) -> Result<(), AllocError>
    ensures tokens { Puts result out.old out.new (field_written field.now).tokens }
    ensures ids { OnOk result (field_has_ids field.now ≡ true) }
{
    begin_field(out, field.name.get().as_str())?;
    put_schema(out, &field.schema)?;
    end_field(out, begins_with_null(&field.schema), field.id)?;
    out.end_object()
}

#[cycle(printing)]
fn put_branches(out: &mut Writer, branches: &Branches) -> Result<(), AllocError>
    ensures tokens { Puts result out.old out.new (list_of (branches_tokens branches.now)) }
    ensures ids { OnOk result (all_true (map has_ids branches.now) ≡ true) }
{
    out.begin_array()?;
    for branch in branches.as_slice() {
        put_schema(out, branch)?;
    }
    out.end_array()
}

/// A record's object up to its fields.
fn begin_fields(out: &mut Writer, name: &Text) -> Result<(), AllocError>
    ensures { Puts result out.old out.new
        (begin_object ∷ (text_member (codes "type") (codes "record")
        ++ (text_member (codes "name") name.now ++ key (codes "fields") ∷ []))) }
{
    begin_named(out, "record", name)?;
    out.key("fields")
}

/// An array's object up to its items.
fn begin_items(out: &mut Writer, keyed: bool) -> Result<(), AllocError>
    ensures { Puts result out.old out.new
        (begin_object ∷ (text_member (codes "type") (codes "array")
        ++ (keyed_member keyed ++ key (codes "items") ∷ []))) }
{
    begin_type(out, "array")?;
    put_keyed(out, keyed)?;
    out.key("items")
}

/// A map's object up to its values.
fn begin_values(out: &mut Writer) -> Result<(), AllocError>
    ensures { Puts result out.old out.new
        (begin_object ∷ (text_member (codes "type") (codes "map") ++ key (codes "values") ∷ [])) }
{
    begin_type(out, "map")?;
    out.key("values")
}

/// A field's object up to its type.
fn begin_field(out: &mut Writer, name: &str) -> Result<(), AllocError>
    ensures { Puts result out.old out.new
        (begin_object ∷ (text_member (codes "name") name.now ++ key (codes "type") ∷ [])) }
{
    out.begin_object()?;
    put_text(out, "name", name)?;
    out.key("type")
}

/// What follows a field's type. `null`: it may be null first.
fn end_field(out: &mut Writer, null: bool, id: Option<i32>) -> Result<(), AllocError>
    ensures tokens { Puts result out.old out.new
        (default_member null ++ id_member (codes "field-id") id) }
    ensures ids { OnOk result (is_id id ≡ true) }
{
    put_default(out, null)?;
    put_id(out, "field-id", id)
}

/// Whether the schema is a union whose first branch is the null type.
fn begins_with_null(schema: &Schema) -> bool
    ensures { result ≡ (written schema.now).begins_with_null }
{
    match schema {
        Schema::Union(branches) => match branches.get(0) {
            Some(branch) => is_null(branch),
            None => false,
        },
        _ => false,
    }
}

fn is_null(schema: &Schema) -> bool
    ensures { result ≡ (written schema.now).is_null }
{
    matches!(schema, Schema::Null)
}

fn put_int(out: &mut Writer, logical: Logical) -> Result<(), AllocError>
    ensures { Puts result out.old out.new (int_tokens logical) }
{
    put_number(out, "int", logical.int_attributes())
}

fn put_long(out: &mut Writer, logical: Logical) -> Result<(), AllocError>
    ensures { Puts result out.old out.new (long_tokens logical) }
{
    put_number(out, "long", logical.long_attributes())
}

/// An int or a long: a word alone, or an object with the attributes.
fn put_number(
    out: &mut Writer,
    kind: &str,
    attributes: Option<Attributes>,
) -> Result<(), AllocError>
    ensures { Puts result out.old out.new
        (number_tokens kind.now (option_map attributes_of attributes)) }
{
    match attributes {
        None => out.string(kind),
        Some(attributes) => put_logical(
            out,
            kind,
            attributes.logical_type,
            attributes.adjust_to_utc,
        ),
    }
}

/// The object of a number that stands for something.
fn put_logical(
    out: &mut Writer,
    kind: &str,
    logical: &str,
    utc: Option<bool>,
) -> Result<(), AllocError>
    ensures { Puts result out.old out.new
        (object_of (logical_type kind.now logical.now ++ utc_member utc)) }
{
    begin_logical(out, kind, logical)?;
    put_utc(out, utc)?;
    out.end_object()
}

fn put_fixed(out: &mut Writer, name: &Text, size: u32) -> Result<(), AllocError>
    ensures { Puts result out.old out.new (written (Fixed name.now size)).tokens }
{
    begin_named(out, "fixed", name)?;
    out.key("size")?;
    out.u64(u64::from(size))?;
    out.end_object()
}

fn put_enum(out: &mut Writer, name: &Text, symbols: &Names) -> Result<(), AllocError>
    ensures { Puts result out.old out.new (written (Enum name.now symbols.now)).tokens }
{
    begin_named(out, "enum", name)?;
    out.key("symbols")?;
    put_texts(out, symbols)?;
    out.end_object()
}

fn put_texts(out: &mut Writer, texts: &Names) -> Result<(), AllocError>
    ensures { Puts result out.old out.new (texts_of texts.now) }
{
    out.begin_array()?;
    for text in texts.as_slice() {
        out.string(text.as_str())?;
    }
    out.end_array()
}

/// An object's begin, and its type.
fn begin_type(out: &mut Writer, kind: &str) -> Result<(), AllocError>
    ensures { Puts result out.old out.new (begin_object ∷ text_member (codes "type") kind.now) }
{
    out.begin_object()?;
    put_text(out, "type", kind)
}

/// An object's begin, its type, and what its values stand for.
fn begin_logical(out: &mut Writer, kind: &str, logical: &str) -> Result<(), AllocError>
    ensures { Puts result out.old out.new (begin_object ∷ logical_type kind.now logical.now) }
{
    begin_type(out, kind)?;
    put_text(out, "logicalType", logical)
}

/// An object's begin, its type, and the name that it defines.
fn begin_named(out: &mut Writer, kind: &str, name: &Text) -> Result<(), AllocError>
    ensures { Puts result out.old out.new
        (begin_object ∷ (text_member (codes "type") kind.now
        ++ text_member (codes "name") name.now)) }
{
    begin_type(out, kind)?;
    put_text(out, "name", name.as_str())
}

fn put_text(out: &mut Writer, name: &str, text: &str) -> Result<(), AllocError>
    ensures { Puts result out.old out.new (text_member name.now text.now) }
{
    out.key(name)?;
    out.string(text)
}

fn put_id(out: &mut Writer, name: &str, id: Option<i32>) -> Result<(), AllocError>
    ensures tokens { Puts result out.old out.new (id_member name.now id) }
    ensures ids { OnOk result (is_id id ≡ true) }
{
    match id {
        None => Ok(()),
        Some(id) => {
            out.key(name)?;
            out.i64(i64::from(id))
        }
    }
}

/// The ids of a map's texts and values.
fn put_ids(out: &mut Writer, key_id: Option<i32>, value_id: Option<i32>) -> Result<(), AllocError>
    ensures tokens { Puts result out.old out.new
        (id_member (codes "key-id") key_id ++ id_member (codes "value-id") value_id) }
    ensures keys { OnOk result (is_id key_id ≡ true) }
    ensures values { OnOk result (is_id value_id ≡ true) }
{
    put_id(out, "key-id", key_id)?;
    put_id(out, "value-id", value_id)
}

fn put_keyed(out: &mut Writer, keyed: bool) -> Result<(), AllocError>
    ensures { Puts result out.old out.new (keyed_member keyed) }
{
    if keyed {
        return put_text(out, "logicalType", "map");
    }
    Ok(())
}

fn put_utc(out: &mut Writer, utc: Option<bool>) -> Result<(), AllocError>
    ensures { Puts result out.old out.new (utc_member utc) }
{
    match utc {
        None => Ok(()),
        Some(utc) => {
            out.key("adjust-to-utc")?;
            out.boolean(utc)
        }
    }
}

fn put_default(out: &mut Writer, null: bool) -> Result<(), AllocError>
    ensures { Puts result out.old out.new (default_member null) }
{
    if null {
        out.key("default")?;
        return out.null();
    }
    Ok(())
}
