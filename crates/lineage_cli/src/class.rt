//! Classes of endings.

ghost use Rattle.std.specs.Prelude.{◌≡◌};
ghost use Rattle.lineage_cli.specs.Class as spec;
ghost use Rattle.lineage_cli.specs.Class.{class_status};

/// What a refusal is about.
#[derive(Clone, Copy)]
pub enum RefusalClass {
    /// The text of the input.
    Input,
    /// A file of a table.
    Table,
    /// A rule of histories.
    Rule,
    /// Memory.
    Memory,
    /// A limit.
    Limit,
}

/// How a run ended that doesn't answer.
#[derive(Clone, Copy)]
pub enum Class {
    /// The bytes of the input are refused.
    Refused(RefusalClass),
    /// The words are no command.
    Usage,
    /// The input failed.
    InputFault,
    /// The output failed.
    OutFault,
    /// Memory ran out.
    Memory,
}

/// The exit status.
pub fn status_of_class(class: Class) -> u8
    ensures { result ≡ class_status class }
{
    match class {
        Class::Refused(refusal) => refusal_status(refusal),
        Class::Usage => 1,
        Class::InputFault | Class::OutFault => 5,
        Class::Memory => 6,
    }
}

/// The word of the line.
pub fn class_word(class: Class) -> &'static [u8]
    ensures { result.now ≡ spec.class_word class }
{
    match class {
        Class::Refused(refusal) => refusal_word(refusal),
        Class::Usage => b"usage",
        Class::InputFault | Class::OutFault => b"fault",
        Class::Memory => b"memory",
    }
}

/// The exit status of a refusal.
fn refusal_status(refusal: RefusalClass) -> u8
    ensures { result ≡ spec.refusal_status refusal }
{
    match refusal {
        RefusalClass::Input => 2,
        RefusalClass::Table => 3,
        RefusalClass::Rule => 4,
        RefusalClass::Memory => 6,
        RefusalClass::Limit => 7,
    }
}

/// The word of a refusal.
fn refusal_word(refusal: RefusalClass) -> &'static [u8]
    ensures { result.now ≡ spec.refusal_word refusal }
{
    match refusal {
        RefusalClass::Input => b"input",
        RefusalClass::Table => b"table",
        RefusalClass::Rule => b"refused",
        RefusalClass::Memory => b"memory",
        RefusalClass::Limit => b"limit",
    }
}
