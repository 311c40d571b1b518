//! The rules of a history.

ghost use Rattle.std.specs.Prelude.{◌≡◌};
ghost use Rattle.std.specs.declared.option.Option.TheVariants.{Some};
ghost use Rattle.lineage_model.specs.RuleName.{name_of};

use std::fmt;

/// A rule of a history, in the order in which the rules are looked at. It prints as the variant's
/// name. docs/LINEAGE.md, "The rules of a history".
#[derive(Clone, Copy, PartialEq, Eq)]
pub enum Rule {
    /// The state at the start is right.
    Start,
    /// The format's version has the request.
    Version,
    /// Each row has an id, where the request needs that.
    Unnamed,
    /// The sequence number is the next one, and absent for an upgrade.
    Seq,
    /// The next id is there exactly in version 3, and 0 after an upgrade.
    Next,
    /// As many ids are named as there are rows without one.
    Named,
    /// As many ids are given as rows are appended.
    Given,
    /// The named and given ids rise, from the old next id to below the new one.
    Fresh,
    /// What is set can be set.
    Asked,
}

impl Rule {
    /// The variant's name.
    pub fn name(self) -> &'static str
        ensures { result.now ≡ name_of self }
    {
        match self {
            Rule::Start => "Start",
            Rule::Version => "Version",
            Rule::Unnamed => "Unnamed",
            Rule::Seq => "Seq",
            Rule::Next => "Next",
            Rule::Named => "Named",
            Rule::Given => "Given",
            Rule::Fresh => "Fresh",
            Rule::Asked => "Asked",
        }
    }
}

impl fmt::Display for Rule {
    ghost output = { λ rule. Some (name_of rule) };

    fn fmt<W: fmt::Write>(&self, f: &mut fmt::Formatter<W>) -> fmt::Result {
        f.write_str(self.name())
    }
}
