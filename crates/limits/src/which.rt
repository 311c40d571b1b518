//! Which limit is broken.

ghost use Rattle.std.specs.Prelude.{◌≡◌};
ghost use Rattle.std.specs.declared.option.Option.TheVariants.{Some};
ghost use Rattle.limits.specs.Which.{name_of};

use std::fmt;

/// A quantity that has a limit. It prints as the variant's name. docs/FORMATS.md, "Limits".
#[derive(Clone, Copy, PartialEq, Eq)]
pub enum Which {
    /// The bytes of an input.
    Input,
    /// The bytes of one object.
    Object,
    /// The bytes of a path.
    Path,
    /// The snapshots of a table.
    Snapshots,
    /// The manifests of one manifest list.
    Manifests,
    /// The live files of a table.
    Files,
    /// The rows of one data file.
    FileRows,
    /// The rows of all live files.
    LiveRows,
}

impl Which {
    /// The variant's name.
    pub fn name(self) -> &'static str
        ensures { result.now ≡ name_of self }
    {
        match self {
            Which::Input => "Input",
            Which::Object => "Object",
            Which::Path => "Path",
            Which::Snapshots => "Snapshots",
            Which::Manifests => "Manifests",
            Which::Files => "Files",
            Which::FileRows => "FileRows",
            Which::LiveRows => "LiveRows",
        }
    }
}

impl fmt::Display for Which {
    ghost output = { λ which. Some (name_of which) };

    fn fmt<W: fmt::Write>(&self, f: &mut fmt::Formatter<W>) -> fmt::Result {
        f.write_str(self.name())
    }
}
