//! Why a member is refused.

ghost use Rattle.std.specs.Prelude.{◌≡◌};
ghost use Rattle.std.specs.Bool.{OnFalse};
ghost use Rattle.json_members.specs.Fault.{is_memory};
ghost use Rattle.json_members.specs.declared.fault.Fault.TheVariants.{Missing, Wrong, Memory};

use avro_wire::Text;
use std::alloc::{AllocError, AllocFailed, Global};

/// Why a member is refused.
#[derive(Drop)]
pub enum Fault {
    /// The object needs the member, and lacks it.
    Missing { member: Text },
    /// The member's value does not have its form.
    Wrong { member: Text },
    /// Memory ran out.
    Memory,
}

impl From<AllocError> for Fault {
    ghost from_gives = { λ _ e. e ≡ Memory };

    fn from(_e: AllocError) -> Fault {
        Fault::Memory
    }
}

impl<T: Drop> From<AllocFailed<T>> for Fault {
    ghost from_gives = { λ _ e. e ≡ Memory };

    fn from(_e: AllocFailed<T>) -> Fault {
        Fault::Memory
    }
}

/// The fault of a member that is missing.
pub fn missing(alloc: Global, name: &str) -> Fault
    ensures { OnFalse (is_memory result) (result ≡ Missing name.now) }
{
    match Text::from_str(alloc, name) {
        Ok(member) => Fault::Missing { member },
        Err(_) => Fault::Memory,
    }
}

/// The fault of a member whose value does not have its form.
pub fn wrong(alloc: Global, name: &str) -> Fault
    ensures { OnFalse (is_memory result) (result ≡ Wrong name.now) }
{
    match Text::from_str(alloc, name) {
        Ok(member) => Fault::Wrong { member },
        Err(_) => Fault::Memory,
    }
}
