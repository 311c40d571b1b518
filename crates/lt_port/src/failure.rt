//! How a call on the outside fails.

/// The call failed: the outside's count of faults says so.
#[derive(Clone, Copy, PartialEq, Eq)]
pub struct Failed;

/// Why a call that may want memory failed.
#[derive(Clone, Copy, PartialEq, Eq)]
pub enum PortError {
    /// The outside failed: its count of faults says so.
    Failed,
    /// Memory ran out.
    Memory,
}
