//! Reading a source to its end.

ghost use Rattle.std.specs.Prelude.{◌≡◌, ◌≢◌, ◌<◌, ◌≤◌, ◌^◌, ℕ, List, length, IfOk, IfErr, OnOk, IsErrOf};
ghost use Rattle.std.specs.Bool.{OnTrue, OnFalse};
ghost use Rattle.std.specs.Io.KnownBytes.{Consumes, IsAtEnd, Keeps};
ghost use Rattle.lineage_cli.specs.Input.{IsAll, IsUnread, StopsBy, Reads, read_faults};
ghost use Rattle.lineage_cli.specs.Leaves.{LeavesInput, ended_class};

use crate::ending::Ending;
use lt_port::Source;
use std::alloc::{AllocError, Global};

/// The bytes that one call asks for at most.
const PIECE_BYTES: usize = 65_536;

/// Why an input was not read.
#[derive(Clone, Copy)]
pub enum InputRefusal {
    /// The source failed.
    Fault,
    /// There are more bytes than may be. One byte above the limit was read.
    Limit,
    /// Memory ran out. At most one byte above the limit was read.
    Memory,
}

/// The bytes of the input, all of them, if they are no more than `most`.
pub fn read_input<S: Source>(alloc: Global, input: &mut S, most: u64) -> Result<Vec<u8>, Ending>
    requires { most < 2 ^ 62 }
    ensures all { IfOk result (λ bytes.
        IsAll most (S.seen input.old).left (S.seen input.new).left bytes.items) }
    ensures missed { IfErr result (λ ending.
        IsUnread most (S.seen input.old).left (S.seen input.new).left ending) }
    ensures leaves { LeavesInput (ended_class result) (S.seen input.old) (S.seen input.new) }
{
    match read_all(alloc, input, most as usize) {
        Ok(bytes) => Ok(bytes),
        Err(InputRefusal::Fault) => Err(Ending::InputFault),
        Err(InputRefusal::Limit) => Err(Ending::InputLimit { found: most + 1 }),
        Err(InputRefusal::Memory) => Err(Ending::Memory),
    }
}

/// All bytes that the source has left, if they are no more than `most`.
fn read_all<S: Source>(alloc: Global, input: &mut S, most: usize) -> Result<Vec<u8>, InputRefusal>
    requires { most < 2 ^ 62 }
    ensures all { IfOk result (λ bytes.
        IsAll most (S.seen input.old).left (S.seen input.new).left bytes.items) }
    ensures stops { IfErr result (λ refusal.
        StopsBy most (S.seen input.old).left (S.seen input.new).left refusal) }
    ensures counted { (S.seen input.new).faults ≡ read_faults result (S.seen input.old).faults }
{
    let Ok(mut room) = zeros(alloc, PIECE_BYTES) else {
        return Err(InputRefusal::Memory);
    };
    read_into(alloc, input, &mut room, most)
}

/// `count` zero bytes. An `Err` says that memory ran out.
fn zeros(alloc: Global, count: usize) -> Result<Vec<u8>, AllocError>
    ensures { IfOk result (λ room. length room.items ≡ count) }
{
    vec![in alloc; 0; count]
}

/// The same, into `room` on the way.
fn read_into<S: Source>(
    alloc: Global,
    input: &mut S,
    room: &mut [u8],
    most: usize,
) -> Result<Vec<u8>, InputRefusal>
    requires room { 0 < length room.old }
    requires fits { most < 2 ^ 62 }
    ensures all { IfOk result (λ bytes.
        IsAll most (S.seen input.old).left (S.seen input.new).left bytes.items) }
    ensures stops { IfErr result (λ refusal.
        StopsBy most (S.seen input.old).left (S.seen input.new).left refusal) }
    ensures counted { (S.seen input.new).faults ≡ read_faults result (S.seen input.old).faults }
{
    let mut bytes = Vec::new(alloc);
    while bytes.len() <= most {
        let size = room.len().min(most + 1 - bytes.len());
        if !read_piece(input, &mut room[..size], &mut bytes)? {
            return Ok(bytes);
        }
    }
    Err(InputRefusal::Limit)
}

/// Reads one piece of what the source has left after `bytes`, into `room` on the way. It answers
/// whether there was any.
fn read_piece<S: Source>(
    input: &mut S,
    room: &mut [u8],
    bytes: &mut Vec<u8>,
) -> Result<bool, InputRefusal>
    requires { 0 < length room.old }
    ensures read { OnOk result (Reads (S.seen input.old).left (S.seen input.new).left
        bytes.old.items bytes.new.items (length room.old)) }
    ensures end { IfOk result (λ more. OnFalse more
        (IsAtEnd (S.seen input.new).left × (bytes.new.items ≡ bytes.old.items))) }
    ensures some { IfOk result (λ more. OnTrue more
        (length bytes.old.items < length bytes.new.items)) }
    ensures unlimited { IfErr result (λ refusal. refusal ≢ InputRefusal.Limit) }
    ensures unmoved { IsErrOf result InputRefusal.Fault
        → Keeps (S.seen input.old).left (S.seen input.new).left }
    ensures few { IsErrOf result InputRefusal.Memory → (piece : List ℕ)
        × Consumes (S.seen input.old).left (S.seen input.new).left piece
        × length piece ≤ length room.old }
    ensures counted { (S.seen input.new).faults ≡ read_faults result (S.seen input.old).faults }
{
    let Ok(count) = input.read(room) else {
        return Err(InputRefusal::Fault);
    };
    match bytes.extend_from_slice(&room[..count]) {
        Ok(()) => Ok(count != 0),
        Err(_) => Err(InputRefusal::Memory),
    }
}
