//! What a reader of one object promises.

ghost use Rattle.std.specs.Prelude.{◌≡◌, ℕ, ◌≤◌, Bool, true, List, length, IfOk, is_ok, Result, Ok, Err};
ghost use Rattle.words.specs.Reading.{Gives, never};
ghost use Rattle.objects.specs.Object.{Agrees, place_behind};

use std::alloc::{AllocError, Global};

/// A reader of objects. It reads one at a place of a block's bytes; places count bytes from 0.
pub trait Object<'a>: Drop {
    /// What an object is read into. It may borrow from the input.
    type Slot: Drop;
    /// What an object is, in memory of its own.
    type Value: Drop;
    /// Why bytes are no object.
    type Refusal: Drop;

    /// What is read at a place of the input, and the place after it, or the first refusal.
    ghost at: { Self → List ℕ → ℕ → Result (Self.Value × ℕ) Self.Refusal };

    /// The bytes are an encoding of the value.
    ghost Spells: { Self → Self.Value → List ℕ → Type 0 };

    /// What the slot holds.
    ghost held: { Self.Slot → Self.Value };

    /// The reader is one that can read: what it was made of belongs together.
    ghost right: { Self → Type 0 };

    /// The slot is one for this reader's objects.
    ghost fits: { Self → Self.Slot → Type 0 };

    /// The refusal of bytes after the last object of a block, whose number counts from 1.
    ghost rest: { ℕ → Self.Refusal };

    /// Reads the object at `place` into `slot`, and returns the place after it.
    fn take(
        &self,
        input: &'a [u8],
        place: usize,
        slot: &mut Self::Slot,
    ) -> Result<usize, Self::Refusal>
        requires right { right self.now }
        requires start { place ≤ length input.now }
        requires fits { fits self.now slot.old }
        ensures exact { Gives never (λ after. (held slot.new, after)) result
            (at self.now input.now place) }
        ensures within { IfOk result (λ after. (place ≤ after) × (after ≤ length input.now)) }
        ensures fits { fits self.now slot.new };

    /// Checks the object at `place`, and returns the place after it. It refuses what `take`
    /// refuses, and builds nothing.
    fn pass(&self, input: &'a [u8], place: usize) -> Result<usize, Self::Refusal>
        requires right { right self.now }
        requires start { place ≤ length input.now }
        ensures exact { Gives never (λ after. after) result
            (place_behind (at self.now input.now place)) }
        ensures within { IfOk result (λ after. (place ≤ after) × (after ≤ length input.now)) };

    /// Reads the object at `place`, which was checked, into `slot`, and returns the place after
    /// it.
    fn take_known(&self, input: &'a [u8], place: usize, slot: &mut Self::Slot) -> usize
        requires right { right self.now }
        requires start { place ≤ length input.now }
        requires fits { fits self.now slot.old }
        requires known { is_ok (at self.now input.now place) ≡ true }
        ensures exact { at self.now input.now place ≡ Ok (held slot.new, result) }
        ensures within { (place ≤ result) × (result ≤ length input.now) }
        ensures fits { fits self.now slot.new };

    /// The refusal of bytes after the last object of the block, whose number counts from 1.
    fn rest_in(&self, block: u64) -> Self::Refusal
        ensures { result ≡ rest block };

    /// A law, without code: what is read is encoded so, and what is encoded so is read.
    fn agrees(&self)
        requires right { right self.now }
        ensures { Agrees (at self.now) (Spells self.now) };
}

/// A reader whose objects can be copied into memory of their own.
pub trait Owning<'a>: Object<'a> {
    /// The refusal says that memory ran out.
    ghost is_memory: { Self.Refusal → Bool };

    /// What the slot holds, in memory of its own. An `Err` says that memory ran out.
    fn own(&self, alloc: Global, slot: &Self::Slot) -> Result<Self::Value, AllocError>
        ensures { IfOk result (λ value. value ≡ Self.held slot.now) };

    /// The refusal that says that memory ran out.
    fn no_memory(&self) -> Self::Refusal
        ensures { is_memory result ≡ true };
}
