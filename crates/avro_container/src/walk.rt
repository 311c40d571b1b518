//! The whole framing of a file checked, and its blocks returned one after the other.

ghost use Rattle.std.specs.Prelude.{◌≡◌, ℕ, ◌≤◌, List, [], ◌∷◌, length, IfNone, IfOk, Ok, MatchOption};
ghost use Rattle.std.specs.Option.{option_copied};
ghost use Rattle.words.specs.Reading.{Gives, never, outcome};
ghost use Rattle.avro_container.specs.Refusal.{is_memory};
ghost use Rattle.avro_container.specs.Header.{bound_to as value_of};
ghost use Rattle.avro_container.specs.Block.{blocks_at};
ghost use Rattle.avro_container.specs.Container.{most_bytes, container_at};
ghost use Rattle.avro_container.specs.Format.{IsContainer};
ghost use Rattle.avro_container.specs.declared.container.Container.{Container};

use crate::block::{SYNC_BYTES, take_frame};
use crate::container::Meta;
use crate::header::{take_header, take_part};
use crate::pairs::{copies, value_there};
use crate::refusal::ContainerRefusal;
use std::alloc::{AllocError, Global};
use std::marker::Model;

/// The most bytes of a file.
const MOST_BYTES: u64 = 67_108_864;

/// The blocks of a container, borrowed one after the other from bytes whose framing was checked whole.
/// Contracts see the whole container, and those of its blocks that are left.
#[derive(Drop)]
pub struct Walk<'a> {
    input: &'a [u8],
    /// Where the header's pairs begin.
    pairs: Vec<u32>,
    sync: [u8; 16],
    /// Where the first block begins.
    first: usize,
    /// Where the next block begins.
    place: usize,
    /// How many blocks were returned.
    lent: usize,
}

impl<'a> Model for Walk<'a> {
    ghost use Rattle.avro_container.specs.Container.{Walked};
    ghost use Rattle.avro_container.specs.Pairs.{pairs_there};
    ghost use Rattle.avro_container.specs.Walk.{walked_of, IsFramed};

    ghost Value = { Walked };

    ghost view = { λ w. walked_of w.input.now (pairs_there w.input.now w.pairs.items) w.sync
        w.first w.place w.lent };

    ghost invariant = { λ w. IsFramed w.input.now w.sync w.first w.place w.lent };
}

impl<'a> Walk<'a> {
    ghost use Rattle.avro_container.specs.Container.{Walked};

    /// What the key is bound to in the header, borrowed from the input. `None`: no pair has the
    /// key.
    pub fn bound_to(&self, key: &str) -> Option<&'a [u8]>
        ensures { option_copied result ≡ value_of self.now.whole.meta key.now }
    {
        value_there(self.input, self.pairs.as_slice(), key)
    }

    /// The header's pairs, in memory of their own. An `Err` says that memory ran out.
    pub fn meta(&self, alloc: Global) -> Result<Meta, AllocError>
        ensures { IfOk result (λ meta. meta ≡ self.now.whole.meta) }
    {
        copies(alloc, self.input, self.pairs.as_slice())
    }

    /// The header's marker.
    pub fn sync(&self) -> [u8; 16]
        ensures { result ≡ self.now.whole.sync }
    {
        self.sync
    }

    /// The next block: how many objects it has, and their bytes. None if no block is left.
    pub fn next(&mut self) -> Option<(i64, &'a [u8])>
        ensures value { MatchOption result (self.old.left ≡ [])
            (λ block. self.old.left
            ≡ record { count = block.0; bytes = block.1.now } ∷ self.new.left) }
        ensures end { IfNone result (self.new ≡ self.old) }
        ensures whole { self.new.whole ≡ self.old.whole }
    {
        if self.place >= self.input.len() {
            return None;
        }
        let number = self.lent as u64 + 1;
        let Ok((frame, after)) = take_frame(&self.sync, number, self.input, self.place) else {
            return None;
        };
        self.place = after;
        self.lent += 1;
        Some((frame.count as i64, &self.input[frame.start..frame.end]))
    }

    /// Goes back to the first block.
    pub fn restart(&mut self)
        ensures start { self.new.left ≡ self.old.whole.blocks }
        ensures whole { self.new.whole ≡ self.old.whole }
    {
        self.place = self.first;
        self.lent = 0;
    }
}

/// Checks the whole framing of the bytes: the container is there, and its blocks can be returned.
/// Avro spec, "Object Container Files".
pub fn open_walk(alloc: Global, input: &[u8]) -> Result<Walk<'_>, ContainerRefusal>
    // The bytes are the file of the container, and each file within the limit is opened.
    ensures found { IfOk result (λ walk. IsContainer input.now walk.whole) }
    ensures only { (container : Container) → IsContainer input.now container
        → length input.now ≤ most_bytes
        → Gives is_memory (λ walk. walk.whole) result (Ok container) }
    // All blocks are left, and no more than there are bytes.
    ensures start { IfOk result (λ walk. walk.left ≡ walk.whole.blocks) }
    ensures few { IfOk result (λ walk. length walk.whole.blocks ≤ length input.now) }
    // Which refusal comes.
    ensures exact { Gives is_memory (λ walk. walk.whole) result (container_at input.now) }
{
    walk_of(alloc, input)
}

/// A law, without code: what the bytes read as is the container whose file they are, and a container
/// whose file is within the limit is what its file reads as.
pub fn reading_agrees()
    ensures found { (input : List ℕ) (container : Container)
        → container_at input ≡ Ok container → IsContainer input container }
    ensures only { (input : List ℕ) (container : Container) → IsContainer input container
        → length input ≤ most_bytes → container_at input ≡ Ok container }
{}

/// What `open_walk` answers.
#[tactic(auto, unfolding(crate::specs::Container::container_at))]
fn walk_of(alloc: Global, input: &[u8]) -> Result<Walk<'_>, ContainerRefusal>
    ensures exact { Gives is_memory (λ walk. walk.whole) result (container_at input.now) }
    ensures start { IfOk result (λ walk. walk.left ≡ walk.whole.blocks) }
{
    if input.len() as u64 > MOST_BYTES {
        return Err(ContainerRefusal::Limit {
            found: input.len() as u64,
        });
    }
    let (pairs, place) = take_header(alloc, input)?;
    let first = take_part(input, place, SYNC_BYTES)?;
    let mut sync = [0; 16];
    sync.copy_from_slice(&input[place..first]);
    check_blocks(&sync, input, first)?;
    Ok(Walk {
        input,
        pairs,
        sync,
        first,
        place: first,
        lent: 0,
    })
}

/// Whether all that stands from `first` on are whole blocks.
fn check_blocks(sync: &[u8; 16], input: &[u8], first: usize) -> Result<(), ContainerRefusal>
    requires { first ≤ length input.now }
    ensures { Gives never (λ done. done) result
        (outcome (blocks_at (length input.now) sync.now 1 input.now first)) }
{
    let mut place = first;
    for lent in 0..input.len() {
        if place >= input.len() {
            return Ok(());
        }
        let (_, after) = take_frame(sync, lent as u64 + 1, input, place)?;
        place = after;
    }
    Ok(())
}
