//! The objects of all blocks, shown one after the other.

ghost use Rattle.std.specs.Prelude.{◌≡◌, ◌+◌, ◌<◌, ◌^◌, [], ◌∷◌, length, None, OnOk, IfErr};
ghost use Rattle.std.specs.Bool.{OnTrue, OnFalse};
ghost use Rattle.words.specs.Reading.{Gives, never, outcome};
ghost use Rattle.objects.specs.Stream.{ended, refused, all};
ghost use Rattle.objects.specs.Blocks.{told as objects_told, blocks_from};
ghost use Rattle.objects.specs.Left.{left_of, IsStep, IfEnd, IsPass, IsBegun, IsWithin, IsReady};

use crate::object::Object;
use avro_container::Walk;

/// What of the blocks was not shown.
#[derive(Drop)]
pub struct Rest<'a> {
    /// The blocks that were not begun.
    walk: Walk<'a>,
    /// The number of the block that was begun, counted from 1; 0 before the first one.
    number: u64,
    /// The bytes of that block.
    block: &'a [u8],
    /// Where its next object begins.
    place: usize,
    /// How many of its objects are left.
    left: u64,
}

/// The objects of a container, read and shown one after the other.
#[derive(Drop)]
pub struct Objects<'a, R: Object<'a>> {
    reader: R,
    rest: Rest<'a>,
    slot: R::Slot,
}

impl<'a, R: Object<'a>> Objects<'a, R> {
    /// The objects of the blocks that the walk has left. Until the first call of `advance`, the
    /// object that is shown is what the slot holds.
    pub fn new(reader: R, walk: Walk<'a>, slot: R::Slot) -> Objects<'a, R>
        requires right { R.right reader }
        requires fits { R.fits reader slot }
        requires few { length walk.left < 2 ^ 63 }
        ensures ready { IsReady R.right R.fits result.reader result.rest result.slot }
        ensures left { left_of (R.at result.reader) R.rest result.rest
            ≡ blocks_from (R.at reader) R.rest 1 walk.entry.left }
        ensures slot { result.slot ≡ slot }
        ensures reader { result.reader ≡ reader }
        ensures whole { result.rest.walk.whole ≡ walk.entry.whole }
    {
        Objects {
            reader,
            rest: Rest {
                walk,
                number: 0,
                block: &[],
                place: 0,
                left: 0,
            },
            slot,
        }
    }

    /// Shows the next object, and returns whether there was one. A refusal stays: the next call
    /// returns it again.
    pub fn advance(&mut self) -> Result<bool, R::Refusal>
        requires ready { IsReady R.right R.fits self.old.reader self.old.rest self.old.slot }
        ensures ready { IsReady R.right R.fits self.new.reader self.new.rest self.new.slot }
        ensures step { IsStep (left_of (R.at self.old.reader) R.rest self.old.rest) result
            (R.held self.new.slot) (left_of (R.at self.old.reader) R.rest self.new.rest) }
        ensures end { IfEnd result (self.new.slot ≡ self.old.slot) }
        ensures reader { self.new.reader ≡ self.old.reader }
        ensures whole { self.new.rest.walk.whole ≡ self.old.rest.walk.whole }
    {
        if !go_on(&self.reader, &mut self.rest)? {
            return Ok(false);
        }
        let after = self
            .reader
            .take(self.rest.block, self.rest.place, &mut self.slot)?;
        self.rest.place = after;
        self.rest.left -= 1;
        Ok(true)
    }

    /// Shows the next object, and returns whether there was one, if all that are left were checked.
    pub fn advance_known(&mut self) -> bool
        requires ready { IsReady R.right R.fits self.old.reader self.old.rest self.old.slot }
        requires known { (left_of (R.at self.old.reader) R.rest self.old.rest).fault ≡ None }
        ensures ready { IsReady R.right R.fits self.new.reader self.new.rest self.new.slot }
        ensures known { (left_of (R.at self.new.reader) R.rest self.new.rest).fault ≡ None }
        ensures shown { OnTrue result
            ((left_of (R.at self.old.reader) R.rest self.old.rest).objects
            ≡ R.held self.new.slot
            ∷ (left_of (R.at self.new.reader) R.rest self.new.rest).objects) }
        ensures end { OnFalse result
            (((left_of (R.at self.old.reader) R.rest self.old.rest).objects ≡ [])
            × ((left_of (R.at self.new.reader) R.rest self.new.rest).objects ≡ [])) }
        ensures slot { OnFalse result (self.new.slot ≡ self.old.slot) }
        ensures reader { self.new.reader ≡ self.old.reader }
        ensures whole { self.new.rest.walk.whole ≡ self.old.rest.walk.whole }
    {
        if !go_on_known(&self.reader, &mut self.rest) {
            return false;
        }
        let after = self
            .reader
            .take_known(self.rest.block, self.rest.place, &mut self.slot);
        self.rest.place = after;
        self.rest.left -= 1;
        true
    }

    /// Checks all objects that are left, and builds none of them. A refusal stays: the next call
    /// returns it again.
    pub fn check(&mut self) -> Result<(), R::Refusal>
        requires ready { IsReady R.right R.fits self.old.reader self.old.rest self.old.slot }
        ensures ready { IsReady R.right R.fits self.new.reader self.new.rest self.new.slot }
        ensures exact { Gives never (λ done. done) result
            (outcome (all (left_of (R.at self.old.reader) R.rest self.old.rest))) }
        ensures left { OnOk result (left_of (R.at self.old.reader) R.rest self.new.rest ≡ ended) }
        ensures stays { IfErr result (λ e.
            left_of (R.at self.old.reader) R.rest self.new.rest ≡ refused e) }
        ensures slot { self.new.slot ≡ self.old.slot }
        ensures reader { self.new.reader ≡ self.old.reader }
        ensures whole { self.new.rest.walk.whole ≡ self.old.rest.walk.whole }
    {
        while pass_next(&self.reader, &mut self.rest)? {}
        Ok(())
    }

    /// Goes back to the first block.
    pub fn restart(&mut self)
        requires ready { IsReady R.right R.fits self.old.reader self.old.rest self.old.slot }
        requires few { length self.old.rest.walk.whole.blocks < 2 ^ 63 }
        ensures ready { IsReady R.right R.fits self.new.reader self.new.rest self.new.slot }
        ensures left { left_of (R.at self.old.reader) R.rest self.new.rest
            ≡ blocks_from (R.at self.old.reader) R.rest 1 self.old.rest.walk.whole.blocks }
        ensures slot { self.new.slot ≡ self.old.slot }
        ensures reader { self.new.reader ≡ self.old.reader }
        ensures whole { self.new.rest.walk.whole ≡ self.old.rest.walk.whole }
    {
        self.rest.walk.restart();
        self.rest.number = 0;
        self.rest.block = &[];
        self.rest.place = 0;
        self.rest.left = 0;
    }

    /// The object that is shown.
    pub fn slot(&self) -> &R::Slot
        ensures { result.now ≡ self.now.slot }
    {
        &self.slot
    }

    /// The reader.
    pub fn reader(&self) -> &R
        ensures { result.now ≡ self.now.reader }
    {
        &self.reader
    }
}

/// Begins the next block that has an object, if the one that was begun has none left. Returns
/// whether an object is left.
fn go_on<'a, R: Object<'a>>(reader: &R, rest: &mut Rest<'a>) -> Result<bool, R::Refusal>
    requires within { IsWithin rest.old }
    ensures within { IsWithin rest.new }
    ensures same { left_of (R.at reader.now) R.rest rest.new
        ≡ left_of (R.at reader.now) R.rest rest.old }
    ensures begun { IsBegun rest.new.left result (left_of (R.at reader.now) R.rest rest.new) }
    ensures whole { rest.new.walk.whole ≡ rest.old.walk.whole }
{
    while rest.left == 0 {
        if rest.place != rest.block.len() {
            return Err(reader.rest_in(rest.number));
        }
        let Some((count, bytes)) = rest.walk.next() else {
            return Ok(false);
        };
        rest.number += 1;
        rest.block = bytes;
        rest.place = 0;
        rest.left = told(count);
    }
    Ok(true)
}

/// How many objects a block's count says that it has. A negative count says that it has none.
pub fn told(count: i64) -> u64
    ensures value { result ≡ objects_told count }
    ensures fits { result < 2 ^ 63 }
{
    if count < 0 {
        return 0;
    }
    count as u64
}

/// The same as `go_on`, if all objects that are left were checked.
fn go_on_known<'a, R: Object<'a>>(reader: &R, rest: &mut Rest<'a>) -> bool
    requires within { IsWithin rest.old }
    requires known { (left_of (R.at reader.now) R.rest rest.old).fault ≡ None }
    ensures within { IsWithin rest.new }
    ensures same { left_of (R.at reader.now) R.rest rest.new
        ≡ left_of (R.at reader.now) R.rest rest.old }
    ensures some { OnTrue result (0 < rest.new.left) }
    ensures none { OnFalse result (left_of (R.at reader.now) R.rest rest.new ≡ ended) }
    ensures whole { rest.new.walk.whole ≡ rest.old.walk.whole }
{
    match go_on(reader, rest) {
        Ok(more) => more,
        Err(_) => false,
    }
}

/// Checks the next object, and returns whether there was one.
fn pass_next<'a, R: Object<'a>>(reader: &R, rest: &mut Rest<'a>) -> Result<bool, R::Refusal>
    requires right { R.right reader.now }
    requires within { IsWithin rest.old }
    ensures within { IsWithin rest.new }
    ensures step { IsPass (left_of (R.at reader.now) R.rest rest.old) result
        (left_of (R.at reader.now) R.rest rest.new) }
    ensures whole { rest.new.walk.whole ≡ rest.old.walk.whole }
{
    if !go_on(reader, rest)? {
        return Ok(false);
    }
    let after = reader.pass(rest.block, rest.place)?;
    rest.place = after;
    rest.left -= 1;
    Ok(true)
}
