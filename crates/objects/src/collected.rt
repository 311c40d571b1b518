//! All objects of a container, in memory of their own.

ghost use Rattle.std.specs.Prelude.{◌≡◌, ◌<◌, ◌^◌, List, length, Ok, IfOk, OnOk};
ghost use Rattle.words.specs.Reading.{Gives};
ghost use Rattle.objects.specs.Stream.{ended, all};
ghost use Rattle.objects.specs.Blocks.{objects_of};
ghost use Rattle.objects.specs.Left.{left_of, IsReady};
ghost use Rattle.objects.specs.Held.{Hold};

use crate::blocks::Objects;
use crate::object::Owning;
use avro_container::Walk;
use lists::List as OwnList;
use std::alloc::Global;

/// All objects of the blocks that the walk has left, or the first refusal.
pub fn read_all<'a, R: Owning<'a>>(
    alloc: Global,
    reader: R,
    walk: Walk<'a>,
    slot: R::Slot,
) -> Result<OwnList<R::Value>, R::Refusal>
    requires right { R.right reader }
    requires fits { R.fits reader slot }
    requires few { length walk.left < 2 ^ 63 }
    // The objects are those that the blocks hold, and what they hold is read.
    ensures found { IfOk result (Hold (R.Spells reader) walk.entry.left) }
    ensures only { (values : List R.Value) → Hold (R.Spells reader) walk.entry.left values
        → Gives R.is_memory (λ values. values) result (Ok values) }
    // Which refusal comes.
    ensures exact { Gives R.is_memory (λ values. values) result
        (objects_of (R.at reader) R.rest walk.entry.left) }
{
    reader.agrees();
    read_left(alloc, reader, walk, slot)
}

/// What `read_all` answers.
fn read_left<'a, R: Owning<'a>>(
    alloc: Global,
    reader: R,
    walk: Walk<'a>,
    slot: R::Slot,
) -> Result<OwnList<R::Value>, R::Refusal>
    requires right { R.right reader }
    requires fits { R.fits reader slot }
    requires few { length walk.left < 2 ^ 63 }
    ensures exact { Gives R.is_memory (λ values. values) result
        (objects_of (R.at reader) R.rest walk.entry.left) }
{
    let mut objects = Objects::new(reader, walk, slot);
    collect(alloc, &mut objects)
}

/// All objects that are left, or the first refusal.
pub fn collect<'a, R: Owning<'a>>(
    alloc: Global,
    objects: &mut Objects<'a, R>,
) -> Result<OwnList<R::Value>, R::Refusal>
    requires ready { IsReady R.right R.fits objects.old.reader objects.old.rest objects.old.slot }
    ensures ready { IsReady R.right R.fits objects.new.reader objects.new.rest objects.new.slot }
    ensures exact { Gives R.is_memory (λ values. values) result
        (all (left_of (R.at objects.old.reader) R.rest objects.old.rest)) }
    ensures left { OnOk result (left_of (R.at objects.old.reader) R.rest objects.new.rest ≡ ended) }
    ensures reader { objects.new.reader ≡ objects.old.reader }
    ensures whole { objects.new.rest.walk.whole ≡ objects.old.rest.walk.whole }
{
    let mut list = OwnList::new(alloc);
    while objects.advance()? {
        let Ok(value) = objects.reader().own(alloc, objects.slot()) else {
            return Err(objects.reader().no_memory());
        };
        let Ok(()) = list.push(value) else {
            return Err(objects.reader().no_memory());
        };
    }
    Ok(list)
}
