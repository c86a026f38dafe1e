// The list of free items, which are taken and given at its front.
ghost use Rattle.std.specs.Prelude.{◌≡◌, ◌<◌, ◌+◌, ◌∷◌, ℕ, List, length, drop, slice_get};
ghost use Rattle.uw_words.specs.Shapes.{IsShape, shape_words};
ghost use Rattle.uw_words.specs.Numbers.{IsNoneOf};
ghost use Rattle.uw_words.specs.Parts.{seen, HasRoom, GrewAt};
ghost use Rattle.uw_items.specs.FreeList.{IsFreeList, HasFreeList, take_places, give_places};

use uw_words::{Overlay, Ram, Shape};

/// Plans the first free item as free no more and gives it, none where no item is free.
pub fn take_free(ram: &Ram, over: &mut Overlay, shape: &Shape) -> Option<u64>
    requires shape { IsShape shape.now }
    requires region { length ram.now ≡ shape_words shape.now }
    requires list { HasFreeList (seen over.old ram.now) shape.now }
    requires room { HasRoom over.old (take_places (seen over.old ram.now) shape.now) }
    ensures item { (items : List ℕ) → IsFreeList (seen over.old ram.now) shape.now items → result ≡ slice_get items 0 }
    ensures list { (items : List ℕ) → IsFreeList (seen over.old ram.now) shape.now items
        → IsFreeList (seen over.new ram.now) shape.now (drop 1 items) }
    ensures grew { GrewAt (take_places (seen over.old ram.now) shape.now) over.old over.new }
{
    let item = shape.item_of(over.load(ram, shape.head + 8))?;
    let next = over.load(ram, shape.link_of(item) + 2);
    over.put(shape.head + 8, next);
    Some(item)
}

/// Plans an item that is not free as the first free one.
pub fn give_free(ram: &Ram, over: &mut Overlay, shape: &Shape, item: u64)
    requires shape { IsShape shape.now }
    requires region { length ram.now ≡ shape_words shape.now }
    requires item { item < shape.now.n_items }
    requires room { HasRoom over.old (give_places shape.now item) }
    ensures list { (items : List ℕ) → IsFreeList (seen over.old ram.now) shape.now items → IsNoneOf items item
        → IsFreeList (seen over.new ram.now) shape.now (item ∷ items) }
    ensures grew { GrewAt (give_places shape.now item) over.old over.new }
{
    let link = shape.link_of(item);
    let first = over.load(ram, shape.head + 8);
    over.put(link + 2, first);
    over.put(shape.head + 8, link);
}
