// The list of items by which the least recent one is found.
ghost use Rattle.std.specs.Prelude.{◌≡◌, ◌<◌, ◌+◌, ◌∷◌, ℕ, List, length, slice_get};
ghost use Rattle.uw_words.specs.Shapes.{IsShape, shape_words};
ghost use Rattle.uw_words.specs.Numbers.{IsOneOf, IsNoneOf, without_number};
ghost use Rattle.uw_words.specs.Parts.{seen, HasRoom, GrewAt};
ghost use Rattle.uw_words.specs.Walks.{IsLink};
ghost use Rattle.uw_recency.specs.Recency.{IsRecency, HasRecency, IsRecent, IsUnlisted, last_of, next_of, forward_place, backward_place, front_places, out_places, to_front_places};

use uw_words::{Overlay, Ram, Shape};

// The place of the link to what comes after an item, or to the first item.
fn forward_place(shape: &Shape, link: u64) -> u64
    requires shape { IsShape shape.now }
    requires link { IsLink shape.now link }
    ensures { result ≡ forward_place shape.now link }
{
    if link == 0 { shape.head + 6 } else { link + 2 }
}

// The place of the link to what comes before an item, or to the last item.
fn backward_place(shape: &Shape, link: u64) -> u64
    requires shape { IsShape shape.now }
    requires link { IsLink shape.now link }
    ensures { result ≡ backward_place shape.now link }
{
    if link == 0 { shape.head + 7 } else { link + 1 }
}

/// Plans an item that is not on the list as its most recent one.
pub fn push_front(ram: &Ram, over: &mut Overlay, shape: &Shape, item: u64)
    requires shape { IsShape shape.now }
    requires region { length ram.now ≡ shape_words shape.now }
    requires item { item < shape.now.n_items }
    requires unlisted { IsUnlisted (seen over.old ram.now) shape.now item }
    requires room { HasRoom over.old (front_places shape.now (seen over.old ram.now (shape.now.head + 6)) item) }
    ensures list { (items : List ℕ) → IsRecency (seen over.old ram.now) shape.now items → IsNoneOf items item
        → IsRecency (seen over.new ram.now) shape.now (item ∷ items) }
    ensures grew { GrewAt (front_places shape.now (seen over.old ram.now (shape.now.head + 6)) item) over.old over.new }
{
    let link = shape.link_of(item);
    let first = over.load(ram, shape.head + 6);
    let back = backward_place(shape, first);
    over.put(link + 1, 0);
    over.put(link + 2, first);
    over.put(back, link);
    over.put(shape.head + 6, link);
}

/// Plans the list without one of its items.
pub fn take_out(ram: &Ram, over: &mut Overlay, shape: &Shape, item: u64)
    requires shape { IsShape shape.now }
    requires region { length ram.now ≡ shape_words shape.now }
    requires item { item < shape.now.n_items }
    requires listed { IsRecent (seen over.old ram.now) shape.now item }
    requires room { HasRoom over.old (out_places (seen over.old ram.now) shape.now item) }
    ensures list { (items : List ℕ) → IsRecency (seen over.old ram.now) shape.now items → IsOneOf items item
        → IsRecency (seen over.new ram.now) shape.now (without_number items item) }
    ensures grew { GrewAt (out_places (seen over.old ram.now) shape.now item) over.old over.new }
{
    let link = shape.link_of(item);
    let newer = over.load(ram, link + 1);
    let older = over.load(ram, link + 2);
    let forward = forward_place(shape, newer);
    let backward = backward_place(shape, older);
    over.put(forward, older);
    over.put(backward, newer);
}

/// Plans one of the list's items as its most recent one.
pub fn to_front(ram: &Ram, over: &mut Overlay, shape: &Shape, item: u64)
    requires shape { IsShape shape.now }
    requires region { length ram.now ≡ shape_words shape.now }
    requires item { item < shape.now.n_items }
    requires listed { IsRecent (seen over.old ram.now) shape.now item }
    requires room { (items : List ℕ) → IsRecency (seen over.old ram.now) shape.now items
        → HasRoom over.old (to_front_places (seen over.old ram.now) shape.now items item) }
    ensures list { (items : List ℕ) → IsRecency (seen over.old ram.now) shape.now items → IsOneOf items item
        → IsRecency (seen over.new ram.now) shape.now (item ∷ without_number items item) }
    ensures grew { (items : List ℕ) → IsRecency (seen over.old ram.now) shape.now items
        → GrewAt (to_front_places (seen over.old ram.now) shape.now items item) over.old over.new }
{
    take_out(ram, over, shape, item);
    push_front(ram, over, shape, item);
}

/// The least recent item, none where the list is empty.
pub fn last(ram: &Ram, over: &Overlay, shape: &Shape) -> Option<u64>
    requires shape { IsShape shape.now }
    requires region { length ram.now ≡ shape_words shape.now }
    requires list { HasRecency (seen over.now ram.now) shape.now }
    ensures { (items : List ℕ) → IsRecency (seen over.now ram.now) shape.now items → result ≡ last_of items }
{
    shape.item_of(over.load(ram, shape.head + 7))
}

/// The most recent item, none where the list is empty.
pub fn newest(ram: &Ram, over: &Overlay, shape: &Shape) -> Option<u64>
    requires shape { IsShape shape.now }
    requires region { length ram.now ≡ shape_words shape.now }
    requires list { HasRecency (seen over.now ram.now) shape.now }
    ensures { (items : List ℕ) → IsRecency (seen over.now ram.now) shape.now items → result ≡ slice_get items 0 }
{
    shape.item_of(over.load(ram, shape.head + 6))
}

/// The next less recent item, none where the item is the last one.
pub fn older(ram: &Ram, over: &Overlay, shape: &Shape, item: u64) -> Option<u64>
    requires shape { IsShape shape.now }
    requires region { length ram.now ≡ shape_words shape.now }
    requires item { item < shape.now.n_items }
    requires listed { IsRecent (seen over.now ram.now) shape.now item }
    ensures { (items : List ℕ) → IsRecency (seen over.now ram.now) shape.now items → IsOneOf items item
        → result ≡ next_of items item }
{
    let link = shape.link_of(item);
    shape.item_of(over.load(ram, link + 2))
}
