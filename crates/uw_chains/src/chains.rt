// Items join their chains and leave them.
ghost use Rattle.std.specs.Prelude.{◌≡◌, ◌<◌, ◌%◌, ◌∷◌, ℕ, List, [], length};
ghost use Rattle.uw_words.specs.Shapes.{IsShape, shape_words};
ghost use Rattle.uw_words.specs.Numbers.{IsOneOf, IsNoneOf, without_number};
ghost use Rattle.uw_words.specs.Parts.{seen, HasRoom, GrewAt};
ghost use Rattle.uw_words.specs.Records.{HoldsSomeKey};
ghost use Rattle.uw_chains.specs.Chains.{IsChains, IsChained, IsUnchained, chain_place, item_chain, with_chain, link_places, place_before, unlink_places};

use uw_words::{Overlay, Ram, Shape};

// The place of the link to the first item of the chain of a hash.
pub(crate) fn chain_place(shape: &Shape, hash: u64) -> u64
    requires { IsShape shape.now }
    ensures place { result ≡ chain_place shape.now (hash % shape.now.n_chains) }
    ensures within { result < shape.now.items }
{
    shape.chains + hash % shape.n_chains
}

/// Plans an item, which holds a key and is on no chain, as the first one of its key's chain.
pub fn link(ram: &Ram, over: &mut Overlay, shape: &Shape, item: u64)
    requires shape { IsShape shape.now }
    requires region { length ram.now ≡ shape_words shape.now }
    requires item { item < shape.now.n_items }
    requires key { HoldsSomeKey (seen over.old ram.now) shape.now item }
    requires unchained { IsUnchained (seen over.old ram.now) shape.now item }
    requires room { HasRoom over.old (link_places (seen over.old ram.now) shape.now item) }
    ensures chains { (chains : ℕ → List ℕ) → IsChains (seen over.old ram.now) shape.now chains
        → (let chain = item_chain (seen over.old ram.now) shape.now item in
        IsNoneOf (chains chain) item
        → IsChains (seen over.new ram.now) shape.now (with_chain chains chain (item ∷ chains chain))) }
    ensures grew { GrewAt (link_places (seen over.old ram.now) shape.now item) over.old over.new }
{
    let link = shape.link_of(item);
    let head = chain_place(shape, over.load(ram, link + 7));
    let first = over.load(ram, head);
    over.put(link, first);
    over.put(head, link);
}

// The place of the link to an item on its chain.
fn place_to(ram: &Ram, over: &Overlay, shape: &Shape, item: u64) -> u64
    requires shape { IsShape shape.now }
    requires region { length ram.now ≡ shape_words shape.now }
    requires item { item < shape.now.n_items }
    requires chained { IsChained (seen over.now ram.now) shape.now item }
    ensures { (chains : ℕ → List ℕ) → IsChains (seen over.now ram.now) shape.now chains
        → unlink_places (seen over.now ram.now) shape.now chains item ≡ result ∷ [] }
{
    let link = shape.link_of(item);
    let mut at = chain_place(shape, over.load(ram, link + 7));
    for _ in 0..shape.n_items {
        let next = over.load(ram, at);
        if next == link {
            return at;
        }
        at = next;
    }
    at
}

/// Plans a chain without one of its items.
pub fn unlink(ram: &Ram, over: &mut Overlay, shape: &Shape, item: u64)
    requires shape { IsShape shape.now }
    requires region { length ram.now ≡ shape_words shape.now }
    requires item { item < shape.now.n_items }
    requires chained { IsChained (seen over.old ram.now) shape.now item }
    requires room { (chains : ℕ → List ℕ) → IsChains (seen over.old ram.now) shape.now chains
        → HasRoom over.old (unlink_places (seen over.old ram.now) shape.now chains item) }
    ensures chains { (chains : ℕ → List ℕ) → IsChains (seen over.old ram.now) shape.now chains
        → (let chain = item_chain (seen over.old ram.now) shape.now item in
        IsOneOf (chains chain) item
        → IsChains (seen over.new ram.now) shape.now (with_chain chains chain (without_number (chains chain) item))) }
    ensures grew { (chains : ℕ → List ℕ) → IsChains (seen over.old ram.now) shape.now chains
        → GrewAt (unlink_places (seen over.old ram.now) shape.now chains item) over.old over.new }
{
    let link = shape.link_of(item);
    let next = over.load(ram, link);
    let at = place_to(ram, over, shape, item);
    over.put(at, next);
}
