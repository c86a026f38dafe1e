// An item is found by its key.
ghost use Rattle.std.specs.Prelude.{◌≡◌, ◌<◌, ◌≤◌, ◌+◌, ◌*◌, ◌^◌, ◌↔◌, ℕ, List, length, IsTrue, IfSome, IfNone};
ghost use Rattle.uw_base.specs.Numbers.{djb33x_of};
ghost use Rattle.uw_words.specs.Shapes.{IsShape, shape_words};
ghost use Rattle.uw_words.specs.Numbers.{IsOneOf};
ghost use Rattle.uw_words.specs.Parts.{seen};
ghost use Rattle.uw_words.specs.Walks.{link_of};
ghost use Rattle.uw_words.specs.Records.{HoldsKey};
ghost use Rattle.uw_words.specs.Texts.{HoldsText};
ghost use Rattle.uw_chains.specs.Chains.{IsChains, HasChains, key_chain};
ghost use Rattle.uw_chains.specs.ChainSteps.{IsKeyLink};

use crate::chains::chain_place;
use uw_base::djb33x;
use uw_words::{ITEM_HEAD, Overlay, Ram, Shape, first_word};

// Whether the words from a place on are those of a text.
fn has_words(ram: &Ram, over: &Overlay, at: u64, text: &[u8]) -> bool
    requires within { 8 * at + length text.now ≤ 8 * length ram.now }
    requires small { length ram.now < 2 ^ 63 }
    ensures { IsTrue result ↔ HoldsText (seen over.now ram.now) at text.now }
{
    for k in 0..text.len().div_ceil(8) {
        if over.load(ram, at + k as u64) != first_word(&text[8 * k..]) {
            return false;
        }
    }
    true
}

// Whether the item of a link holds a key of this hash.
fn holds_key(ram: &Ram, over: &Overlay, shape: &Shape, link: u64, key: &[u8], hash: u64) -> bool
    requires shape { IsShape shape.now }
    requires region { length ram.now ≡ shape_words shape.now }
    requires link { IsKeyLink (seen over.now ram.now) shape.now link }
    requires hash { hash ≡ djb33x_of key.now }
    ensures { (item : ℕ) → link ≡ link_of shape.now item
        → IsTrue result ↔ HoldsKey (seen over.now ram.now) shape.now item key.now }
{
    if over.load(ram, link + 7) != hash {
        return false;
    }
    if over.load(ram, link + 6) != key.len() as u64 {
        return false;
    }
    has_words(ram, over, link + ITEM_HEAD, key)
}

/// The item that holds a key, none where no item of the key's chain does.
pub fn find(ram: &Ram, over: &Overlay, shape: &Shape, key: &[u8]) -> Option<u64>
    requires shape { IsShape shape.now }
    requires region { length ram.now ≡ shape_words shape.now }
    requires chains { HasChains (seen over.now ram.now) shape.now }
    ensures found { (chains : ℕ → List ℕ) → IsChains (seen over.now ram.now) shape.now chains
        → IfSome result (λ item. IsOneOf (chains (key_chain shape.now key.now)) item
        × HoldsKey (seen over.now ram.now) shape.now item key.now) }
    ensures none { (chains : ℕ → List ℕ) → IsChains (seen over.now ram.now) shape.now chains
        → IfNone result ((item : ℕ) → IsOneOf (chains (key_chain shape.now key.now)) item
        → ¬ HoldsKey (seen over.now ram.now) shape.now item key.now) }
    ensures within { IfSome result (λ item. item < shape.now.n_items) }
{
    let hash = djb33x(key);
    let mut link = over.load(ram, chain_place(shape, hash));
    for _ in 0..shape.n_items {
        if link == 0 {
            return None;
        }
        if holds_key(ram, over, shape, link, key, hash) {
            return shape.item_of(link);
        }
        link = over.load(ram, link);
    }
    None
}
