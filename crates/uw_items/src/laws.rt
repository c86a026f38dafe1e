//! Laws of what items hold and of the free ones. Each is the contract of a function that does nothing.
ghost use Rattle.std.specs.Prelude.{◌≡◌, ◌<◌, ◌≤◌, ◌+◌, ◌*◌, ◌∷◌, ℕ, List, true, length};
ghost use Rattle.std.specs.List.{All};
ghost use Rattle.uw_words.specs.declared.shape.Shape.{Shape};
ghost use Rattle.uw_words.specs.Shapes.{IsShape};
ghost use Rattle.uw_words.specs.Numbers.{IsOneOf, IsNoneOf};
ghost use Rattle.uw_words.specs.Parts.{DependsOn};
ghost use Rattle.uw_words.specs.Walks.{counted_walk, is_whole_walk};
ghost use Rattle.uw_words.specs.Texts.{text_words};
ghost use Rattle.uw_words.specs.Records.{HoldsKey};
ghost use Rattle.uw_items.specs.declared.records.Fields.{Fields};
ghost use Rattle.uw_items.specs.Items.{block_place, LieInBlocks, held_key, key_places, HoldsValue, held_value, value_places, HoldsFields, field_places, IsRecordPlace};
ghost use Rattle.uw_items.specs.FreeList.{IsFreeList, take_places, give_places, IsFreePlace};

/// A key that an item holds is the one that is read.
pub fn a_held_key_is_read()
    ensures { (shape : Shape) (reader : ℕ → ℕ) (item : ℕ) (key : List ℕ) → All (λ byte. byte < 256) key
        → HoldsKey reader shape item key → held_key reader shape item ≡ key }
{}

/// A value that stands in the blocks which an item's fields name is the one that is read.
pub fn a_held_value_is_read()
    ensures { (shape : Shape) (reader : ℕ → ℕ) (item : ℕ) (fields : Fields) (value : List ℕ)
        → All (λ byte. byte < 256) value → HoldsFields reader shape item fields → fields.length ≡ length value
        → HoldsValue reader shape fields.first value → held_value reader shape item ≡ value }
{}

/// An item holds one list of fields at most.
pub fn held_fields_are_one()
    ensures { (shape : Shape) (reader : ℕ → ℕ) (item : ℕ) (fields others : Fields) → HoldsFields reader shape item fields
        → HoldsFields reader shape item others → fields ≡ others }
{}

/// Whether an item holds a key depends on the places of that key alone.
pub fn a_key_depends_on_its_places()
    ensures { (shape : Shape) (item : ℕ) (key : List ℕ)
        → DependsOn (λ reader. HoldsKey reader shape item key) (IsOneOf (key_places shape item (length key))) }
{}

/// Whether blocks hold a value depends on the places of that value alone.
pub fn a_value_depends_on_its_places()
    ensures { (shape : Shape) (first : ℕ) (value : List ℕ)
        → DependsOn (λ reader. HoldsValue reader shape first value) (IsOneOf (value_places shape first (length value))) }
{}

/// Whether an item holds fields depends on their places alone.
pub fn fields_depend_on_their_places()
    ensures { (shape : Shape) (item : ℕ) (fields : Fields)
        → DependsOn (λ reader. HoldsFields reader shape item fields) (IsOneOf (field_places shape item)) }
{}

/// A key that has room in an item is written to that item's words.
pub fn key_places_are_of_the_item()
    ensures { (shape : Shape) (item bytes at : ℕ) → IsShape shape → bytes ≤ 8 * shape.key_words
        → IsOneOf (key_places shape item bytes) at → IsRecordPlace shape item at }
{}

/// Fields are written to their item's words.
pub fn field_places_are_of_the_item()
    ensures { (shape : Shape) (item at : ℕ) → IsShape shape → IsOneOf (field_places shape item) at
        → IsRecordPlace shape item at }
{}

/// Fields are written to no place of their item's key.
pub fn field_places_are_apart_from_the_key()
    ensures { (shape : Shape) (item bytes at : ℕ) → IsOneOf (field_places shape item) at
        → IsNoneOf (key_places shape item bytes) at }
{}

/// A key is written to two words and those of its bytes.
pub fn key_places_are_few()
    ensures { (shape : Shape) (item bytes : ℕ) → length (key_places shape item bytes) ≡ 2 + text_words bytes }
{}

/// A value is written to the words of its bytes.
pub fn value_places_are_few()
    ensures { (shape : Shape) (first bytes : ℕ) → length (value_places shape first bytes) ≡ text_words bytes }
{}

/// The words of items stand behind the chains and before the blocks.
pub fn item_words_are_within()
    ensures { (shape : Shape) (item at : ℕ) → IsShape shape → item < shape.n_items → IsRecordPlace shape item at
        → (shape.items ≤ at) × (at < shape.blocks) }
{}

/// What items hold stands at no place of the free list.
pub fn item_words_are_apart_from_the_free_list()
    ensures { (shape : Shape) (items : List ℕ) (item at : ℕ) → IsShape shape → IsRecordPlace shape item at
        → ¬ IsFreePlace shape items at }
{}

/// No word is one of two items.
pub fn items_have_their_own_words()
    ensures { (shape : Shape) (item other at : ℕ) → IsRecordPlace shape item at → IsRecordPlace shape other at
        → item ≡ other }
{}

/// A value that has room in a run of blocks is written to those blocks.
pub fn value_places_are_of_the_blocks()
    ensures { (shape : Shape) (first blocks bytes at : ℕ) → bytes ≤ 8 * (blocks * shape.block_words)
        → IsOneOf (value_places shape first bytes) at
        → (block_place shape first ≤ at) × (at < block_place shape (first + blocks)) }
{}

/// A value that lies in the blocks is written to words of the blocks.
pub fn value_places_are_within()
    ensures { (shape : Shape) (first bytes at : ℕ) → IsShape shape → LieInBlocks shape first bytes
        → IsOneOf (value_places shape first bytes) at → (shape.blocks ≤ at) × (at < shape.intent) }
{}

/// Whether items are the free ones depends on the places of the free list alone.
pub fn free_list_depends_on_its_places()
    ensures { (shape : Shape) (items : List ℕ) → DependsOn (λ reader. IsFreeList reader shape items) (IsFreePlace shape items) }
{}

/// The words hold one free list at most.
pub fn free_list_is_one_list()
    ensures { (shape : Shape) (reader : ℕ → ℕ) (items others : List ℕ) → IsShape shape → IsFreeList reader shape items
        → IsFreeList reader shape others → items ≡ others }
{}

/// A counted walk of as many items as there are gives the free list, and it is whole.
pub fn counted_walk_gives_the_free_list()
    ensures { (shape : Shape) (reader : ℕ → ℕ) (items : List ℕ) → IsShape shape → IsFreeList reader shape items
        → (let first = reader (shape.head + 8) in
        (counted_walk reader shape first 2 shape.n_items ≡ items) × (is_whole_walk reader first 2 shape.n_items ≡ true)) }
{}

/// A free item is taken by a write to a place of the free list.
pub fn take_places_are_of_the_free_list()
    ensures { (shape : Shape) (reader : ℕ → ℕ) (items : List ℕ) (at : ℕ) → IsOneOf (take_places reader shape) at
        → IsFreePlace shape items at }
{}

/// A free item is taken by one write at most.
pub fn take_places_are_few()
    ensures { (shape : Shape) (reader : ℕ → ℕ) → length (take_places reader shape) ≤ 1 }
{}

/// An item that is given is written to places of the free list with it.
pub fn give_places_are_of_the_free_list()
    ensures { (shape : Shape) (items : List ℕ) (item at : ℕ) → IsOneOf (give_places shape item) at
        → IsFreePlace shape (item ∷ items) at }
{}
