//! Laws of planned words, of texts as words, and of walks along links. Each is the contract of a function that does
//! nothing.
ghost use Rattle.std.specs.Prelude.{◌≡◌, ◌≢◌, ◌+◌, ◌*◌, ◌<◌, ◌≤◌, ◌↔◌, ℕ, List, ◌++◌, true, length};
ghost use Rattle.std.specs.List.{All};
ghost use Rattle.uw_words.specs.declared.shape.Shape.{Shape};
ghost use Rattle.uw_words.specs.Plans.{Plan, through, with_put};
ghost use Rattle.uw_words.specs.Shapes.{IsShape};
ghost use Rattle.uw_words.specs.Numbers.{IsOneOf, IsNoneOf, places_from};
ghost use Rattle.uw_words.specs.Parts.{seen, DependsOn, with_places, HasRoom, GrewAt};
ghost use Rattle.uw_words.specs.Texts.{text_word, places_of_text, HoldsText, text_at};
ghost use Rattle.uw_words.specs.Walks.{link_of, IsWalk, counted_walk, is_whole_walk};

/// A word that is put is read at its place.
pub fn put_word_is_read()
    ensures { (writes : List (ℕ × ℕ)) (reader : ℕ → ℕ) (at word : ℕ) → through (with_put writes at word) reader at ≡ word }
{}

/// At other places the same is read as before.
pub fn other_places_are_read_as_before()
    ensures { (writes : List (ℕ × ℕ)) (reader : ℕ → ℕ) (at word place : ℕ) → at ≢ place
        → through (with_put writes at word) reader place ≡ through writes reader place }
{}

/// Where an overlay grew by some places and then by others, it grew by both.
pub fn growth_adds_up()
    ensures { (early late : List ℕ) (before mid now : Plan) → GrewAt early before mid → GrewAt late mid now
        → GrewAt (early ++ late) before now }
{}

/// Where an overlay grew by some places, the same is read at all others.
pub fn growth_leaves_other_places()
    ensures { (places : List ℕ) (before now : Plan) (words : List ℕ) (at : ℕ) → GrewAt places before now
        → IsNoneOf places at → seen now words at ≡ seen before words at }
{}

/// So many places more need room for as many at most.
pub fn places_need_room_for_each_at_most()
    ensures { (named places : List ℕ) → length (with_places named places) ≤ length named + length places }
{}

/// As many spare words as places are room for them.
pub fn spare_words_are_room()
    ensures { (plan : Plan) (places : List ℕ) → length plan.writes + length places ≤ plan.room → HasRoom plan places }
{}

/// Where there is room for some places and then for others, there is still room for these once it grew by the first.
pub fn growth_leaves_the_other_room()
    ensures { (early late : List ℕ) (before now : Plan) → HasRoom before (early ++ late) → GrewAt early before now
        → HasRoom now late }
{}

/// Places in a row are those from the first one on, as many as there are.
pub fn places_in_a_row()
    ensures { (first count at : ℕ) → IsOneOf (places_from first count) at ↔ ((first ≤ at) × (at < first + count)) }
{}

/// The text that words hold is of bytes.
pub fn the_text_that_words_hold_is_of_bytes()
    ensures { (reader : ℕ → ℕ) (at bytes : ℕ) → All (λ byte. byte < 256) (text_at reader at bytes) }
{}

/// Texts of bytes are told apart by their words: those of one length and with the same words are one text.
pub fn texts_are_told_apart_by_their_words()
    ensures { (text other : List ℕ) → All (λ byte. byte < 256) text → All (λ byte. byte < 256) other
        → length text ≡ length other
        → ((k : ℕ) → 8 * k < length text → text_word text k ≡ text_word other k) → text ≡ other }
{}

/// A text of bytes whose words are held is the one that is read.
pub fn a_held_text_is_read()
    ensures { (reader : ℕ → ℕ) (at : ℕ) (text : List ℕ) → All (λ byte. byte < 256) text → HoldsText reader at text
        → text_at reader at (length text) ≡ text }
{}

/// Whether words hold a text depends on the places of that text alone.
pub fn a_text_depends_on_its_places()
    ensures { (at : ℕ) (text : List ℕ)
        → DependsOn (λ reader. HoldsText reader at text) (IsOneOf (places_of_text at (length text))) }
{}

/// Whether a list is a walk depends on the links of its items along the field alone.
pub fn walk_depends_on_its_links()
    ensures { (shape : Shape) (link field : ℕ) (items : List ℕ)
        → DependsOn (λ reader. IsWalk reader shape link field items)
        (λ at. (item : ℕ) × (IsOneOf items item × (at ≡ link_of shape item + field))) }
{}

/// Where a list is a walk, a counted walk of as many items or more gives just that list, and it is whole.
pub fn counted_walk_gives_the_walk()
    ensures { (shape : Shape) (reader : ℕ → ℕ) (link field count : ℕ) (items : List ℕ) → IsShape shape
        → IsWalk reader shape link field items → length items ≤ count
        → (counted_walk reader shape link field count ≡ items) × (is_whole_walk reader link field count ≡ true) }
{}
