//! Laws of the recency list. Each is the contract of a function that does nothing.
ghost use Rattle.std.specs.Prelude.{◌≡◌, ◌≤◌, ◌+◌, ◌∷◌, ℕ, List, true, length};
ghost use Rattle.uw_words.specs.declared.shape.Shape.{Shape};
ghost use Rattle.uw_words.specs.Shapes.{IsShape};
ghost use Rattle.uw_words.specs.Numbers.{IsOneOf};
ghost use Rattle.uw_words.specs.Parts.{DependsOn};
ghost use Rattle.uw_words.specs.Walks.{counted_walk, is_whole_walk};
ghost use Rattle.uw_recency.specs.Recency.{IsRecency, IsRecencyPlace, front_places, out_places, to_front_places};

/// Whether items are the recency list depends on its own places alone.
pub fn recency_depends_on_its_places()
    ensures { (shape : Shape) (items : List ℕ) → DependsOn (λ reader. IsRecency reader shape items) (IsRecencyPlace shape items) }
{}

/// The words hold one recency list at most.
pub fn recency_is_one_list()
    ensures { (shape : Shape) (reader : ℕ → ℕ) (items others : List ℕ) → IsShape shape → IsRecency reader shape items
        → IsRecency reader shape others → items ≡ others }
{}

/// A counted walk of as many items as there are gives the recency list, and it is whole.
pub fn counted_walk_gives_the_recency_list()
    ensures { (shape : Shape) (reader : ℕ → ℕ) (items : List ℕ) → IsShape shape → IsRecency reader shape items
        → (let first = reader (shape.head + 6) in
        (counted_walk reader shape first 2 shape.n_items ≡ items) × (is_whole_walk reader first 2 shape.n_items ≡ true)) }
{}

/// An item that comes to the front is written to places of the list with it.
pub fn front_places_are_of_the_list()
    ensures { (shape : Shape) (reader : ℕ → ℕ) (items : List ℕ) (item at : ℕ) → IsShape shape → IsRecency reader shape items
        → IsOneOf (front_places shape (reader (shape.head + 6)) item) at → IsRecencyPlace shape (item ∷ items) at }
{}

/// An item that leaves the list is written to places of the list.
pub fn out_places_are_of_the_list()
    ensures { (shape : Shape) (reader : ℕ → ℕ) (items : List ℕ) (item at : ℕ) → IsShape shape → IsRecency reader shape items
        → IsOneOf items item → IsOneOf (out_places reader shape item) at → IsRecencyPlace shape items at }
{}

/// An item of the list that comes to the front is written to places of the list.
pub fn to_front_places_are_of_the_list()
    ensures { (shape : Shape) (reader : ℕ → ℕ) (items : List ℕ) (item at : ℕ) → IsShape shape
        → IsRecency reader shape items → IsOneOf items item
        → IsOneOf (to_front_places reader shape items item) at → IsRecencyPlace shape items at }
{}

/// An item of the list comes to the front by six writes at most.
pub fn to_front_places_are_few()
    ensures { (shape : Shape) (reader : ℕ → ℕ) (items : List ℕ) (item : ℕ)
        → length (to_front_places reader shape items item) ≤ 6 }
{}
