//! Laws of the hash chains. Each is the contract of a function that does nothing.
ghost use Rattle.std.specs.Prelude.{◌≡◌, ◌⊎◌, ◌<◌, ◌∷◌, ℕ, List, true};
ghost use Rattle.uw_words.specs.declared.shape.Shape.{Shape};
ghost use Rattle.uw_words.specs.Shapes.{IsShape};
ghost use Rattle.uw_words.specs.Numbers.{IsOneOf};
ghost use Rattle.uw_words.specs.Parts.{DependsOn};
ghost use Rattle.uw_words.specs.Walks.{counted_walk, is_whole_walk};
ghost use Rattle.uw_chains.specs.Chains.{IsChains, chain_place, IsChainsPlace, IsChainsKeyPlace, item_chain, with_chain, link_places, unlink_places};

/// Whether items are those of the chains depends on the places of the chains and on those of their items' keys alone.
pub fn chains_depend_on_their_places()
    ensures { (shape : Shape) (chains : ℕ → List ℕ) → IsShape shape
        → DependsOn (λ reader. IsChains reader shape chains) (λ at. IsChainsPlace shape chains at ⊎ IsChainsKeyPlace shape chains at) }
{}

/// An item is on one chain at most, that of the hash which it holds.
pub fn an_item_is_on_its_chain_alone()
    ensures { (shape : Shape) (reader : ℕ → ℕ) (chains : ℕ → List ℕ) (chain item : ℕ) → IsChains reader shape chains
        → chain < shape.n_chains → IsOneOf (chains chain) item → chain ≡ item_chain reader shape item }
{}

/// The words hold one list of items for each chain at most.
pub fn chains_are_one_list_each()
    ensures { (shape : Shape) (reader : ℕ → ℕ) (chains others : ℕ → List ℕ) (chain : ℕ) → IsShape shape
        → IsChains reader shape chains → IsChains reader shape others → chain < shape.n_chains → chains chain ≡ others chain }
{}

/// A counted walk of as many items as there are gives the items of a chain, and it is whole.
pub fn counted_walk_gives_each_chain()
    ensures { (shape : Shape) (reader : ℕ → ℕ) (chains : ℕ → List ℕ) (chain : ℕ) → IsShape shape → IsChains reader shape chains
        → chain < shape.n_chains
        → (let first = reader (chain_place shape chain) in
        (counted_walk reader shape first 0 shape.n_items ≡ chains chain) × (is_whole_walk reader first 0 shape.n_items ≡ true)) }
{}

/// An item that joins its chain is written to places of the chains with it.
pub fn link_places_are_of_the_chains()
    ensures { (shape : Shape) (reader : ℕ → ℕ) (chains : ℕ → List ℕ) (item at : ℕ) → IsShape shape
        → IsOneOf (link_places reader shape item) at
        → (let chain = item_chain reader shape item in
        IsChainsPlace shape (with_chain chains chain (item ∷ chains chain)) at) }
{}

/// An item that leaves its chain is written to a place of the chains.
pub fn unlink_places_are_of_the_chains()
    ensures { (shape : Shape) (reader : ℕ → ℕ) (chains : ℕ → List ℕ) (item at : ℕ) → IsShape shape
        → IsOneOf (unlink_places reader shape chains item) at → IsChainsPlace shape chains at }
{}
