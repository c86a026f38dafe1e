// A desk that is known to stand for plain lists.
ghost use Rattle.std.specs.Prelude.{◌≡◌, ℕ, List};
ghost use Rattle.uw_model.specs.Asks.{Asking};
ghost use Rattle.uw_model.specs.Lists.{LeadsLists, Lists, parts_of};

use crate::Desk;

/// A desk of one owner, whose caches and areas stand for plain lists: whatever asks lead it on lead the lists that it
/// stands for on to those that it stands for then. A desk that others ask beside this owner is none.
pub trait OwnDesk: Desk {
    /// It stands for these lists.
    ghost stands: { Self → Lists → Type 0 };

    /// The lists are of just its caches and areas.
    ghost stands_parts: { (a : Self) (lists : Lists) → stands a lists → parts_of lists ≡ Self.parts a };

    /// Asks that lead the desk on lead the lists on.
    ghost stands_on: { (a b : Self) (asked : List Asking) (writes : ℕ) (lists : Lists)
        → Self.leads a b asked writes → stands a lists → (after : Lists) × LeadsLists lists asked after × stands b after };
}
