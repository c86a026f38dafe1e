// A pass: the right to take turns, and what its owner knows.
ghost use Rattle.std.specs.Prelude.{◌≡◌};
ghost use Rattle.uw_lock.specs.LockRule.{known, IsAtRest};

use crate::kept::Kept;
use crate::rule::Place;
use std::marker::Model;

/// The right to take turns at one lock, under a number of its own. Contracts see which lock it is of, its number and the
/// step to the numbers that it may give away, the history that its owner has seen, the list of its own entries, the
/// configuration of the locked value, and the owner word as the pass last found or left it.
pub struct Pass<K: Kept> {
    pub(crate) seat: Place<K>,
}

impl<K: Kept> Model for Pass<K> {
    ghost use Rattle.uw_lock.specs.LockRule.{Known, known, IsAtRest};

    ghost Value = { Known K.Entry K.Conf };

    ghost view = { λ p. known p.seat.table_id p.seat.me.0 };

    ghost invariant = { λ p. IsAtRest p.seat.me };
}

impl<K: Kept> Pass<K> {
    pub(crate) fn into_seat(self) -> Place<K>
        ensures { (known result.table_id result.me.0 ≡ self) × IsAtRest result.me }
    {
        let Pass { seat } = self;
        seat
    }
}

impl<K: Kept> Drop for Pass<K> {
    fn drop(self) {
        let Self { seat: _ } = self;
    }
}
