// A turn: the lock, held.
ghost use Rattle.std.specs.Prelude.{◌≡◌, false, Some};
ghost use Rattle.std.specs.Borrow.{Lends, sem};
ghost use Rattle.uw_lock.specs.LockRule.{IsHolding, HasOwn, with_note, left_at, known};
ghost use Rattle.uw_lock.specs.LockSteps.{IsEnding, noted};

use crate::kept::Kept;
use crate::lock::RobustLock;
use crate::pass::Pass;
use crate::rule::{Announced, COUNT, DEAD, FREE, Leave, Note, OWNER, Place, Steps};
use std::marker::{Brand, Model};

/// The lock, held, with its value in hand. It ends by `leave` or `leave_dead`. Contracts see what its pass knows, the
/// value, and whether the last holder died.
///
/// A turn that is dropped leaves the lock held for ever.
#[derive(Drop)]
pub struct Turn<'a, K: Kept> {
    pub(crate) lock: &'a RobustLock<K>,
    pub(crate) seat: Place<K>,
    pub(crate) value: K,
    pub(crate) dead: bool,
}

impl<'a, K: Kept> Model for Turn<'a, K> {
    ghost use Rattle.std.specs.Prelude.{◌≡◌};
    ghost use Rattle.uw_lock.specs.LockRule.{Held, known, IsHolding};

    ghost Value = { Held K K.Entry K.Conf };

    ghost view = { λ t. record { pass = known t.seat.table_id t.seat.me.0; value = t.value; was_dead = t.dead } };

    ghost invariant = { λ t. (t.seat.table_id ≡ t.lock.now) × IsHolding t.seat.me };
}

impl<'a, K: Kept> Turn<'a, K> {
    ghost use Rattle.std.specs.Prelude.{[]};
    ghost use mir.Syntax.{named};
    ghost use Rattle.uw_lock.specs.contracts.turn.Turn.{the_row};
    ghost use Rattle.uw_lock.specs.LockRule.{with_value};

    /// The value, to be read and changed. The lock is left with what stands there then.
    pub fn value(&mut self) -> &mut K
        ensures* lends { sem 𝓛 (Lends (the_row (record { mir = named 1; lft = [] }) K.row K.Entry.row K.Conf.row K.Kept) K.row self.entry result (with_value self.old)) }
        ensures value { result.now ≡ self.old.value }
    {
        &mut self.value
    }
}

impl<'a, K: Kept> Turn<'a, K> {
    /// Whether the last holder left by `leave_dead`.
    pub fn was_dead(&self) -> bool
        ensures { result ≡ self.now.was_dead }
    {
        self.dead
    }

    /// Adds one entry to the history, under the pass's number.
    pub fn note(&mut self, moment: u64, entry: &K::Entry)
        ensures noted { self.new ≡ with_note self.old moment entry.now }
        ensures own { HasOwn self.new.pass }
    {
        let steps = self.lock.steps();
        note_as::<K, Brand>(steps, &mut self.seat, moment, entry);
    }

    /// Leaves the lock. The value must stand for the history, with no intent pending.
    pub fn leave(self) -> Pass<K>
        requires conf { self.pass.conf ≡ Some (K.conf self.value) }
        requires stands { K.stands self.value self.pass.seen }
        requires settled { K.pending self.value ≡ false }
        ensures pass { result ≡ left_at 0 self.entry.pass }
        ensures own { HasOwn result }
    {
        let Turn {
            lock,
            seat,
            value,
            dead: _,
        } = self;
        end(lock.steps(), seat, value, FREE)
    }

    /// Leaves the lock as a holder that died. The value must stand for the history, and may have an intent pending, which
    /// the next holder finds as it is.
    pub fn leave_dead(self) -> Pass<K>
        requires conf { self.pass.conf ≡ Some (K.conf self.value) }
        requires stands { K.stands self.value self.pass.seen }
        ensures pass { result ≡ left_at 2 self.entry.pass }
        ensures own { HasOwn result }
    {
        let Turn {
            lock,
            seat,
            value,
            dead: _,
        } = self;
        end(lock.steps(), seat, value, DEAD)
    }
}

// The step of a note, which announces the entry of `B`.
fn note_as<K: Kept, B: Announced<K::Entry>>(
    steps: &Steps<K>,
    seat: &mut Place<K>,
    moment: u64,
    entry: &K::Entry,
)
    requires table { (seat.old.table_id ≡ steps.now.table_id) × (steps.now.table_id.words ≡ 2) × (steps.now.table_id.slots ≡ 1) }
    requires holding { IsHolding seat.old.me }
    requires entry { (B.moment ≡ moment) × (B.entry ≡ Some entry.now) }
    ensures same { (seat.new.table_id ≡ seat.old.table_id) × (seat.new.id ≡ seat.old.id) }
    ensures noted { seat.new.me ≡ noted seat.old.me moment entry.now }
{
    let _ = moment;
    let _ = entry;
    steps.fetch_add::<Note<K, B>>(seat, COUNT, 1);
}

// Puts the value back, and stores the owner word.
fn end<K: Kept>(steps: &Steps<K>, mut seat: Place<K>, value: K, owner: u64) -> Pass<K>
    requires table { (seat.table_id ≡ steps.now.table_id) × (steps.now.table_id.words ≡ 2) × (steps.now.table_id.slots ≡ 1) }
    requires holding { IsHolding seat.me }
    requires fit { IsEnding K.stands K.pending K.conf seat.me.0 owner value }
    ensures pass { result ≡ left_at owner (known seat.table_id seat.me.0) }
    ensures own { HasOwn result }
{
    drop(steps.exchange(&mut seat, 0, Some(value)));
    steps.store::<Leave<K>>(&mut seat, OWNER, owner);
    Pass { seat }
}
