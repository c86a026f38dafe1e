// The lock.
ghost use Rattle.std.specs.Prelude.{◌≡◌, ◌≢◌, ◌==◌, ◌+◌, ◌*◌, [], false, Some, IfOk, IfErr, IfSome, IfNone, IsSome};
ghost use Rattle.std.specs.Slots.{slots_items, slots_len, IsFull};
ghost use mathlib.Core.Option.{some};
ghost use lib.ListN.{get_elem?};
ghost use Rattle.uw_lock.specs.LockRule.{StartsWith, GrewByOthers, HasOwn, owned, IsAtRest, IsWhole, MayBeLeftHeld, IsOnly};
ghost use Rattle.uw_lock.specs.LockSteps.{HasTaken};

use crate::kept::Kept;
use crate::pass::Pass;
use crate::rule::{COUNT, DEAD, Grant, HELD, LockTable, Look, OWNER, Place, Steps, Take, Tell};
use crate::turn::Turn;
use atomic_table::{Closed, Refused, Table};
use std::alloc::Global;
use std::marker::Model;
use std::snapshot::Snapshot;
use std::sync::Wait;
use std::thread;

/// A lock over one value. Contracts see which lock it is.
#[derive(Drop)]
pub struct RobustLock<K: Kept> {
    table: LockTable<K>,
}

impl<K: Kept> Model for RobustLock<K> {
    ghost use Rattle.std.specs.Prelude.{◌≡◌};
    ghost use Rattle.atomic_table.specs.Seated.{TableId, table_id_coded};

    ghost Value = { TableId };

    ghost coded = { table_id_coded };

    ghost view = { λ l. l.table.shared.table_id };

    ghost invariant = { λ l. (l.table.shared.table_id.words ≡ 2) × (l.table.shared.table_id.slots ≡ 1) };
}

impl<K: Kept> RobustLock<K> {
    /// A lock with its first pass, which has seen nothing. The value comes back where there is no memory.
    pub fn new(alloc: Global, value: K) -> Result<(RobustLock<K>, Pass<K>), K>
        requires stands { K.stands value [] }
        requires settled { K.pending value ≡ false }
        ensures ok { IfOk result (λ r. r.1 ≡ record { lock = r.0; number = 0; step = 1; seen = []; mine = []; conf = Some (K.conf value); word = 0 }) }
        ensures err { IfErr result (λ v. v ≡ value) }
    {
        let about = Snapshot::of(&value);
        let mut slots = match Vec::with_capacity(alloc, 1) {
            Ok(slots) => slots,
            Err(_) => return Err(value),
        };
        slots.push_reserved(Some(value));
        match Table::new(alloc, &[0, 0], slots, &about) {
            Ok((table, seat)) => Ok((RobustLock { table }, Pass { seat })),
            Err(Refused { mut slots }) => Err(slots.pop().unwrap().unwrap()),
        }
    }

    /// A further pass under a number of its own, which has seen what `from` has seen. The two divide the numbers that
    /// `from` owned.
    pub fn pass(&self, from: &mut Pass<K>) -> Pass<K>
        requires { from.old.lock ≡ self.now }
        ensures from { from.new ≡ record from.old { step = 2 * from.old.step } }
        ensures pass { result ≡ record from.old { number = from.old.number + from.old.step; step = 2 * from.old.step; mine = [] } }
        ensures apart { (i j : _) → owned from.new i ≢ owned result j }
        ensures own { HasOwn from.new × HasOwn result }
    {
        Pass {
            seat: self.table.shared.split_seat::<Grant<K>>(&mut from.seat),
        }
    }

    /// Waits until the lock is got. The pass has then seen the whole history, for which the value stands: what it had
    /// seen before, and others' entries. Only where the last holder died, an intent may be pending.
    pub fn turn<R: Wait>(&self, rt: &R, pass: Pass<K>) -> Turn<'_, K>
        requires { pass.lock ≡ self.now }
        ensures pass { result.pass ≡ record pass { seen = result.pass.seen; word = result.pass.word } }
        ensures seen { GrewByOthers pass.number result.pass.seen pass.seen }
        ensures own { HasOwn result.pass }
        ensures conf { result.pass.conf ≡ Some (K.conf result.value) }
        ensures stands { K.stands result.value result.pass.seen }
        ensures dead { result.was_dead ≡ (result.pass.word == 2) }
        ensures settled { result.was_dead ≡ false → K.pending result.value ≡ false }
        ensures alone { IsOnly pass → (result.pass.word ≡ pass.word) × (result.pass.seen ≡ pass.seen) }
    {
        let mut seat = pass.into_seat();
        for _ in rt.forever() {
            if let Some((value, dead)) = self.try_take(&mut seat) {
                return Turn {
                    lock: self,
                    seat,
                    value,
                    dead,
                };
            }
            self.wait_while_held(rt);
        }
        unreachable!()
    }

    /// Lets the first pass see all that either has seen.
    pub fn meet(&self, a: &mut Pass<K>, b: &mut Pass<K>)
        requires { (a.old.lock ≡ self.now) × (b.old.lock ≡ self.now) }
        ensures a { a.new ≡ record a.old { seen = a.new.seen } }
        ensures b { b.new ≡ b.old }
        ensures seen { GrewByOthers a.old.number a.new.seen a.old.seen }
        ensures met { StartsWith a.new.seen b.new.seen }
        ensures own { HasOwn a.new × HasOwn b.new }
    {
        let message = self.table.shared.split_seat::<Tell<K>>(&mut b.seat);
        self.table.shared.join_seat::<Tell<K>>(&mut a.seat, message);
        self.table.shared.load::<Look<K>>(&mut a.seat, COUNT);
    }

    /// The value, which stands for the whole history; `None` where the lock is still held, since a turn of another pass
    /// was dropped without being left. Of a `None` the contract says that the rule has such a state with this pass.
    pub fn close(self, pass: Pass<K>) -> Option<K>
        requires { pass.lock ≡ self }
        ensures value { IfSome result (λ v. IsWhole K.stands K.pending K.conf pass v) }
        ensures none { IfNone result (MayBeLeftHeld K.stands K.pending K.conf pass) }
        ensures alone { IsOnly pass → IsSome result }
    {
        let RobustLock { table } = self;
        let seat = pass.into_seat();
        take_out(table.close_with(seat))
    }

    pub(crate) fn steps(&self) -> &Steps<K>
        ensures { (result.now.table_id ≡ self.now) × (self.now.words ≡ 2) × (self.now.slots ≡ 1) }
    {
        &self.table.shared
    }

    // Looks until the owner word isn't 1. A look writes nothing, so it takes nothing from the holder.
    fn wait_while_held<R: Wait>(&self, rt: &R) {
        for _ in rt.forever() {
            if self.table.shared.peek(OWNER) != HELD {
                return;
            }
            thread::yield_now();
        }
    }

    // One try to take the lock: the value, and whether the last holder died.
    fn try_take(&self, seat: &mut Place<K>) -> Option<(K, bool)>
        requires table { seat.old.table_id ≡ self.now }
        requires rest { IsAtRest seat.old.me }
        ensures same { seat.new.table_id ≡ seat.old.table_id }
        ensures none { IfNone result (seat.new.me ≡ seat.old.me) }
        ensures some { IfSome result (λ t. HasTaken K.stands K.pending K.conf seat.old.me t.0 t.1 seat.new.me) }
    {
        let found = self.table.shared.swap::<Take<K>>(seat, OWNER, HELD);
        if found == HELD {
            return None;
        }
        let value = self.table.shared.exchange(seat, 0, None).unwrap();
        Some((value, found == DEAD))
    }
}

// The value in a closed table's slot, exactly where the owner word isn't 1.
fn take_out<K: Kept>(mut closed: Closed<Option<K>, Global>) -> Option<K>
    requires words { (slots_len closed.words ≡ 2) × IsFull closed.words }
    requires slots { (slots_len closed.slots ≡ 1) × IsFull closed.slots }
    requires home { get_elem? (slots_items closed.words) 0 ≢ some 1 → (v : K) × (get_elem? (slots_items closed.slots) 0 ≡ some (Some v)) }
    ensures none { IfNone result (get_elem? (slots_items closed.words) 0 ≡ some 1) }
    ensures value { IfSome result (λ v. (get_elem? (slots_items closed.words) 0 ≢ some 1) × (get_elem? (slots_items closed.slots) 0 ≡ some (Some v))) }
{
    let owner = closed.word(OWNER);
    let slot = closed.take(0);
    closed.free();
    if owner == HELD {
        return None;
    }
    Some(slot.unwrap())
}
