// The rule of the lock's table, and what each kind of step tells the seat that makes it.
ghost use Rattle.std.specs.Prelude.{ℕ, Option, None};
ghost use Rattle.uw_lock.specs.LockRule.{HoldsHistory};
ghost use Rattle.uw_lock.specs.LockSteps.{first_view, Taken, Looked, Noted, Left, divided, granted, message_of, informed, spent_view};

use crate::entries::View;
use crate::kept::Kept;
use atomic_table::{Join, Play, Seat, Shared, Split, Table, TableRule};
use std::alloc::Global;
use std::marker::{Brand, PhantomData};
use std::snapshot::Snapshot;

// The words of the table.
pub const OWNER: usize = 0;

pub const COUNT: usize = 1;

// What the owner word says.
pub const FREE: u64 = 0;

pub const HELD: u64 = 1;

pub const DEAD: u64 = 2;

pub type Place<K> = Seat<Option<K>, View<<K as Kept>::Entry, <K as Kept>::Conf>>;

pub type Steps<K> = Shared<
    Option<K>,
    View<<K as Kept>::Entry, <K as Kept>::Conf>,
    Snapshot<K>,
    LockRule<K>,
>;

pub type LockTable<K> = Table<
    Option<K>,
    View<<K as Kept>::Entry, <K as Kept>::Conf>,
    Snapshot<K>,
    LockRule<K>,
    Global,
>;

// The table's key is the first value, whose configuration all later ones have.
pub struct LockRule<K> {
    of: PhantomData<K>,
}

impl<K: Kept> TableRule<Option<K>, View<K::Entry, K::Conf>, Snapshot<K>> for LockRule<K> {
    ghost holds = { λ key. HoldsHistory K.stands K.pending K.conf (K.conf key.value) };

    ghost first = { λ key. first_view (K.conf key.value) };
}

// The swap of the owner word that tries to take the lock.
pub struct Take<K> {
    of: PhantomData<K>,
}

impl<K: Kept> Play<Option<K>, View<K::Entry, K::Conf>> for Take<K> {
    ghost then = { Taken K.stands K.pending K.conf };
}

// The load of the count, which sees the history.
pub struct Look<K> {
    of: PhantomData<K>,
}

impl<K: Kept> Play<Option<K>, View<K::Entry, K::Conf>> for Look<K> {
    ghost then = { Looked };
}

/// Which entry a step of the count adds. Each call picks it.
pub trait Announced<E> {
    ghost moment: { ℕ };

    ghost entry: { Option E };
}

impl<E> Announced<E> for Brand {
    ghost moment = { 0 };

    ghost entry = { None };
}

// The add to the count, by which an entry joins the history.
pub struct Note<K, B> {
    of: PhantomData<(K, B)>,
}

impl<K: Kept, B: Announced<K::Entry>> Play<Option<K>, View<K::Entry, K::Conf>> for Note<K, B> {
    ghost then = { λ st m. Noted m.0.number B.moment B.entry st m };
}

// The store of the owner word that leaves the lock.
pub struct Leave<K> {
    of: PhantomData<K>,
}

impl<K: Kept> Play<Option<K>, View<K::Entry, K::Conf>> for Leave<K> {
    ghost then = { Left };
}

// A pass gives every second number of those that it owns to another.
pub struct Grant<K> {
    of: PhantomData<K>,
}

impl<K: Kept> Split<View<K::Entry, K::Conf>> for Grant<K> {
    ghost left = { divided };

    ghost right = { granted };
}

// What a pass has seen, as a message for another pass.
pub struct Tell<K> {
    of: PhantomData<K>,
}

impl<K: Kept> Split<View<K::Entry, K::Conf>> for Tell<K> {
    ghost left = { λ v. v };

    ghost right = { message_of };
}

impl<K: Kept> Join<View<K::Entry, K::Conf>> for Tell<K> {
    ghost both = { informed };

    ghost spent = { spent_view };
}
