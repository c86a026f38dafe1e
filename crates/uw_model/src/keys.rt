// Steps on a list of entries: finding a key, taking its entry out and putting one in front.
ghost use Rattle.std.specs.Prelude.{◌≡◌, ◌<◌, ◌≤◌, ◌∷◌, true, IfSome, MatchOption, remove, slice_index_or, vec_len, vec_capacity};
ghost use Rattle.uw_model.specs.declared.entries.Entry.{Entry as EntryValue};
ghost use Rattle.uw_model.specs.Calls.{without};
ghost use Rattle.uw_model.specs.KeySteps.{lacks, HaveOwnKeys, IsPlaceOf, restored};

use crate::Entry;

/// An entry that was taken out of a list, and the place at which it stood.
#[derive(Drop)]
pub struct Taken {
    pub place: usize,
    pub entry: Entry,
}

/// The place of the entry of a key.
pub fn place_of(entries: &[Entry], key: &[u8]) -> Option<usize>
    ensures { MatchOption result (lacks key.now entries.now ≡ true) (IsPlaceOf entries.now key.now) }
{
    for (place, entry) in entries.iter().enumerate() {
        if entry.key.as_slice() == key {
            return Some(place);
        }
    }
    None
}

/// Puts an entry in front of a list that has memory for one more.
pub fn put_in_front(entries: &mut Vec<Entry>, entry: Entry)
    requires { vec_len entries.old < vec_capacity entries.old }
    ensures { entries.new.items ≡ entry ∷ entries.old.items }
{
    entries.insert(0, entry).unwrap();
}

/// Moves the entry at a place to the front.
pub fn move_to_front(entries: &mut Vec<Entry>, place: usize)
    requires { place < vec_len entries.old }
    ensures { (d : EntryValue) → entries.new.items
        ≡ slice_index_or entries.old.items place d ∷ remove entries.old.items place }
{
    let entry = entries.remove(place);
    put_in_front(entries, entry);
}

/// Takes the entry of a key out of the list, where there is one.
pub fn take_out(entries: &mut Vec<Entry>, key: &[u8]) -> Option<Taken>
    requires { HaveOwnKeys entries.old.items }
    ensures without { entries.new.items ≡ without key.now entries.old.items }
    ensures taken { restored entries.new.items result ≡ entries.old.items }
    ensures place { IfSome result (λ t. t.place ≤ vec_len entries.new) }
    ensures shorter { vec_len entries.new ≤ vec_len entries.old }
    ensures capacity { vec_capacity entries.new ≡ vec_capacity entries.old }
{
    let place = place_of(entries, key)?;
    let entry = entries.remove(place);
    Some(Taken { place, entry })
}

/// Puts back what was taken out of a list that has memory for it.
pub fn put_back(entries: &mut Vec<Entry>, taken: Option<Taken>)
    requires memory { vec_len entries.old < vec_capacity entries.old }
    requires place { IfSome taken (λ t. t.place ≤ vec_len entries.old) }
    ensures { entries.new.items ≡ restored entries.old.items taken }
{
    if let Some(Taken { place, entry }) = taken {
        entries.insert(place, entry).unwrap();
    }
}
