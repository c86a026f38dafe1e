// The entries of a cache, for contracts.
use std::marker::Model;
use uw_model::Entry;

/// The entries for which the words of a cache stand, the most recent first. Contracts see it as the list of them, and no
/// value of it is ever made.
#[derive(Drop)]
pub struct EntryList {
    entries: Vec<Entry>,
}

impl Model for EntryList {
    ghost use Rattle.std.specs.Prelude.{List};
    ghost use Rattle.uw_model.specs.declared.entries.Entry.{Entry};

    ghost Value = { List Entry };

    ghost view = { λ l. l.entries.items };
}
