// The labels of a table, each with its place.
ghost use Rattle.std.specs.Prelude.{◌≡◌, ℕ, List, None, IfOk, OnOk};
ghost use Rattle.uw_rules.specs.LabelSteps.{NotesLabel, NotesRule, label_place};
ghost use Rattle.uw_rules.specs.Rules.{place_of_label};
ghost use Rattle.uw_rules.specs.WrittenSteps.{written_seen};

use crate::judging::MOST_RULES;
use crate::lines::RuleLine;
use crate::written::{WrittenRule, written};
use std::alloc::Global;
use std::collections::HashMap;
use uw_base::Memory;

/// The labels of a table: of each the place of its first line.
#[derive(Drop)]
pub struct Labels<'a> {
    pub places: HashMap<&'a [u8], u32>,
}

impl<'a> Labels<'a> {
    // No label. Takes no memory.
    #[tactic(auto, unfolding(crate::specs::LabelSteps::label_place))]
    fn new(alloc: Global) -> Labels<'a>
        ensures { (text : List ℕ) → label_place result text ≡ None }
    {
        Labels {
            places: HashMap::new(alloc),
        }
    }

    /// The place of a label.
    #[tactic(auto, unfolding(crate::specs::LabelSteps::label_place))]
    pub fn place(&self, label: &[u8]) -> Option<u32>
        ensures { result ≡ label_place self.now label.now }
    {
        self.places.get(label).copied()
    }

    // Notes the place of a label that is not there yet.
    fn note(&mut self, label: &'a [u8], place: u32) -> Result<(), Memory>
        ensures { OnOk result (NotesLabel self.old self.new label.now place) }
    {
        if self.place(label).is_some() {
            return Ok(());
        }
        self.places.insert(label, place)?;
        Ok(())
    }

    // Notes the place of a rule, where it is a label.
    fn note_rule(&mut self, rule: WrittenRule<'a>, place: u32) -> Result<(), Memory>
        ensures { OnOk result (NotesRule self.old self.new (written_seen rule.entry) place) }
    {
        match rule {
            WrittenRule::Label(label) => self.note(label, place),
            _ => Ok(()),
        }
    }
}

/// The labels of the first lines, as many as a table may have.
pub fn labels_of<'a>(alloc: Global, lines: &'a [RuleLine]) -> Result<Labels<'a>, Memory>
    ensures { IfOk result (λ labels. (text : List ℕ) → label_place labels text ≡ place_of_label lines.now text) }
{
    let mut labels = Labels::new(alloc);
    for place in 0..lines.len().min(MOST_RULES) {
        labels.note_rule(written(&lines[place]), place as u32)?;
    }
    Ok(labels)
}
