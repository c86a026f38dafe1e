// Asks with their answers.
ghost use Rattle.std.specs.Prelude.{◌≡◌, ◌<◌, ◌++◌, ◌∷◌, List, [], length, not, true, false, OnOk, OnErr};
ghost use Rattle.uw_outside.specs.Faults.{HasCause};
ghost use Rattle.uw_model.specs.declared.asks.Asked.{Asked};
ghost use Rattle.uw_model.specs.declared.asks.Ask.TheVariants as asks;
ghost use Rattle.uw_model.specs.declared.asks.AskAnswer.TheVariants as ask_answers;
ghost use Rattle.uw_model.specs.declared.asks.SpoolAnswer.TheVariants as spools;
ghost use Rattle.uw_model.specs.Asks.{IsOfPart, MakesAsk, has_died};

use crate::asks::{Ask, AskAnswer, Asked, SpoolAnswer};
use crate::desk::{Desk, DeskFault, make_ask};
use std::alloc::Global;
use std::marker::Model;
use uw_base::{Bytes, Memory, Vars};
use uw_outside::Life;

/// Asks with their answers, in the order in which they were made.
#[derive(Drop)]
pub struct AskList {
    asked: Vec<Asked>,
}

impl Model for AskList {
    ghost use Rattle.std.specs.Prelude.{List};
    ghost use Rattle.uw_model.specs.declared.asks.Asked.{Asked};

    ghost Value = { List Asked };

    ghost view = { λ l. l.asked.items };
}

impl AskList {
    /// No ask. Takes no memory.
    pub fn new(alloc: Global) -> AskList
        ensures { result ≡ [] }
    {
        AskList {
            asked: Vec::new(alloc),
        }
    }

    pub fn as_slice(&self) -> &[Asked]
        ensures { result.now ≡ self.now }
    {
        self.asked.as_slice()
    }

    /// The number of asks.
    pub fn len(&self) -> usize
        ensures { result ≡ length self.now }
    {
        self.asked.len()
    }

    /// Makes an ask of a desk, at a moment in seconds, and puts it with its answer at the end. Room for both is taken
    /// first, so an ask that was answered is in the list, and no other.
    pub fn make<D: Desk, L: Life>(
        &mut self,
        alloc: Global,
        desk: &mut D,
        moment: u64,
        ask: Ask,
        life: &mut L,
    ) -> Result<(), DeskFault>
        requires known { IsOfPart (D.parts desk.old) ask }
        requires alive { L.alive life.old ≡ true }
        ensures asked { MakesAsk (D.leads desk.old desk.new) (L.allowances life.old) (L.allowances life.new) moment ask self.old self.new result }
        ensures cause { HasCause (L.deaths life.old) (L.deaths life.new) (has_died result) }
        ensures alive { L.alive life.new ≡ not (has_died result) }
        ensures parts { D.parts desk.new ≡ D.parts desk.old }
        ensures settled { D.settled desk.old ≡ true → has_died result ≡ false → D.settled desk.new ≡ true }
    {
        match self.asked.reserve(1) {
            Ok(()) => {}
            Err(_) => return Err(DeskFault::Memory),
        }
        let answer = make_ask(alloc, desk, moment, &ask, life)?;
        self.asked.push_reserved(Asked { ask, answer });
        Ok(())
    }

    /// Puts an ask of the spool at the end before it is made, so that room for it and its answer is taken. Until it is
    /// answered, it counts as failed.
    pub fn open(&mut self, vars: Vars, body: Bytes) -> Result<(), Memory>
        ensures ok { OnOk result (self.new ≡ self.old ++ record { ask = asks.Spool vars body; answer = ask_answers.Spool spools.Failed } ∷ []) }
        ensures err { OnErr result (self.new ≡ self.old) }
    {
        let ask = Ask::Spool { vars, body };
        let answer = AskAnswer::Spool(SpoolAnswer::Failed);
        self.asked.push(Asked { ask, answer })?;
        Ok(())
    }

    /// Answers the last ask.
    pub fn answer_last(&mut self, answer: AskAnswer)
        requires { 0 < length self.old }
        ensures { (front : List Asked) (last : Asked) → self.old ≡ front ++ last ∷ [] → self.new ≡ front ++ record { ask = last.ask; answer = answer } ∷ [] }
    {
        let last = self.asked.len() - 1;
        self.asked[last].answer = answer;
    }

    /// Takes the last ask out again, which was not made.
    pub fn cancel_last(&mut self)
        requires { 0 < length self.old }
        ensures { (front : List Asked) (last : Asked) → self.old ≡ front ++ last ∷ [] → self.new ≡ front }
    {
        self.asked.pop();
    }
}
