// The test of a rule.
ghost use Rattle.std.specs.Prelude.{◌≡◌, ◌≤◌, [], List, ℕ, Option, not, true, false, IfOk};
ghost use Rattle.uw_outside.specs.Faults.{HasCause};
ghost use Rattle.uw_rules.specs.declared.grammar.ConditionName.{ConditionName};
ghost use Rattle.uw_rules.specs.PartNumbers.{ConditionAsksBelow, IsNumberBelow, TestAsksBelow};
ghost use Rattle.uw_rules.specs.Compiled.{IsConditionOf, IsTestOf};
ghost use Rattle.uw_rules.specs.Patterns.{IsPatternOf};
ghost use Rattle.uw_rules.specs.WrittenRules.{WrittenTest};
ghost use Rattle.uw_chain.specs.Courses.{ended};
ghost use Rattle.uw_chain.specs.KeptSearches.{FitsCondition, FitsPattern, FitsTest};
ghost use Rattle.uw_chain.specs.RoutingSteps.{RunsTo, both_within, compares, course_of_compiled, is_ask, is_regexp};
ghost use Rattle.uw_chain.specs.Runs.{has_died_following};
ghost use Rattle.uw_chain.specs.Spooling.{both_led, kept_by};
ghost use Rattle.uw_chain.specs.Tests.{about_text, asking_cache, comparing, course_of_condition, course_of_test, filled_within, has_back, has_front, has_within, is_flag_set, verdict_of, verdict_of_pattern, verdict_when};

use crate::asking::{ask_cache, last_answer};
use crate::faults::ChainEnd;
use crate::filling::Filling;
use crate::searches::Slot;
use crate::verdict::Verdict;
use memchr::memmem;
use regex::bytes::Regex;
use std::alloc::Global;
use uw_base::texts::is;
use uw_base::{Bytes, BytesList, Memory, Vars};
use uw_keeper::Keeper;
use uw_model::{Answer, AskAnswer, AskList, Call, Desk};
use uw_outside::Life;
use uw_rules::compiled::{Condition, Test};
use uw_subst::Template;

// A test without captures.
fn verdict_of(alloc: Global, holds: bool) -> Verdict
    ensures { result ≡ verdict_of holds }
{
    if holds {
        Verdict::Met(BytesList::new(alloc))
    } else {
        Verdict::Missed
    }
}

// A verdict, or where it is negated the other one.
fn verdict_when(alloc: Global, negated: bool, verdict: Verdict) -> Verdict
    ensures { result ≡ verdict_when negated verdict }
{
    match verdict {
        Verdict::Met(_) if negated => Verdict::Missed,
        Verdict::Missed if negated => Verdict::Met(BytesList::new(alloc)),
        verdict => verdict,
    }
}

#[tactic(auto, unfolding(crate::specs::Tests::has_front))]
fn has_front(text: &[u8], front: &[u8]) -> bool
    ensures { result ≡ has_front text.now front.now }
{
    text.len() >= front.len() && is(&text[..front.len()], front)
}

#[tactic(auto, unfolding(crate::specs::Tests::has_back))]
fn has_back(text: &[u8], back: &[u8]) -> bool
    ensures { result ≡ has_back text.now back.now }
{
    text.len() >= back.len() && is(&text[text.len() - back.len()..], back)
}

fn has_within(text: &[u8], other: &[u8]) -> bool
    ensures { result ≡ has_within text.now other.now }
{
    memmem::find(text, other).is_some()
}

// The texts of two templates, none where one is longer than its limit.
fn both(
    alloc: Global,
    filling: &Filling<'_>,
    text: &Template,
    other: &Template,
) -> Result<Option<(Bytes, Bytes)>, Memory>
    ensures { IfOk result (λ texts. texts ≡ both_within
        (filled_within text.now filling.now.vars.now filling.now.captures.now filling.now.moment)
        (filled_within other.now filling.now.vars.now filling.now.captures.now filling.now.moment)) }
{
    let Some(text) = filling.text(alloc, text)? else {
        return Ok(None);
    };
    match filling.text(alloc, other)? {
        Some(other) => Ok(Some((text, other))),
        None => Ok(None),
    }
}

// Compares the texts of two templates.
fn compare(
    alloc: Global,
    filling: &Filling<'_>,
    text: &Template,
    other: &Template,
    how: Comparison,
) -> Result<Verdict, Memory>
    ensures { IfOk result (λ verdict. comparing
        (filled_within text.now filling.now.vars.now filling.now.captures.now filling.now.moment)
        (filled_within other.now filling.now.vars.now filling.now.captures.now filling.now.moment) (compares how) ≡ ended verdict) }
{
    match both(alloc, filling, text, other)? {
        Some((text, other)) => Ok(verdict_of(
            alloc,
            how.compares(text.as_slice(), other.as_slice()),
        )),
        None => Ok(Verdict::Overlong),
    }
}

// How two texts are compared.
#[derive(Clone, Copy)]
enum Comparison {
    Equal,
    Front,
    Back,
    Within,
}

impl Comparison {
    fn compares(self, text: &[u8], other: &[u8]) -> bool
        ensures { result ≡ compares self text.now other.now }
    {
        match self {
            Comparison::Equal => is(text, other),
            Comparison::Front => has_front(text, other),
            Comparison::Back => has_back(text, other),
            Comparison::Within => has_within(text, other),
        }
    }
}

// Judges a condition that neither asks nor is about a pattern.
fn judge_texts(
    alloc: Global,
    condition: &Condition,
    filling: &Filling<'_>,
) -> Result<Verdict, Memory>
    requires plain { is_regexp condition.now ≡ false }
    requires silent { is_ask condition.now ≡ false }
    requires captures { filling.now.captures.now ≡ [] }
    ensures { IfOk result (λ verdict. course_of_compiled filling.now.vars.now filling.now.moment condition.now ≡ ended verdict) }
{
    match condition {
        Condition::Equal { text, other } => compare(alloc, filling, text, other, Comparison::Equal),
        Condition::StartsWith { text, other } => {
            compare(alloc, filling, text, other, Comparison::Front)
        }
        Condition::EndsWith { text, other } => {
            compare(alloc, filling, text, other, Comparison::Back)
        }
        Condition::Contains { text, other } => {
            compare(alloc, filling, text, other, Comparison::Within)
        }
        Condition::Empty { text } => match filling.text(alloc, text)? {
            Some(text) => Ok(verdict_of(alloc, text.len() == 0)),
            None => Ok(Verdict::Overlong),
        },
        Condition::Regexp { .. } | Condition::InCache { .. } => unreachable!(),
    }
}

// Searches for a pattern in the text of a template.
fn judge_pattern<'r>(
    alloc: Global,
    slot: &mut Slot<'r>,
    text: &Template,
    pattern: &'r Regex,
    filling: &Filling<'_>,
) -> Result<Verdict, Memory>
    requires { FitsPattern pattern.now slot.old }
    ensures found { (written : List ℕ) → IsPatternOf pattern.now written
        → IfOk result (λ verdict. about_text (filled_within text.now filling.now.vars.now filling.now.captures.now filling.now.moment)
        (verdict_of_pattern written) ≡ ended verdict) }
    ensures fits { FitsPattern pattern.now slot.new }
{
    match filling.text(alloc, text)? {
        Some(text) => slot.search(alloc, pattern, text.as_slice()),
        None => Ok(Verdict::Overlong),
    }
}

// Asks a cache whether it has a key.
#[tactic(auto, using(crate::proofs::SpoolLemmas::kept_none))]
fn judge_cache<D: Desk, P: Keeper, L: Life>(
    alloc: Global,
    key: &Template,
    cache: Option<u32>,
    filling: &Filling<'_>,
    asks: &mut AskList,
    desk: &mut D,
    keep: &mut P,
    life: &mut L,
) -> Result<Verdict, ChainEnd>
    requires known { IsNumberBelow (D.parts desk.old).caches cache }
    requires alive { L.alive life.old ≡ true }
    ensures runs { RunsTo (both_led (D.leads desk.old desk.new) (kept_by P.rows P.append_faults P.other_faults keep.old keep.new)) (L.allowances life.old) (L.allowances life.new) filling.now.moment
        (asking_cache (filled_within key.now filling.now.vars.now filling.now.captures.now filling.now.moment) cache) asks.old asks.new result }
    ensures cause { HasCause (L.deaths life.old) (L.deaths life.new) (has_died_following result) }
    ensures alive { L.alive life.new ≡ not (has_died_following result) }
    ensures parts { D.parts desk.new ≡ D.parts desk.old }
    ensures settled { D.settled desk.old ≡ true → has_died_following result ≡ false → D.settled desk.new ≡ true }
    ensures later { P.append_faults keep.old ≤ P.append_faults keep.new }
    ensures others { P.other_faults keep.new ≡ P.other_faults keep.old }
{
    let Some(key) = filling.text(alloc, key)? else {
        return Ok(Verdict::Overlong);
    };
    ask_cache(
        alloc,
        cache,
        Call::Exists { key },
        filling.moment,
        asks,
        desk,
        keep,
        life,
    )?;
    Ok(verdict_of(alloc, is_flag_set(last_answer(asks))))
}

// Whether a cache answered that it has a key.
fn is_flag_set(answer: &AskAnswer) -> bool
    ensures { result ≡ is_flag_set answer.now }
{
    match answer {
        AskAnswer::Cache(Answer::Flag(flag)) => *flag,
        _ => false,
    }
}

// Judges a condition.
#[tactic(auto, using(crate::proofs::SpoolLemmas::kept_none))]
fn judge_condition<'r, D: Desk, P: Keeper, L: Life>(
    alloc: Global,
    slot: &mut Slot<'r>,
    condition: &'r Condition,
    filling: &Filling<'_>,
    asks: &mut AskList,
    desk: &mut D,
    keep: &mut P,
    life: &mut L,
) -> Result<Verdict, ChainEnd>
    requires fits { FitsCondition condition.now slot.old }
    requires captures { filling.now.captures.now ≡ [] }
    requires known { ConditionAsksBelow (D.parts desk.old) condition.now }
    requires alive { L.alive life.old ≡ true }
    ensures runs { (names : List (List ℕ)) (name : ConditionName) (argument : Option (List ℕ)) → IsConditionOf names condition.now name argument
        → RunsTo (both_led (D.leads desk.old desk.new) (kept_by P.rows P.append_faults P.other_faults keep.old keep.new)) (L.allowances life.old) (L.allowances life.new) filling.now.moment
        (course_of_condition names filling.now.vars.now filling.now.moment name argument) asks.old asks.new result }
    ensures fits { FitsCondition condition.now slot.new }
    ensures cause { HasCause (L.deaths life.old) (L.deaths life.new) (has_died_following result) }
    ensures alive { L.alive life.new ≡ not (has_died_following result) }
    ensures parts { D.parts desk.new ≡ D.parts desk.old }
    ensures settled { D.settled desk.old ≡ true → has_died_following result ≡ false → D.settled desk.new ≡ true }
    ensures later { P.append_faults keep.old ≤ P.append_faults keep.new }
    ensures others { P.other_faults keep.new ≡ P.other_faults keep.old }
{
    match condition {
        Condition::Regexp { text, pattern } => {
            Ok(judge_pattern(alloc, slot, text, pattern, filling)?)
        }
        Condition::InCache { key, cache } => {
            judge_cache(alloc, key, *cache, filling, asks, desk, keep, life)
        }
        _ => Ok(judge_texts(alloc, condition, filling)?),
    }
}

/// Judges the test of a rule, with the search that is kept for its pattern.
#[tactic(auto, using(crate::proofs::SpoolLemmas::kept_none))]
pub fn judge<'r, D: Desk, P: Keeper, L: Life>(
    alloc: Global,
    slot: &mut Slot<'r>,
    test: &'r Test,
    vars: &Vars,
    moment: u64,
    asks: &mut AskList,
    desk: &mut D,
    keep: &mut P,
    life: &mut L,
) -> Result<Verdict, ChainEnd>
    requires fits { FitsTest test.now slot.old }
    requires known { TestAsksBelow (D.parts desk.old) test.now }
    requires alive { L.alive life.old ≡ true }
    ensures runs { (names : List (List ℕ)) (written : WrittenTest) → IsTestOf names test.now written
        → RunsTo (both_led (D.leads desk.old desk.new) (kept_by P.rows P.append_faults P.other_faults keep.old keep.new)) (L.allowances life.old) (L.allowances life.new) moment
        (course_of_test names vars.now moment written) asks.old asks.new result }
    ensures fits { FitsTest test.now slot.new }
    ensures cause { HasCause (L.deaths life.old) (L.deaths life.new) (has_died_following result) }
    ensures alive { L.alive life.new ≡ not (has_died_following result) }
    ensures parts { D.parts desk.new ≡ D.parts desk.old }
    ensures settled { D.settled desk.old ≡ true → has_died_following result ≡ false → D.settled desk.new ≡ true }
    ensures later { P.append_faults keep.old ≤ P.append_faults keep.new }
    ensures others { P.other_faults keep.new ≡ P.other_faults keep.old }
{
    match test {
        Test::Always => Ok(Verdict::Met(BytesList::new(alloc))),
        Test::Matches { subject, pattern } => {
            Ok(slot.search(alloc, pattern, vars.get(subject.variable()))?)
        }
        Test::Holds { negated, condition } => {
            let captures = BytesList::new(alloc);
            let filling = Filling {
                vars,
                captures: &captures,
                moment,
            };
            let verdict = judge_condition(
                alloc, slot, condition, &filling, asks, desk, keep, life,
            )?;
            Ok(verdict_when(alloc, *negated, verdict))
        }
    }
}
