// Patterns with what searches for them, which is made when it is first wanted and kept.
ghost use Rattle.std.specs.Prelude.{◌≡◌, ◌-◌, ℕ, List, IfOk, None, min};
ghost use Rattle.regex.specs.Locations.{AreLocationsOf, location_count};
ghost use Rattle.regex.specs.Patterns.{Match, find};
ghost use Rattle.regex.specs.Bytes.{matcher_pattern};
ghost use Rattle.uw_rules.specs.Patterns.{IsPatternOf};
ghost use Rattle.uw_chain.specs.KeptSearches.{FitTable, FitsPattern, IsSearchOf};
ghost use Rattle.uw_chain.specs.Tests.{group_text, group_texts, verdict_of_match, verdict_of_pattern};

use crate::verdict::Verdict;
use regex::bytes::{CaptureLocations, Matcher, Regex};
use std::alloc::Global;
use uw_base::{Bytes, BytesList, Memory};
use uw_rules::RuleTable;

// The most groups of a pattern that are read: the whole match, and nine captures.
const MOST_GROUPS: usize = 10;

// What searches for one pattern.
#[derive(Drop)]
pub struct Search<'r> {
    matcher: Matcher<'r>,
    locations: CaptureLocations,
}

impl<'r> Search<'r> {
    fn new(alloc: Global, pattern: &'r Regex) -> Result<Search<'r>, Memory>
        ensures { IfOk result (IsSearchOf pattern.now) }
    {
        Ok(Search {
            matcher: pattern.matcher(alloc)?,
            locations: pattern.capture_locations(alloc)?,
        })
    }

    // Searches anywhere in a subject.
    fn search(&mut self, alloc: Global, subject: &[u8]) -> Result<Verdict, Memory>
        ensures found { IfOk result (λ verdict. verdict ≡ verdict_of_match subject.now (location_count self.old.locations) (find (matcher_pattern self.old.matcher) subject.now 0)) }
        ensures pattern { matcher_pattern self.new.matcher ≡ matcher_pattern self.old.matcher }
        ensures groups { location_count self.new.locations ≡ location_count self.old.locations }
    {
        if self
            .matcher
            .captures_read(&mut self.locations, subject)
            .is_none()
        {
            return Ok(Verdict::Missed);
        }
        Ok(Verdict::Met(captures(alloc, &self.locations, subject)?))
    }
}

// The bytes of a group, none where it took no part.
fn group_text<'h>(subject: &'h [u8], span: Option<(usize, usize)>) -> &'h [u8]
    ensures { result.now ≡ group_text subject.now span }
{
    match span {
        Some((start, end)) => subject.get(start..end).unwrap_or(&[]),
        None => &[],
    }
}

// The captures of a match, at most nine.
fn captures(
    alloc: Global,
    locations: &CaptureLocations,
    subject: &[u8],
) -> Result<BytesList, Memory>
    ensures { (found : Match) → AreLocationsOf found locations.now
        → IfOk result (λ texts. texts ≡ group_texts subject.now found (min 9 (location_count locations.now - 1)) 1) }
{
    let mut texts = BytesList::new(alloc);
    for group in 1..locations.len().min(MOST_GROUPS) {
        let text = group_text(subject, locations.get(group));
        texts.push(Bytes::from_slice(alloc, text)?)?;
    }
    Ok(texts)
}

/// What searches for the pattern of one rule, if it was made.
#[derive(Drop)]
pub struct Slot<'r> {
    made: Option<Search<'r>>,
}

impl<'r> Slot<'r> {
    fn new() -> Slot<'r>
        ensures { result.made ≡ None }
    {
        Slot { made: None }
    }

    /// Searches for the rule's pattern anywhere in a subject.
    pub fn search(
        &mut self,
        alloc: Global,
        pattern: &'r Regex,
        subject: &[u8],
    ) -> Result<Verdict, Memory>
        requires { FitsPattern pattern.now self.old }
        ensures found { (text : List ℕ) → IsPatternOf pattern.now text
            → IfOk result (λ verdict. verdict ≡ verdict_of_pattern text subject.now) }
        ensures fits { FitsPattern pattern.now self.new }
    {
        if let Some(search) = &mut self.made {
            return search.search(alloc, subject);
        }
        self.search_first(alloc, pattern, subject)
    }

    // Makes what searches, and searches. It stands apart, and so does its room on the stack, for which a search that was
    // made has no use.
    #[cold]
    #[inline(never)]
    fn search_first(
        &mut self,
        alloc: Global,
        pattern: &'r Regex,
        subject: &[u8],
    ) -> Result<Verdict, Memory>
        requires { FitsPattern pattern.now self.old }
        ensures found { (text : List ℕ) → IsPatternOf pattern.now text
            → IfOk result (λ verdict. verdict ≡ verdict_of_pattern text subject.now) }
        ensures fits { FitsPattern pattern.now self.new }
    {
        let mut search = Search::new(alloc, pattern)?;
        let verdict = search.search(alloc, subject)?;
        self.made = Some(search);
        Ok(verdict)
    }
}

/// What searches for the patterns of a table of rules, made when its rule is first reached. A worker keeps it, since a
/// search costs far less than what it is made of.
#[derive(Drop)]
pub struct Searches<'r> {
    pub(crate) slots: Vec<Slot<'r>>,
}

impl<'r> Searches<'r> {
    /// None made, for the rules of a table.
    pub fn new(alloc: Global, table: &'r RuleTable) -> Result<Searches<'r>, Memory>
        ensures { IfOk result (FitTable table.now) }
    {
        let mut slots = Vec::with_capacity(alloc, table.len())?;
        for _ in 0..table.len() {
            slots.push(Slot::new())?;
        }
        Ok(Searches { slots })
    }
}
