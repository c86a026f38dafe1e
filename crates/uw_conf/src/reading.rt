// A text, line by line.
ghost use Rattle.std.specs.Prelude.{◌≡◌, ◌≤◌, ◌++◌, ◌∷◌, [], length, IfOk, OnOk};
ghost use Rattle.std.specs.Str.Lines.{lines};
ghost use Rattle.uw_conf.specs.Lines.{option};
ghost use Rattle.uw_conf.specs.Reading.{blank_conf, blank_reading, read_line, with_conf, with_line, with_option};
ghost use Rattle.uw_conf.specs.Routes.{rule_in, line_of_rule, rules_inside};
ghost use Rattle.uw_conf.specs.ReadingSteps.{Makes, PutsRules, StepsOver, WalksOver, line_seen, progress_seen};
ghost use Rattle.uw_conf.specs.Sound.{ArePartsOfSite};
ghost use Rattle.uw_rules.specs.declared.grammar.Table.TheVariants as tables;
ghost use Rattle.uw_rules.specs.Tables.{AreRuleLines};

use crate::conf::Options;
use crate::lines::{LineKind, is_utf8, line_of, next_line};
use crate::options::take_option;
use crate::refusal::Refusal;
use crate::{ConfFault, ConfKind};
use std::alloc::Global;
use uw_base::texts::{is, trim_blanks};
use uw_base::{Bytes, Memory, NumberList};
use uw_model::CacheConfList;
use uw_rules::{RuleLine, RuleLineList, Table, table_of_option};

/// Where a reading stands: before any section, in the section `uwsgi` or in another; and what it has read, with the
/// lines of the rules of requests and of tasks.
#[derive(Drop)]
pub struct Progress {
    pub inside: Option<bool>,
    pub options: Options,
    pub routes: RuleLineList,
    pub tasks: RuleLineList,
}

/// A reading past refused lines, with the first of them that is no rule's.
#[derive(Drop)]
pub struct Walk {
    pub progress: Progress,
    pub fault: Option<ConfFault>,
}

// What an empty text says.
fn blank_options(alloc: Global) -> Options
    ensures { result ≡ blank_conf }
{
    Options {
        buffer_size: 4_096,
        workers: 1,
        harakiri: 0,
        expire_freq: 3,
        spoolers: 1,
        spool_freq: 30,
        socket: Bytes::new(alloc),
        caches: CacheConfList::new(alloc),
        areas: NumberList::new(alloc),
    }
}

// Puts the line behind the others.
fn put_rule(
    alloc: Global,
    rules: &mut RuleLineList,
    number: u32,
    name: &[u8],
    value: &[u8],
) -> Result<(), Memory>
    ensures { OnOk result (rules.new ≡ rules.old ++ record { line = number; form = name.now; text = value.now } ∷ []) }
{
    let form = Bytes::from_slice(alloc, name)?;
    let text = Bytes::from_slice(alloc, value)?;
    rules.push(RuleLine {
        line: number,
        form,
        text,
    })
}

impl Progress {
    fn new(alloc: Global) -> Progress
        ensures reading { progress_seen result ≡ blank_reading }
        ensures routes { result.routes ≡ [] }
        ensures tasks { result.tasks ≡ [] }
    {
        Progress {
            inside: None,
            options: blank_options(alloc),
            routes: RuleLineList::new(alloc),
            tasks: RuleLineList::new(alloc),
        }
    }

    // Puts the line into the table of its option, where that is a rule's.
    fn put_in_table(
        &mut self,
        alloc: Global,
        number: u32,
        name: &[u8],
        value: &[u8],
    ) -> Result<(), Memory>
        ensures reading { OnOk result (progress_seen self.new ≡ progress_seen self.old) }
        ensures routes { OnOk result (self.new.routes ≡ self.old.routes ++ line_of_rule tables.Requests number (option name.now value.now)) }
        ensures tasks { OnOk result (self.new.tasks ≡ self.old.tasks ++ line_of_rule tables.Tasks number (option name.now value.now)) }
    {
        match table_of_option(name) {
            Some(Table::Requests) => put_rule(alloc, &mut self.routes, number, name, value),
            Some(Table::Tasks) => put_rule(alloc, &mut self.tasks, number, name, value),
            None => Ok(()),
        }
    }

    // An option of the section, which may be a rule.
    fn take_setting(
        &mut self,
        alloc: Global,
        number: u32,
        name: &[u8],
        value: &[u8],
    ) -> Result<(), Refusal>
        requires { ArePartsOfSite self.old.options.caches self.old.options.areas }
        ensures reading { Makes (progress_seen self.old) (progress_seen self.new) result
            (with_conf (progress_seen self.old) (with_option self.old.options name.now value.now)) }
        ensures routes { PutsRules self.old.routes self.new.routes result (line_of_rule tables.Requests number (option name.now value.now)) }
        ensures tasks { PutsRules self.old.tasks self.new.tasks result (line_of_rule tables.Tasks number (option name.now value.now)) }
    {
        self.put_in_table(alloc, number, name, value)?;
        take_option(alloc, &mut self.options, name, value)
    }

    // A line that was told what it is.
    fn take_line(&mut self, alloc: Global, number: u32, line: LineKind<'_>) -> Result<(), Refusal>
        requires { ArePartsOfSite self.old.options.caches self.old.options.areas }
        ensures reading { Makes (progress_seen self.old) (progress_seen self.new) result
            (with_line (progress_seen self.old) (line_seen line.entry)) }
        ensures routes { PutsRules self.old.routes self.new.routes result
            (rules_inside self.old.inside (line_of_rule tables.Requests number (line_seen line.entry))) }
        ensures tasks { PutsRules self.old.tasks self.new.tasks result
            (rules_inside self.old.inside (line_of_rule tables.Tasks number (line_seen line.entry))) }
    {
        match line {
            LineKind::Nothing => Ok(()),
            LineKind::Section(name) => {
                self.inside = Some(is(name, b"uwsgi"));
                Ok(())
            }
            LineKind::Setting { name, value } => match self.inside {
                None => Err(Refusal::Refused(ConfKind::BadLine)),
                Some(false) => Ok(()),
                Some(true) => self.take_setting(alloc, number, name, value),
            },
            LineKind::Broken => match self.inside {
                Some(false) => Ok(()),
                _ => Err(Refusal::Refused(ConfKind::BadLine)),
            },
        }
    }

    // One line, with its number.
    fn read_line(&mut self, alloc: Global, number: u32, line: &[u8]) -> Result<(), Refusal>
        requires { ArePartsOfSite self.old.options.caches self.old.options.areas }
        ensures reading { Makes (progress_seen self.old) (progress_seen self.new) result
            (read_line (progress_seen self.old) line.now) }
        ensures routes { PutsRules self.old.routes self.new.routes result (rule_in tables.Requests self.old.inside number line.now) }
        ensures tasks { PutsRules self.old.tasks self.new.tasks result (rule_in tables.Tasks self.old.inside number line.now) }
    {
        if !is_utf8(line) {
            return Err(Refusal::Refused(ConfKind::BadLine));
        }
        self.take_line(alloc, number, line_of(trim_blanks(line)))
    }
}

impl Walk {
    // Goes over one more line: what it says counts, or it is refused and says nothing.
    fn step(&mut self, alloc: Global, number: u32, line: &[u8]) -> Result<(), Memory>
        requires { ArePartsOfSite self.old.progress.options.caches self.old.progress.options.areas }
        ensures steps { OnOk result (StepsOver number line.now self.old self.new) }
    {
        match self.progress.read_line(alloc, number, line) {
            Ok(()) => Ok(()),
            Err(Refusal::Refused(kind)) => {
                self.fault = self.fault.or(Some(ConfFault { line: number, kind }));
                Ok(())
            }
            Err(Refusal::Memory) => Err(Memory),
        }
    }
}

/// All lines of a text, past each that is refused.
pub fn walk_over(alloc: Global, text: &[u8]) -> Result<Walk, Memory>
    requires { length text.now ≤ 1048576 }
    ensures over { IfOk result (WalksOver (lines text.now)) }
    ensures sound { IfOk result (λ walk. ArePartsOfSite walk.progress.options.caches walk.progress.options.areas) }
    ensures routes { IfOk result (λ walk. AreRuleLines walk.progress.routes) }
    ensures tasks { IfOk result (λ walk. AreRuleLines walk.progress.tasks) }
{
    let mut walk = Walk {
        progress: Progress::new(alloc),
        fault: None,
    };
    let mut left = text;
    let mut number = 1;
    'lines: while let Some((line, rest)) = next_line(left) {
        walk.step(alloc, number, line)?;
        left = rest;
        number += 1;
    }
    Ok(walk)
}
