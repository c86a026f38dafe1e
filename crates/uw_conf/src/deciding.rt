// What a configuration says, or its least refused line, from a walk over its lines and from the tables of its rules.
ghost use Rattle.std.specs.Prelude.{◌≡◌, ◌≤◌, ◌<◌, ◌^◌, ℕ, List, Some, Ok, IfOk, length};
ghost use Rattle.uw_rules.specs.Compiled.{rules_of};
ghost use Rattle.uw_rules.specs.PartNumbers.{AskPartsBelow};
ghost use Rattle.uw_rules.specs.Tables.{AreRuleLines};
ghost use Rattle.uw_conf.specs.Configuration.{lesser_fault};
ghost use Rattle.uw_conf.specs.DecidingSteps.{Decides, ReadsLines, ReadsTable};
ghost use Rattle.uw_conf.specs.Given.{ReadsConf, parts_in};
ghost use Rattle.uw_conf.specs.ReadingSteps.{WalksOver};
ghost use Rattle.uw_conf.specs.Sound.{ArePartsOfSite};

use crate::reading::{Walk, walk_over};
use crate::{Conf, ConfError, ConfFault, ConfKind};
use std::alloc::Global;
use uw_base::{BytesList, Memory};
use uw_rules::{Patterns, RuleLineList, RuleTable, RulesError, read_rules};

/// The most bytes of a text.
const MOST_TEXT_BYTES: usize = 1_048_576;

// The fault of the lesser line.
fn lesser(own: Option<ConfFault>, rule: ConfFault) -> ConfFault
    ensures { lesser_fault own (Some rule) ≡ Some result }
{
    match own {
        Some(fault) if fault.line <= rule.line => fault,
        _ => rule,
    }
}

// The configuration of both tables, unless another line is refused.
fn with_tables(walk: Walk, routes: RuleTable, tasks: RuleTable) -> Result<Conf, ConfFault>
    ensures { Decides walk (Ok routes) (Ok tasks) result }
{
    match walk.fault {
        None => Ok(walk.progress.options.with_rules(routes, tasks)),
        Some(fault) => Err(fault),
    }
}

// The configuration, or its least refused line, behind a walk over its lines and the readings of its two tables.
fn decided(
    walk: Walk,
    routes: Result<RuleTable, ConfFault>,
    tasks: Result<RuleTable, ConfFault>,
) -> Result<Conf, ConfFault>
    ensures { Decides walk routes tasks result }
{
    match routes {
        Ok(routes) => match tasks {
            Ok(tasks) => with_tables(walk, routes, tasks),
            Err(task) => Err(lesser(walk.fault, task)),
        },
        Err(route) => match tasks {
            Ok(_) => Err(lesser(walk.fault, route)),
            Err(task) => Err(lesser(walk.fault, lesser(Some(route), task))),
        },
    }
}

// A table of rules, or its first refused line.
fn read_table<M: Patterns>(
    alloc: Global,
    rules: &RuleLineList,
    names: &BytesList,
    areas: u32,
    make: &mut M,
) -> Result<Result<RuleTable, ConfFault>, Memory>
    requires rules { AreRuleLines rules.now }
    requires names { length names.now < 2 ^ 32 }
    ensures reads { ReadsTable (record { caches = names.now; areas = areas }) rules.now (M.faults make.old) (M.faults make.new) result }
    ensures later { M.faults make.old ≤ M.faults make.new }
{
    match read_rules(alloc, rules, names, areas, make) {
        Ok(table) => Ok(Ok(table)),
        Err(RulesError::Refused { line, kind }) => Ok(Err(ConfFault {
            line,
            kind: ConfKind::Rule(kind),
        })),
        Err(RulesError::Memory) => Err(Memory),
    }
}

// What lines say, behind a walk over them. Both tables are read, since the least line counts.
fn read_tables<M: Patterns>(alloc: Global, walk: Walk, make: &mut M) -> Result<Conf, ConfError>
    requires routes { AreRuleLines walk.progress.routes }
    requires tasks { AreRuleLines walk.progress.tasks }
    requires parts { ArePartsOfSite walk.progress.options.caches walk.progress.options.areas }
    ensures { (lines : List (List ℕ)) → WalksOver lines walk
        → ReadsLines lines (M.faults make.old) (M.faults make.new) result }
{
    let names = walk.progress.options.caches.names();
    let areas = walk.progress.options.areas.as_slice().len() as u32;
    let routes = read_table(alloc, &walk.progress.routes, names, areas, make)?;
    let tasks = read_table(alloc, &walk.progress.tasks, names, areas, make)?;
    match decided(walk, routes, tasks) {
        Ok(conf) => Ok(conf),
        Err(fault) => Err(ConfError::Refused(fault)),
    }
}

/// What a configuration says: its options in the section `uwsgi`, each on a line of its own, with its rules, whose
/// patterns `make` compiles; or its least refused line. A text that is too large is refused as a whole. A rule is
/// refused as `PatternRefused` only where `make` refused a pattern in this reading and counted that. The rules ask caches and
/// areas of the configuration alone, by their places in it.
pub fn read_conf<M: Patterns>(alloc: Global, text: &[u8], make: &mut M) -> Result<Conf, ConfError>
    requires { length text.now < 2 ^ 32 }
    ensures says { ReadsConf text.now (M.faults make.old) (M.faults make.new) result }
    ensures sound { IfOk result (λ conf. ArePartsOfSite conf.caches conf.areas) }
    ensures routes { IfOk result (λ conf. AskPartsBelow (parts_in conf) (rules_of conf.routes)) }
    ensures tasks { IfOk result (λ conf. AskPartsBelow (parts_in conf) (rules_of conf.tasks)) }
{
    if MOST_TEXT_BYTES < text.len() {
        return Err(ConfError::Refused(ConfFault {
            line: 0,
            kind: ConfKind::TooLarge {
                bytes: text.len() as u64,
                limit: MOST_TEXT_BYTES as u64,
            },
        }));
    }
    let walk = walk_over(alloc, text)?;
    read_tables(alloc, walk, make)
}
