// Configurations and rows that the tests run over.
ghost use Rattle.std.specs.Prelude.{IfOk};
ghost use Rattle.uw_conf.specs.Given.{parts_in};
ghost use Rattle.uw_conf.specs.Sound.{ArePartsOfSite};
ghost use Rattle.uw_keeper.specs.Rows.{AreRows};
ghost use Rattle.uw_rules.specs.Compiled.{rules_of};
ghost use Rattle.uw_rules.specs.PartNumbers.{AskPartsBelow};

use std::alloc::Global;
use std::process::Abort;
use uw_base::{Bytes, Memory};
use uw_conf::{Conf, ConfError, read_conf};
use uw_keeper::Row;
use uw_rules::RegexPatterns;

/// What a text says, no line of which may be refused.
pub fn conf_of(rt: &impl Abort, alloc: Global, text: &[u8]) -> Result<Conf, Memory>
    ensures parts { IfOk result (λ conf. ArePartsOfSite conf.caches conf.areas) }
    ensures routes { IfOk result (λ conf. AskPartsBelow (parts_in conf) (rules_of conf.routes)) }
    ensures tasks { IfOk result (λ conf. AskPartsBelow (parts_in conf) (rules_of conf.tasks)) }
{
    assert!(rt; text.len() < 1_000_000);
    let mut make = RegexPatterns::new(Vec::new(alloc));
    match read_conf(alloc, text, &mut make) {
        Ok(conf) => Ok(conf),
        Err(ConfError::Refused(fault)) => panic!(rt; "line {}: {:?}", fault.line, fault.kind),
        Err(ConfError::Memory) => Err(Memory),
    }
}

/// The row of a number from 1 on, without bytes; none for 0.
pub fn rows_of(alloc: Global, number: u64) -> Result<Vec<Row>, Memory>
    ensures { IfOk result (λ rows. AreRows rows.items) }
{
    if number == 0 {
        return Ok(Vec::new(alloc));
    }
    let row = Row {
        number,
        bytes: Bytes::new(alloc),
    };
    Ok(Vec::from_array(alloc, [row])?)
}
