// The texts of faults, for a person.
ghost use Rattle.std.specs.Prelude.{◌≡◌, ◌++◌, IfOk};
ghost use Rattle.std.specs.Fmt.{decimal};
ghost use Rattle.uw_ends.specs.declared.ends.RunFault.TheVariants as faults;
ghost use Rattle.uw_ends.specs.Ends.{name_of, name_of_rule, text_of, text_of_packet};

use crate::{BadPacket, RunFault};
use std::alloc::Global;
use uw_base::{Bytes, Memory, put_decimal};
use uw_conf::{ConfFault, ConfKind};
use uw_rules::RuleKind;

/// The text of a fault, for a person, without a line feed.
pub fn fault_text(alloc: Global, fault: &RunFault) -> Result<Bytes, Memory>
    ensures { IfOk result (λ text. text ≡ text_of fault.now) }
{
    match fault {
        RunFault::Usage => Bytes::from_slice(
            alloc,
            b"usage: uwsgi_server FILE SPOOL pipe, spool, steps, load or serve",
        ),
        RunFault::Conf(fault) => conf_text(alloc, fault),
        RunFault::ReadFault => Bytes::from_slice(alloc, b"read failed"),
        RunFault::WriteFault => Bytes::from_slice(alloc, b"write failed"),
        RunFault::Truncated { got, want } => {
            with_numbers(alloc, b"truncated: got ", *got, b", want ", *want)
        }
        RunFault::BadPacket(packet) => packet_text(alloc, packet),
        RunFault::KeeperFault => Bytes::from_slice(alloc, b"spool failed"),
        RunFault::Memory => Bytes::from_slice(alloc, b"out of memory"),
        RunFault::TooMany => Bytes::from_slice(alloc, b"too many"),
        RunFault::NotStarted => Bytes::from_slice(alloc, b"not started"),
        RunFault::NoSocket => Bytes::from_slice(alloc, b"no socket"),
        RunFault::NotBound => Bytes::from_slice(alloc, b"not bound"),
    }
}

// The text of a refused line of the configuration.
fn conf_text(alloc: Global, fault: &ConfFault) -> Result<Bytes, Memory>
    ensures { IfOk result (λ text. text ≡ text_of (faults.Conf fault.now)) }
{
    let mut text = with_number(alloc, b"conf line ", u64::from(fault.line))?;
    text.append(b": ")?;
    text.append(kind_name(&fault.kind))?;
    Ok(text)
}

fn kind_name(kind: &ConfKind) -> &'static [u8]
    ensures { result.now ≡ name_of kind.now }
{
    match kind {
        ConfKind::BadLine => b"BadLine",
        ConfKind::UnknownOption => b"UnknownOption",
        ConfKind::BadValue => b"BadValue",
        ConfKind::Missing => b"Missing",
        ConfKind::NameTwice => b"NameTwice",
        ConfKind::TooLarge { .. } => b"TooLarge",
        ConfKind::Rule(kind) => rule_name(kind),
    }
}

fn rule_name(kind: &RuleKind) -> &'static [u8]
    ensures { result.now ≡ name_of_rule kind.now }
{
    match kind {
        RuleKind::BadRule => b"BadRule",
        RuleKind::BadPattern => b"BadPattern",
        RuleKind::PatternRefused => b"PatternRefused",
        RuleKind::UnknownCondition => b"UnknownCondition",
        RuleKind::UnknownAction => b"UnknownAction",
        RuleKind::LabelTwice => b"LabelTwice",
        RuleKind::LabelNotAhead => b"LabelNotAhead",
        RuleKind::BadTemplate => b"BadTemplate",
        RuleKind::TooManyRules => b"TooManyRules",
        RuleKind::UnknownName => b"UnknownName",
    }
}

fn packet_text(alloc: Global, packet: &BadPacket) -> Result<Bytes, Memory>
    ensures { IfOk result (λ text. text ≡ text_of_packet packet.now) }
{
    match packet {
        BadPacket::TooBig { size, limit } => with_numbers(
            alloc,
            b"packet too big: ",
            u64::from(*size),
            b" above ",
            u64::from(*limit),
        ),
        BadPacket::NoModifier { m1, m2 } => with_numbers(
            alloc,
            b"no modifier: ",
            u64::from(*m1),
            b", ",
            u64::from(*m2),
        ),
        BadPacket::BadBlock { at } => with_number(alloc, b"bad block at ", u64::from(*at)),
        BadPacket::BadLength => Bytes::from_slice(alloc, b"bad content length"),
        BadPacket::BadEvent { line } => with_number(alloc, b"bad event in line ", *line),
    }
}

// A text and a number behind it, in decimal.
fn with_number(alloc: Global, front: &[u8], number: u64) -> Result<Bytes, Memory>
    ensures { IfOk result (λ text. text ≡ front.now ++ decimal number) }
{
    let mut text = Bytes::from_slice(alloc, front)?;
    put_decimal(&mut text, number)?;
    Ok(text)
}

// A text and a number behind it, twice.
fn with_numbers(
    alloc: Global,
    front: &[u8],
    first: u64,
    middle: &[u8],
    second: u64,
) -> Result<Bytes, Memory>
    ensures { IfOk result (λ text. text ≡ front.now ++ decimal first ++ middle.now ++ decimal second) }
{
    let mut text = with_number(alloc, front, first)?;
    text.append(middle)?;
    put_decimal(&mut text, second)?;
    Ok(text)
}
