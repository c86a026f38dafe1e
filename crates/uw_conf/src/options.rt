// The options of the section.
ghost use Rattle.std.specs.Prelude.{◌≡◌, ◌==◌, if◌then◌else◌, length, Ok, Err};
ghost use Rattle.uw_conf.specs.ReadingSteps.{Makes};
ghost use Rattle.uw_conf.specs.AreaLines.{with_area};
ghost use Rattle.uw_conf.specs.Caches.{number_in, with_cache};
ghost use Rattle.uw_conf.specs.Reading.{is_passed_over, option_kind, set_areas, set_caches, set_number, set_option, with_option};
ghost use Rattle.uw_conf.specs.Sound.{ArePartsOfSite};
ghost use Rattle.uw_conf.specs.declared.conf.ConfKind.TheVariants as kinds;

use crate::ConfKind;
use crate::areas::add_area_line;
use crate::caches::add_cache_line;
use crate::conf::Options;
use crate::refusal::Refusal;
use crate::values::number_in;
use std::alloc::Global;
use uw_base::Bytes;
use uw_base::texts::{is, is_any};
use uw_rules::is_rule_option;

/// What an option of the section says.
#[derive(Clone, Copy, Debug, PartialEq, Eq)]
pub enum OptionKind {
    BufferSize,
    Workers,
    Harakiri,
    ExpireFreq,
    Spoolers,
    SpoolFreq,
    Socket,
    Cache,
    Area,
    /// A rule, which says nothing of the other options.
    Rule,
    /// Taken with any value, and without effect.
    NoEffect,
}

fn set_buffer_size(options: &mut Options, value: &[u8]) -> Result<(), Refusal>
    ensures { Makes options.old options.new result
        (set_number (number_in 1 65535 value.now) (λ n. record options.old { buffer_size = n })) }
{
    let Some(number) = number_in(1, 65_535, value) else {
        return Err(Refusal::Refused(ConfKind::BadValue));
    };
    options.buffer_size = number as u32;
    Ok(())
}

fn set_workers(options: &mut Options, value: &[u8]) -> Result<(), Refusal>
    ensures { Makes options.old options.new result
        (set_number (number_in 1 64 value.now) (λ n. record options.old { workers = n })) }
{
    let Some(number) = number_in(1, 64, value) else {
        return Err(Refusal::Refused(ConfKind::BadValue));
    };
    options.workers = number as u32;
    Ok(())
}

fn set_harakiri(options: &mut Options, value: &[u8]) -> Result<(), Refusal>
    ensures { Makes options.old options.new result
        (set_number (number_in 0 86400 value.now) (λ n. record options.old { harakiri = n })) }
{
    let Some(number) = number_in(0, 86_400, value) else {
        return Err(Refusal::Refused(ConfKind::BadValue));
    };
    options.harakiri = number;
    Ok(())
}

fn set_expire_freq(options: &mut Options, value: &[u8]) -> Result<(), Refusal>
    ensures { Makes options.old options.new result
        (set_number (number_in 1 3600 value.now) (λ n. record options.old { expire_freq = n })) }
{
    let Some(number) = number_in(1, 3_600, value) else {
        return Err(Refusal::Refused(ConfKind::BadValue));
    };
    options.expire_freq = number;
    Ok(())
}

fn set_spoolers(options: &mut Options, value: &[u8]) -> Result<(), Refusal>
    ensures { Makes options.old options.new result
        (set_number (number_in 1 16 value.now) (λ n. record options.old { spoolers = n })) }
{
    let Some(number) = number_in(1, 16, value) else {
        return Err(Refusal::Refused(ConfKind::BadValue));
    };
    options.spoolers = number as u32;
    Ok(())
}

fn set_spool_freq(options: &mut Options, value: &[u8]) -> Result<(), Refusal>
    ensures { Makes options.old options.new result
        (set_number (number_in 1 3600 value.now) (λ n. record options.old { spool_freq = n })) }
{
    let Some(number) = number_in(1, 3_600, value) else {
        return Err(Refusal::Refused(ConfKind::BadValue));
    };
    options.spool_freq = number;
    Ok(())
}

fn set_socket(alloc: Global, options: &mut Options, value: &[u8]) -> Result<(), Refusal>
    ensures { Makes options.old options.new result
        (if length value.now == 0 then Err kinds.BadValue else Ok (record options.old { socket = value.now })) }
{
    if value.is_empty() {
        return Err(Refusal::Refused(ConfKind::BadValue));
    }
    options.socket = Bytes::from_slice(alloc, value)?;
    Ok(())
}

fn add_cache(alloc: Global, options: &mut Options, value: &[u8]) -> Result<(), Refusal>
    requires { ArePartsOfSite options.old.caches options.old.areas }
    ensures { Makes options.old options.new result
        (set_caches options.old (with_cache options.old.areas options.old.caches value.now)) }
{
    add_cache_line(alloc, options.areas.as_slice(), &mut options.caches, value)
}

fn add_area(options: &mut Options, value: &[u8]) -> Result<(), Refusal>
    requires { ArePartsOfSite options.old.caches options.old.areas }
    ensures { Makes options.old options.new result
        (set_areas options.old (with_area options.old.caches options.old.areas value.now)) }
{
    add_area_line(options.caches.as_slice(), &mut options.areas, value)
}

// Options that are taken with any value, and have no effect.
fn is_passed_over(name: &[u8]) -> bool
    ensures { result ≡ is_passed_over name.now }
{
    is_any(
        name,
        &[
            b"spooler",
            b"master",
            b"vacuum",
            b"die-on-term",
            b"plugin",
            b"plugins",
            b"need-app",
            b"strict",
            b"disable-logging",
            b"chmod-socket",
            b"chown-socket",
            b"uid",
            b"gid",
            b"chdir",
            b"pidfile",
            b"threads",
            b"enable-threads",
            b"listen",
            b"thunder-lock",
        ],
    )
}

// The option of a name.
fn option_kind(name: &[u8]) -> Option<OptionKind>
    ensures { result ≡ option_kind name.now }
{
    if is(name, b"buffer-size") {
        return Some(OptionKind::BufferSize);
    }
    if is(name, b"workers") || is(name, b"processes") {
        return Some(OptionKind::Workers);
    }
    if is(name, b"harakiri") {
        return Some(OptionKind::Harakiri);
    }
    if is(name, b"cache-expire-freq") {
        return Some(OptionKind::ExpireFreq);
    }
    if is(name, b"spooler-processes") {
        return Some(OptionKind::Spoolers);
    }
    if is(name, b"spooler-frequency") {
        return Some(OptionKind::SpoolFreq);
    }
    if is(name, b"socket") {
        return Some(OptionKind::Socket);
    }
    if is(name, b"cache2") {
        return Some(OptionKind::Cache);
    }
    if is(name, b"sharedarea") {
        return Some(OptionKind::Area);
    }
    if is_rule_option(name) {
        return Some(OptionKind::Rule);
    }
    if is_passed_over(name) {
        return Some(OptionKind::NoEffect);
    }
    None
}

// An option with its value.
fn set_option(
    alloc: Global,
    options: &mut Options,
    kind: OptionKind,
    value: &[u8],
) -> Result<(), Refusal>
    requires { ArePartsOfSite options.old.caches options.old.areas }
    ensures { Makes options.old options.new result (set_option options.old kind value.now) }
{
    match kind {
        OptionKind::BufferSize => set_buffer_size(options, value),
        OptionKind::Workers => set_workers(options, value),
        OptionKind::Harakiri => set_harakiri(options, value),
        OptionKind::ExpireFreq => set_expire_freq(options, value),
        OptionKind::Spoolers => set_spoolers(options, value),
        OptionKind::SpoolFreq => set_spool_freq(options, value),
        OptionKind::Socket => set_socket(alloc, options, value),
        OptionKind::Cache => add_cache(alloc, options, value),
        OptionKind::Area => add_area(options, value),
        OptionKind::Rule | OptionKind::NoEffect => Ok(()),
    }
}

/// Takes one option with its value, or says why it is refused and changes nothing.
pub fn take_option(
    alloc: Global,
    options: &mut Options,
    name: &[u8],
    value: &[u8],
) -> Result<(), Refusal>
    requires { ArePartsOfSite options.old.caches options.old.areas }
    ensures { Makes options.old options.new result (with_option options.old name.now value.now) }
{
    match option_kind(name) {
        Some(kind) => set_option(alloc, options, kind, value),
        None => Err(Refusal::Refused(ConfKind::UnknownOption)),
    }
}
