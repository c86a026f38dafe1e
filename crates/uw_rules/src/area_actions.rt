// The actions of areas, compiled.
ghost use Rattle.std.specs.Prelude.{◌≡◌, ◌<◌, ◌^◌, codes, IfOk, None, []};
ghost use Rattle.std.specs.Option.{option_copied};
ghost use Rattle.uw_rules.specs.declared.grammar.ActionName.TheVariants as actions;
ghost use Rattle.uw_rules.specs.declared.compiled.AreaStep.TheVariants as steps;
ghost use Rattle.uw_rules.specs.CheckSteps.{IsShortText};
ghost use Rattle.uw_rules.specs.Compiled.{action_meant, area_step, number_under, place_under, width_under};
ghost use Rattle.uw_rules.specs.CompileSteps.{HasGoodTemplates, action_shape};

use crate::arguments::text_of_key;
use crate::checks::width_of;
use crate::compiled::{Action, AreaStep};
use crate::texts::{number_under, template_at, text_if_any};
use std::alloc::Global;
use uw_base::Memory;
use uw_model::Width;

// The place under its key.
fn place_under(argument: Option<&[u8]>) -> u64
    ensures { result ≡ place_under (option_copied argument.entry) }
{
    number_under(argument, b"at", 0)
}

// The width under its key.
fn width_under(argument: Option<&[u8]>) -> Width
    ensures { result ≡ width_under (option_copied argument.entry) }
{
    match text_of_key(argument, b"width") {
        Some(text) => width_of(text).unwrap_or(Width::W8),
        None => Width::W8,
    }
}

// How much is added, or taken.
fn amount_under(argument: Option<&[u8]>) -> u64
    ensures { result ≡ number_under (codes "by") 1 (option_copied argument.entry) }
{
    number_under(argument, b"by", 1)
}

/// What `arearead` asks.
pub fn read(argument: Option<&[u8]>) -> AreaStep
    ensures { result ≡ steps.Read (place_under (option_copied argument.entry)) (number_under (codes "len") 0 (option_copied argument.entry)) }
{
    AreaStep::Read {
        at: place_under(argument),
        len: number_under(argument, b"len", 0),
    }
}

/// What `areanum` asks.
pub fn read_num(argument: Option<&[u8]>) -> AreaStep
    ensures { result ≡ steps.ReadNum (place_under (option_copied argument.entry)) (width_under (option_copied argument.entry)) }
{
    AreaStep::ReadNum {
        at: place_under(argument),
        width: width_under(argument),
    }
}

/// What `areaset` asks.
pub fn write_num(argument: Option<&[u8]>) -> AreaStep
    ensures { result ≡ steps.WriteNum (place_under (option_copied argument.entry)) (width_under (option_copied argument.entry))
        (number_under (codes "value") 0 (option_copied argument.entry)) }
{
    AreaStep::WriteNum {
        at: place_under(argument),
        width: width_under(argument),
        value: number_under(argument, b"value", 0),
    }
}

/// What `areainc` asks.
pub fn inc_num(argument: Option<&[u8]>) -> AreaStep
    ensures { result ≡ steps.IncNum (place_under (option_copied argument.entry)) (width_under (option_copied argument.entry))
        (number_under (codes "by") 1 (option_copied argument.entry)) }
{
    AreaStep::IncNum {
        at: place_under(argument),
        width: width_under(argument),
        by: amount_under(argument),
    }
}

/// What `areadec` asks.
pub fn dec_num(argument: Option<&[u8]>) -> AreaStep
    ensures { result ≡ steps.DecNum (place_under (option_copied argument.entry)) (width_under (option_copied argument.entry))
        (number_under (codes "by") 1 (option_copied argument.entry)) }
{
    AreaStep::DecNum {
        at: place_under(argument),
        width: width_under(argument),
        by: amount_under(argument),
    }
}

/// An operation of an area that needs no text.
pub fn area_step(alloc: Global, step: AreaStep, argument: Option<&[u8]>) -> Result<Action, Memory>
    requires { number_under (codes "area") 0 (option_copied argument) < 2 ^ 32 }
    ensures { IfOk result (λ action. action ≡ area_step step (option_copied argument.entry)) }
{
    Ok(Action::Area {
        area: number_under(argument, b"area", 0) as u32,
        step,
        var: text_if_any(alloc, text_of_key(argument, b"var"))?,
    })
}

/// The action of `areawrite`.
pub fn area_write(alloc: Global, argument: Option<&[u8]>) -> Result<Action, Memory>
    requires area { number_under (codes "area") 0 (option_copied argument) < 2 ^ 32 }
    requires short { IsShortText (option_copied argument) }
    requires good { HasGoodTemplates (action_shape actions.AreaWrite) (option_copied argument) }
    ensures { IfOk result (λ action. action ≡ action_meant [] (λ _. None) actions.AreaWrite (option_copied argument.entry)) }
{
    let value = template_at(alloc, argument, b"value")?;
    Ok(Action::AreaWrite {
        area: number_under(argument, b"area", 0) as u32,
        at: place_under(argument),
        value,
        var: text_if_any(alloc, text_of_key(argument, b"var"))?,
    })
}
