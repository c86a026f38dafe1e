// The texts of an argument, compiled.
ghost use Rattle.std.specs.Prelude.{◌≡◌, IfOk};
ghost use Rattle.std.specs.Option.{option_copied};
ghost use Rattle.uw_rules.specs.Arguments.{text_of_key};
ghost use Rattle.uw_rules.specs.CheckSteps.{IsShortText};
ghost use Rattle.uw_rules.specs.Compiled.{number_under, or_empty, or_one, or_zero};
ghost use Rattle.uw_rules.specs.CompileSteps.{IsGoodTemplate};

use crate::arguments::text_of_key;
use std::alloc::Global;
use uw_base::{Bytes, Memory, read_decimal, read_signed};
use uw_subst::{SubstFault, Template};

/// A template, the empty one where it is left out.
pub fn template(alloc: Global, text: Option<&[u8]>) -> Result<Template, Memory>
    requires short { IsShortText (option_copied text) }
    requires good { IsGoodTemplate (option_copied text) }
    ensures { IfOk result (λ template. template ≡ or_empty (option_copied text.entry)) }
{
    match Template::read(alloc, text.unwrap_or(&[])) {
        Ok(template) => Ok(template),
        Err(SubstFault::Memory) => Err(Memory),
        Err(SubstFault::BadTemplate { .. }) => unreachable!(),
    }
}

/// The template of a key, the empty one where it is left out.
pub fn template_at(alloc: Global, argument: Option<&[u8]>, key: &[u8]) -> Result<Template, Memory>
    requires short { IsShortText (option_copied argument) }
    requires good { IsGoodTemplate (text_of_key key.now (option_copied argument)) }
    ensures { IfOk result (λ template. template ≡ or_empty (text_of_key key.now (option_copied argument.entry))) }
{
    template(alloc, text_of_key(argument, key))
}

/// The template of a key, if it stands.
pub fn template_if_any(
    alloc: Global,
    argument: Option<&[u8]>,
    key: &[u8],
) -> Result<Option<Template>, Memory>
    requires short { IsShortText (option_copied argument) }
    requires good { IsGoodTemplate (text_of_key key.now (option_copied argument)) }
    ensures { IfOk result (λ template. template ≡ text_of_key key.now (option_copied argument.entry)) }
{
    let text = text_of_key(argument, key);
    if text.is_none() {
        return Ok(None);
    }
    Ok(Some(template(alloc, text)?))
}

/// A copy of a text, the empty one where it is left out.
pub fn text(alloc: Global, text: Option<&[u8]>) -> Result<Bytes, Memory>
    ensures { IfOk result (λ bytes. bytes ≡ or_empty (option_copied text.entry)) }
{
    Bytes::from_slice(alloc, text.unwrap_or(&[]))
}

/// A copy of a text, if it stands.
pub fn text_if_any(alloc: Global, text: Option<&[u8]>) -> Result<Option<Bytes>, Memory>
    ensures { IfOk result (λ bytes. bytes ≡ option_copied text.entry) }
{
    match text {
        Some(text) => Ok(Some(Bytes::from_slice(alloc, text)?)),
        None => Ok(None),
    }
}

/// The number of a decimal text, 0 where it is left out.
pub fn or_zero(text: Option<&[u8]>) -> u64
    ensures { result ≡ or_zero (option_copied text.entry) }
{
    match text {
        Some(text) => read_decimal(text).unwrap_or(0),
        None => 0,
    }
}

/// The number of a text with a sign, 1 where it is left out.
pub fn or_one(text: Option<&[u8]>) -> i64
    ensures { result ≡ or_one (option_copied text.entry) }
{
    match text {
        Some(text) => read_signed(text).unwrap_or(1),
        None => 1,
    }
}

/// The number under a key, another one where it is left out.
pub fn number_under(argument: Option<&[u8]>, key: &[u8], otherwise: u64) -> u64
    ensures { result ≡ number_under key.now otherwise (option_copied argument.entry) }
{
    match text_of_key(argument, key) {
        Some(text) => read_decimal(text).unwrap_or(otherwise),
        None => otherwise,
    }
}
