// What is done with the answer of an ask.
ghost use Rattle.std.specs.Prelude.{◌≡◌, option_map, IfOk};
ghost use Rattle.uw_chain.specs.declared.outcome.Outcome.TheVariants as outcomes;
ghost use Rattle.uw_chain.specs.Actions.{area_text, put_outcome, value_outcome, variable_text, with_answer};
ghost use Rattle.uw_chain.specs.RoutingSteps.{used_by, var_in};

use crate::outcome::{Ending, Outcome};
use crate::request::Request;
use std::alloc::Global;
use uw_base::{Bytes, Memory, put_decimal, put_signed};
use uw_cachecmd::cache_reply;
use uw_model::{Answer, AreaAnswer, AskAnswer, SpoolAnswer};
use uw_rules::compiled::Action;

// The variable that takes the answer of an action, if one is named.
fn var_of(action: &Action) -> Option<&Bytes>
    ensures { option_map (λ var. var.now) result ≡ var_in action.now }
{
    match action {
        Action::CacheVar { var, .. } => Some(var),
        Action::CacheSet(write) => write.var.as_ref(),
        Action::CacheUpdate(write) => write.var.as_ref(),
        Action::CacheDel { var, .. } => var.as_ref(),
        Action::CacheMath { var, .. } => var.as_ref(),
        Action::Area { var, .. } => var.as_ref(),
        Action::AreaWrite { var, .. } => var.as_ref(),
        _ => None,
    }
}

// The text of an answer as a variable has it.
fn variable_text(alloc: Global, answer: &Answer) -> Result<Bytes, Memory>
    ensures { IfOk result (λ text. text ≡ variable_text answer.now) }
{
    match answer {
        Answer::Value(value) => Bytes::from_slice(alloc, value.as_slice()),
        Answer::Number(number) => {
            let mut text = Bytes::new(alloc);
            put_signed(&mut text, *number)?;
            Ok(text)
        }
        Answer::Missing => Ok(Bytes::new(alloc)),
        other => cache_reply(alloc, 200, other),
    }
}

// The text of an area's answer as a variable has it.
fn area_text(alloc: Global, answer: &AreaAnswer) -> Result<Bytes, Memory>
    ensures { IfOk result (λ text. text ≡ area_text answer.now) }
{
    match answer {
        AreaAnswer::Bytes(bytes) => Bytes::from_slice(alloc, bytes.as_slice()),
        AreaAnswer::Number(number) => {
            let mut text = Bytes::new(alloc);
            put_decimal(&mut text, *number)?;
            Ok(text)
        }
        AreaAnswer::Done => Bytes::from_slice(alloc, b"ok"),
        AreaAnswer::OutOfArea { .. } => Bytes::from_slice(alloc, b"out of area"),
    }
}

// Goes on with the answer of an ask in a variable, if one is named.
fn keep_answer(
    alloc: Global,
    var: Option<&Bytes>,
    mut request: Request,
    answer: &AskAnswer,
) -> Result<Outcome, Memory>
    ensures { IfOk result (λ outcome. outcome ≡ outcomes.GoesOn (with_answer (option_map (λ name. name.now) var.entry) request answer.now)) }
{
    if let Some(var) = var {
        let text = match answer {
            AskAnswer::Cache(answer) => variable_text(alloc, answer)?,
            AskAnswer::Area(answer) => area_text(alloc, answer)?,
            AskAnswer::Spool(_) => return Ok(Outcome::GoesOn(request)),
        };
        request.vars.set(var.as_slice(), text.as_slice())?;
    }
    Ok(Outcome::GoesOn(request))
}

// Ends with the value that a cache has, or goes on where it has none.
fn use_value(
    alloc: Global,
    content_type: &[u8],
    mut request: Request,
    answer: &AskAnswer,
) -> Result<Outcome, Memory>
    ensures { IfOk result (λ outcome. outcome ≡ value_outcome content_type.now request answer.now) }
{
    match answer {
        AskAnswer::Cache(Answer::Value(value)) => {
            request.put_value(alloc, content_type, value.as_slice())?;
            let status = Bytes::from_slice(alloc, b"200 OK")?;
            Ok(Outcome::Ends(Ending::Break(Some(status)), request))
        }
        _ => Ok(Outcome::GoesOn(request)),
    }
}

// Goes on behind a task that was put aside.
fn use_put(request: Request, answer: &AskAnswer) -> Outcome
    ensures { result ≡ put_outcome request answer.now }
{
    match answer {
        AskAnswer::Spool(SpoolAnswer::Put { .. }) => Outcome::GoesOn(request),
        _ => Outcome::Ends(Ending::Failing, request),
    }
}

/// Does with the answer of an ask what the action has it for.
pub fn use_answer(
    alloc: Global,
    action: &Action,
    content_type: &[u8],
    request: Request,
    answer: &AskAnswer,
) -> Result<Outcome, Memory>
    ensures { IfOk result (λ outcome. outcome ≡ used_by action.now content_type.now request answer.now) }
{
    match action {
        Action::Cache { .. } => use_value(alloc, content_type, request, answer),
        Action::Spool { .. } => Ok(use_put(request, answer)),
        _ => keep_answer(alloc, var_of(action), request, answer),
    }
}
