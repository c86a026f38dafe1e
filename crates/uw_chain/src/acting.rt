// The action of a rule.
ghost use Rattle.std.specs.Prelude.{◌≡◌, ◌≤◌, not, true, false, IfOk};
ghost use Rattle.uw_outside.specs.Faults.{HasCause};
ghost use Rattle.uw_rules.specs.PartNumbers.{ActionAsksBelow};
ghost use Rattle.uw_chain.specs.declared.outcome.Outcome.TheVariants as outcomes;
ghost use Rattle.uw_chain.specs.Actions.{course_of_action, redirected, rewritten, with_filled, with_text, with_variable};
ghost use Rattle.uw_chain.specs.Courses.{ended};
ghost use Rattle.uw_chain.specs.Endings.{with_header};
ghost use Rattle.uw_chain.specs.RoutingSteps.{RunsTo, is_asking};
ghost use Rattle.uw_chain.specs.Runs.{has_died_following};
ghost use Rattle.uw_chain.specs.Spooling.{both_led, kept_by};
ghost use Rattle.uw_chain.specs.Tests.{filled_within};

use crate::answers::use_answer;
use crate::asking::{ask, last_answer};
use crate::endings::status_of_code;
use crate::faults::ChainEnd;
use crate::filling::{Filling, text};
use crate::outcome::{Ending, Outcome};
use crate::request::Request;
use crate::wanting::wanted;
use std::alloc::Global;
use uw_base::texts::cut;
use uw_base::{Bytes, BytesList, Memory};
use uw_keeper::Keeper;
use uw_model::{AskList, Desk};
use uw_outside::Life;
use uw_rules::compiled::Action;
use uw_subst::Template;

// Ends by a redirect to a place with a status.
#[tactic(auto, using(crate::proofs::ActLemmas::not_redirected))]
fn redirect(
    alloc: Global,
    status: &[u8],
    to: &Template,
    captures: &BytesList,
    moment: u64,
    mut request: Request,
) -> Result<Outcome, Memory>
    ensures { IfOk result (λ outcome. with_filled request (filled_within to.now request.vars captures.now moment)
        (λ place. ended (redirected status.now place request)) ≡ ended outcome) }
{
    let filling = Filling {
        vars: &request.vars,
        captures,
        moment,
    };
    let Some(line) = filling.text_behind(alloc, b"Location: ", to)? else {
        return Ok(Outcome::Ends(Ending::Failing, request));
    };
    request.add_header(line)?;
    let status = Bytes::from_slice(alloc, status)?;
    Ok(Outcome::Ends(Ending::Break(Some(status)), request))
}

// Replaces the path, and the query string where there is a `?`.
fn rewrite(
    alloc: Global,
    to: &Template,
    captures: &BytesList,
    moment: u64,
    mut request: Request,
) -> Result<Outcome, Memory>
    ensures { IfOk result (λ outcome. with_filled request (filled_within to.now request.vars captures.now moment)
        (λ text. ended (outcomes.GoesOn (rewritten request text))) ≡ ended outcome) }
{
    let Some(text) = text(alloc, to, &request, captures, moment)? else {
        return Ok(Outcome::Ends(Ending::Failing, request));
    };
    let (path, query) = cut(text.as_slice(), b'?');
    request.vars.set(b"PATH_INFO", path)?;
    if let Some(query) = query {
        request.vars.set(b"QUERY_STRING", query)?;
    }
    Ok(Outcome::GoesOn(request))
}

// Sets a variable.
fn add_variable(
    alloc: Global,
    key: &[u8],
    value: &Template,
    captures: &BytesList,
    moment: u64,
    mut request: Request,
) -> Result<Outcome, Memory>
    ensures { IfOk result (λ outcome. with_filled request (filled_within value.now request.vars captures.now moment)
        (λ text. ended (outcomes.GoesOn (with_variable request key.now text))) ≡ ended outcome) }
{
    let Some(value) = text(alloc, value, &request, captures, moment)? else {
        return Ok(Outcome::Ends(Ending::Failing, request));
    };
    request.vars.set(key, value.as_slice())?;
    Ok(Outcome::GoesOn(request))
}

// Adds a header line.
fn add_header(
    alloc: Global,
    line: &Template,
    captures: &BytesList,
    moment: u64,
    mut request: Request,
) -> Result<Outcome, Memory>
    ensures { IfOk result (λ outcome. with_filled request (filled_within line.now request.vars captures.now moment)
        (λ text. ended (outcomes.GoesOn (with_header request text))) ≡ ended outcome) }
{
    let Some(line) = text(alloc, line, &request, captures, moment)? else {
        return Ok(Outcome::Ends(Ending::Failing, request));
    };
    request.add_header(line)?;
    Ok(Outcome::GoesOn(request))
}

// Puts a text at the end of the body, without a copy of its own.
fn send(
    alloc: Global,
    text: &Template,
    captures: &BytesList,
    moment: u64,
    mut request: Request,
) -> Result<Outcome, Memory>
    ensures { IfOk result (λ outcome. with_filled request (filled_within text.now request.vars captures.now moment)
        (λ more. ended (outcomes.GoesOn (with_text request more))) ≡ ended outcome) }
{
    if !text.fill_into(alloc, &mut request.body, &request.vars, captures, moment)? {
        return Ok(Outcome::Ends(Ending::Failing, request));
    }
    request.sent = true;
    Ok(Outcome::GoesOn(request))
}

// Does an action that asks nothing.
fn change(
    alloc: Global,
    action: &Action,
    captures: &BytesList,
    moment: u64,
    request: Request,
) -> Result<Outcome, Memory>
    requires silent { is_asking action.now ≡ false }
    ensures { IfOk result (λ outcome. course_of_action moment captures.now request action.now ≡ ended outcome) }
{
    match action {
        Action::Continue => Ok(Outcome::Ends(Ending::OfTable, request)),
        Action::Break {
            status: Some(status),
        } => {
            let status = Bytes::from_slice(alloc, status.as_slice())?;
            Ok(Outcome::Ends(Ending::Break(Some(status)), request))
        }
        Action::Break { status: None } => Ok(Outcome::Ends(Ending::Break(None), request)),
        Action::Return { code } => Ok(Outcome::Ends(Ending::Page(*code), request)),
        Action::SpoolEnd { status } => Ok(Outcome::Ends(Ending::Task(*status), request)),
        Action::Goto { rule } => Ok(Outcome::Jumps(*rule, request)),
        Action::Redirect { to } => {
            redirect(alloc, status_of_code(302), to, captures, moment, request)
        }
        Action::RedirectPermanent { to } => {
            redirect(alloc, status_of_code(301), to, captures, moment, request)
        }
        Action::Rewrite { to } => rewrite(alloc, to, captures, moment, request),
        Action::AddVar { key, value } => {
            add_variable(alloc, key.as_slice(), value, captures, moment, request)
        }
        Action::AddHeader { line } => add_header(alloc, line, captures, moment, request),
        Action::Send { text } => send(alloc, text, captures, moment, request),
        _ => unreachable!(),
    }
}

// Does an action that asks.
#[tactic(auto, using(crate::proofs::SpoolLemmas::kept_none))]
fn act_by_asking<D: Desk, P: Keeper, L: Life>(
    alloc: Global,
    action: &Action,
    captures: &BytesList,
    moment: u64,
    request: Request,
    asks: &mut AskList,
    desk: &mut D,
    keep: &mut P,
    life: &mut L,
) -> Result<Outcome, ChainEnd>
    requires asking { is_asking action.now ≡ true }
    requires known { ActionAsksBelow (D.parts desk.old) action.now }
    requires alive { L.alive life.old ≡ true }
    ensures runs { RunsTo (both_led (D.leads desk.old desk.new) (kept_by P.rows P.append_faults P.other_faults keep.old keep.new)) (L.allowances life.old) (L.allowances life.new) moment
        (course_of_action moment captures.now request action.now) asks.old asks.new result }
    ensures cause { HasCause (L.deaths life.old) (L.deaths life.new) (has_died_following result) }
    ensures alive { L.alive life.new ≡ not (has_died_following result) }
    ensures parts { D.parts desk.new ≡ D.parts desk.old }
    ensures settled { D.settled desk.old ≡ true → has_died_following result ≡ false → D.settled desk.new ≡ true }
    ensures later { P.append_faults keep.old ≤ P.append_faults keep.new }
    ensures others { P.other_faults keep.new ≡ P.other_faults keep.old }
{
    let Some(want) = wanted(alloc, action, captures, moment, &request)? else {
        return Ok(Outcome::Ends(Ending::Failing, request));
    };
    let content_type = want.content_type;
    ask(alloc, want.ask, moment, asks, desk, keep, life)?;
    let answer = last_answer(asks);
    Ok(use_answer(alloc, action, content_type.as_slice(), request, answer)?)
}

// Whether an action asks.
fn is_asking(action: &Action) -> bool
    ensures { result ≡ is_asking action.now }
{
    matches!(
        action,
        Action::Cache { .. }
            | Action::CacheVar { .. }
            | Action::CacheSet(_)
            | Action::CacheUpdate(_)
            | Action::CacheDel { .. }
            | Action::CacheMath { .. }
            | Action::Area { .. }
            | Action::AreaWrite { .. }
            | Action::Spool { .. }
    )
}

/// Does the action of a rule, with the captures of the rule's pattern.
#[tactic(auto, using(crate::proofs::SpoolLemmas::kept_none))]
pub fn act<D: Desk, P: Keeper, L: Life>(
    alloc: Global,
    action: &Action,
    captures: &BytesList,
    moment: u64,
    request: Request,
    asks: &mut AskList,
    desk: &mut D,
    keep: &mut P,
    life: &mut L,
) -> Result<Outcome, ChainEnd>
    requires known { ActionAsksBelow (D.parts desk.old) action.now }
    requires alive { L.alive life.old ≡ true }
    ensures runs { RunsTo (both_led (D.leads desk.old desk.new) (kept_by P.rows P.append_faults P.other_faults keep.old keep.new)) (L.allowances life.old) (L.allowances life.new) moment
        (course_of_action moment captures.now request action.now) asks.old asks.new result }
    ensures cause { HasCause (L.deaths life.old) (L.deaths life.new) (has_died_following result) }
    ensures alive { L.alive life.new ≡ not (has_died_following result) }
    ensures parts { D.parts desk.new ≡ D.parts desk.old }
    ensures settled { D.settled desk.old ≡ true → has_died_following result ≡ false → D.settled desk.new ≡ true }
    ensures later { P.append_faults keep.old ≤ P.append_faults keep.new }
    ensures others { P.other_faults keep.new ≡ P.other_faults keep.old }
{
    if is_asking(action) {
        act_by_asking(
            alloc, action, captures, moment, request, asks, desk, keep, life,
        )
    } else {
        Ok(change(alloc, action, captures, moment, request)?)
    }
}
