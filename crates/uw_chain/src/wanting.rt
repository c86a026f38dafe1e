// What an action asks.
ghost use Rattle.std.specs.Prelude.{◌≡◌, ◌<◌, ℕ, List, [], Option, true, IfOk, IfSome};
ghost use Rattle.uw_model.specs.Asks.{DeskParts};
ghost use Rattle.uw_rules.specs.PartNumbers.{ActionAsksBelow};
ghost use Rattle.uw_rules.specs.declared.compiled.Action.TheVariants as does;
ghost use Rattle.uw_chain.specs.Actions.{cache_ask, course_of_action, filled_pairs, op_of_step, type_filled};
ghost use Rattle.uw_chain.specs.RoutingSteps.{both_within, course_of_want, has_key, is_asking, is_write, key_in};
ghost use Rattle.uw_chain.specs.Spooling.{CanBeAsked};
ghost use Rattle.uw_chain.specs.Tests.{filled_within};

use crate::filling::text;
use crate::request::Request;
use crate::spooling::{has_block, task_of};
use std::alloc::Global;
use uw_base::{Bytes, BytesList, Memory, Vars};
use uw_model::{AreaBytes, AreaOp, Ask, Call};
use uw_rules::compiled::{Action, AreaStep, CacheWrite, TaskPair, TaskPairs};
use uw_subst::Template;

/// What an action asks, and the content type of the value that it may get.
#[derive(Drop)]
pub struct Want {
    pub ask: Ask,
    pub content_type: Bytes,
}

impl Want {
    // An ask for whose answer no content type is wanted.
    fn plain(alloc: Global, ask: Ask) -> Want
        ensures { result ≡ record { ask = ask; content_type = [] } }
    {
        Want {
            ask,
            content_type: Bytes::new(alloc),
        }
    }

    // A call of a cache, of the first one where none is named.
    fn call(alloc: Global, cache: Option<u32>, call: Call) -> Want
        ensures { result ≡ record { ask = cache_ask cache call; content_type = [] } }
    {
        let cache = cache.unwrap_or(0);
        Want::plain(alloc, Ask::Cache { cache, call })
    }
}

// The content type of a value, `text/html` where none is given.
fn content_type(
    alloc: Global,
    template: &Option<Template>,
    request: &Request,
    captures: &BytesList,
    moment: u64,
) -> Result<Option<Bytes>, Memory>
    ensures { IfOk result (λ text. text ≡ type_filled (λ one. filled_within one request.now.vars captures.now moment) template.now) }
{
    match template {
        Some(template) => text(alloc, template, request, captures, moment),
        None => Ok(Some(Bytes::from_slice(alloc, b"text/html")?)),
    }
}

// What `cache` asks, none where a text of it is longer than its limit.
fn wanted_value(
    alloc: Global,
    key: &Template,
    template: &Option<Template>,
    cache: Option<u32>,
    captures: &BytesList,
    moment: u64,
    request: &Request,
) -> Result<Option<Want>, Memory>
    ensures course { IfOk result (λ want. course_of_action moment captures.now request.now (does.Cache key.now template.now cache)
        ≡ course_of_want request.now (does.Cache key.now template.now cache) want) }
    ensures known { (parts : DeskParts) → ActionAsksBelow parts (does.Cache key.now template.now cache)
        → IfOk result (λ want. IfSome want (λ want. CanBeAsked parts want.ask)) }
{
    let Some(key) = text(alloc, key, request, captures, moment)? else {
        return Ok(None);
    };
    let Some(content_type) = content_type(alloc, template, request, captures, moment)? else {
        return Ok(None);
    };
    let cache = cache.unwrap_or(0);
    let call = Call::Get { key };
    let ask = Ask::Cache { cache, call };
    Ok(Some(Want { ask, content_type }))
}

// The key and the value of a write, none where one is longer than its limit.
fn filled_write(
    alloc: Global,
    write: &CacheWrite,
    captures: &BytesList,
    moment: u64,
    request: &Request,
) -> Result<Option<(Bytes, Bytes)>, Memory>
    ensures { IfOk result (λ texts. texts ≡ both_within
        (filled_within write.now.key request.now.vars captures.now moment)
        (filled_within write.now.value request.now.vars captures.now moment)) }
{
    let Some(key) = text(alloc, &write.key, request, captures, moment)? else {
        return Ok(None);
    };
    match text(alloc, &write.value, request, captures, moment)? {
        Some(value) => Ok(Some((key, value))),
        None => Ok(None),
    }
}

// The template of the key of an action that asks a cache for nothing but a key.
fn key_of(action: &Action) -> &Template
    requires { has_key action.now ≡ true }
    ensures { result.now ≡ key_in action.now }
{
    match action {
        Action::CacheVar { key, .. } => key,
        Action::CacheDel { key, .. } => key,
        Action::CacheMath { key, .. } => key,
        _ => unreachable!(),
    }
}

// What such an action asks, none where its key is longer than its limit.
fn wanted_call(
    alloc: Global,
    action: &Action,
    captures: &BytesList,
    moment: u64,
    request: &Request,
) -> Result<Option<Want>, Memory>
    requires { has_key action.now ≡ true }
    ensures course { IfOk result (λ want. course_of_action moment captures.now request.now action.now ≡ course_of_want request.now action.now want) }
    ensures known { (parts : DeskParts) → ActionAsksBelow parts action.now → IfOk result (λ want. IfSome want (λ want. CanBeAsked parts want.ask)) }
{
    let Some(key) = text(alloc, key_of(action), request, captures, moment)? else {
        return Ok(None);
    };
    match action {
        Action::CacheVar { cache, .. } => Ok(Some(Want::call(alloc, *cache, Call::Get { key }))),
        Action::CacheDel { cache, .. } => Ok(Some(Want::call(alloc, *cache, Call::Del { key }))),
        Action::CacheMath {
            op,
            amount,
            expires,
            cache,
            ..
        } => {
            let (op, by, ttl) = (*op, *amount, *expires);
            Ok(Some(Want::call(alloc, *cache, Call::Math { op, key, by, ttl })))
        }
        _ => unreachable!(),
    }
}

// What an action that writes an entry asks, none where a text of it is longer than its limit.
fn wanted_write(
    alloc: Global,
    action: &Action,
    captures: &BytesList,
    moment: u64,
    request: &Request,
) -> Result<Option<Want>, Memory>
    requires { is_write action.now ≡ true }
    ensures course { IfOk result (λ want. course_of_action moment captures.now request.now action.now ≡ course_of_want request.now action.now want) }
    ensures known { (parts : DeskParts) → ActionAsksBelow parts action.now → IfOk result (λ want. IfSome want (λ want. CanBeAsked parts want.ask)) }
{
    match action {
        Action::CacheSet(write) => match filled_write(alloc, write, captures, moment, request)? {
            Some((key, value)) => {
                let ttl = write.expires;
                Ok(Some(Want::call(alloc, write.cache, Call::Set { key, value, ttl })))
            }
            None => Ok(None),
        },
        Action::CacheUpdate(write) => {
            match filled_write(alloc, write, captures, moment, request)? {
                Some((key, value)) => {
                    let ttl = write.expires;
                    Ok(Some(Want::call(alloc, write.cache, Call::Update { key, value, ttl })))
                }
                None => Ok(None),
            }
        }
        _ => unreachable!(),
    }
}

// The operation of an area that a step is.
fn op_of_step(step: AreaStep) -> AreaOp
    ensures { result ≡ op_of_step step }
{
    match step {
        AreaStep::Read { at, len } => AreaOp::Read { at, len },
        AreaStep::ReadNum { at, width } => AreaOp::ReadNum { at, width },
        AreaStep::WriteNum { at, width, value } => AreaOp::WriteNum { at, width, value },
        AreaStep::IncNum { at, width, by } => AreaOp::IncNum { at, width, by },
        AreaStep::DecNum { at, width, by } => AreaOp::DecNum { at, width, by },
        AreaStep::Updates => AreaOp::Updates,
    }
}

// What a write of an area asks, none where its text is longer than its limit.
fn wanted_area_write(
    alloc: Global,
    area: u32,
    at: u64,
    value: &Template,
    captures: &BytesList,
    moment: u64,
    request: &Request,
) -> Result<Option<Want>, Memory>
    ensures course { (var : Option (List ℕ)) → IfOk result (λ want. course_of_action moment captures.now request.now (does.AreaWrite area at value.now var)
        ≡ course_of_want request.now (does.AreaWrite area at value.now var) want) }
    ensures known { (parts : DeskParts) → area < parts.areas → IfOk result (λ want. IfSome want (λ want. CanBeAsked parts want.ask)) }
{
    let Some(text) = text(alloc, value, request, captures, moment)? else {
        return Ok(None);
    };
    let bytes = AreaBytes::new(text);
    let op = AreaOp::Write { at, bytes };
    Ok(Some(Want::plain(alloc, Ask::Area { area, op })))
}

// The pairs of a task with their texts, none where one is longer than its limit.
fn filled_pairs(
    alloc: Global,
    pairs: &[TaskPair],
    captures: &BytesList,
    moment: u64,
    request: &Request,
) -> Result<Option<Vars>, Memory>
    ensures { IfOk result (λ filled. filled ≡ filled_pairs (λ one. filled_within one request.now.vars captures.now moment) pairs.now) }
{
    let mut filled = Vars::new(alloc);
    for pair in pairs {
        let Some(value) = text(alloc, &pair.value, request, captures, moment)? else {
            return Ok(None);
        };
        filled.set(pair.key.as_slice(), value.as_slice())?;
    }
    Ok(Some(filled))
}

// The task that pairs are, none where a text of it is longer than its limit, or its variables have no block.
fn wanted_task(
    alloc: Global,
    pairs: &TaskPairs,
    captures: &BytesList,
    moment: u64,
    request: &Request,
) -> Result<Option<Want>, Memory>
    ensures course { IfOk result (λ want. course_of_action moment captures.now request.now (does.Spool pairs.now)
        ≡ course_of_want request.now (does.Spool pairs.now) want) }
    ensures known { (parts : DeskParts) → IfOk result (λ want. IfSome want (λ want. CanBeAsked parts want.ask)) }
{
    let Some(pairs) = filled_pairs(alloc, pairs.as_slice(), captures, moment, request)? else {
        return Ok(None);
    };
    let (vars, body) = task_of(alloc, &pairs)?;
    if !has_block(&vars) {
        return Ok(None);
    }
    Ok(Some(Want::plain(alloc, Ask::Spool { vars, body })))
}

/// What an action asks, none where a text of it is longer than its limit, or a task has no block.
pub fn wanted(
    alloc: Global,
    action: &Action,
    captures: &BytesList,
    moment: u64,
    request: &Request,
) -> Result<Option<Want>, Memory>
    requires { is_asking action.now ≡ true }
    ensures course { IfOk result (λ want. course_of_action moment captures.now request.now action.now ≡ course_of_want request.now action.now want) }
    ensures known { (parts : DeskParts) → ActionAsksBelow parts action.now → IfOk result (λ want. IfSome want (λ want. CanBeAsked parts want.ask)) }
{
    match action {
        Action::Cache {
            key,
            content_type,
            cache,
        } => wanted_value(alloc, key, content_type, *cache, captures, moment, request),
        Action::CacheSet(_) | Action::CacheUpdate(_) => {
            wanted_write(alloc, action, captures, moment, request)
        }
        Action::Area { area, step, .. } => {
            let (area, op) = (*area, op_of_step(*step));
            Ok(Some(Want::plain(alloc, Ask::Area { area, op })))
        }
        Action::AreaWrite {
            area,
            at,
            value,
            ..
        } => wanted_area_write(alloc, *area, *at, value, captures, moment, request),
        Action::Spool { pairs } => wanted_task(alloc, pairs, captures, moment, request),
        _ => wanted_call(alloc, action, captures, moment, request),
    }
}
