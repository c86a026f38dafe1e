// Templates filled for a rule.
ghost use Rattle.std.specs.Prelude.{◌≡◌, ◌≤◌, ◌++◌, length, IfOk, IfSome, option_map};
ghost use Rattle.uw_subst.specs.Answers.{most_filled};
ghost use Rattle.uw_chain.specs.Tests.{filled_within};

use crate::request::Request;
use std::alloc::Global;
use uw_base::{Bytes, BytesList, Memory, Vars};
use uw_subst::{Filled, Template};

/// Room that most header lines fit into, so that they are not moved as they grow.
const LINE_ROOM: usize = 128;

/// What a rule's templates are filled from: the variables, the captures of its pattern, and the moment in seconds.
#[derive(Clone, Copy)]
pub struct Filling<'a> {
    pub vars: &'a Vars,
    pub captures: &'a BytesList,
    pub moment: u64,
}

impl Filling<'_> {
    /// The text of a template, none where it is longer than its limit.
    #[tactic(auto, unfolding(crate::specs::Tests::filled_within))]
    pub fn text(&self, alloc: Global, template: &Template) -> Result<Option<Bytes>, Memory>
        ensures { IfOk result (λ text. text ≡ filled_within template.now self.now.vars.now self.now.captures.now self.now.moment) }
    {
        match template.fill(alloc, self.vars, self.captures, self.moment)? {
            Filled::Text(text) => Ok(Some(text)),
            Filled::TooLong => Ok(None),
        }
    }

    /// The text of a template behind a front, none where it is longer than its limit.
    #[tactic(auto, unfolding(crate::specs::Tests::filled_within))]
    pub fn text_behind(
        &self,
        alloc: Global,
        front: &[u8],
        template: &Template,
    ) -> Result<Option<Bytes>, Memory>
        ensures { IfOk result (λ line. line ≡ option_map (λ text. front.now ++ text) (filled_within template.now self.now.vars.now self.now.captures.now self.now.moment)) }
    {
        let mut line = Bytes::from_vec(Vec::with_capacity(alloc, LINE_ROOM)?);
        line.append(front)?;
        if template.fill_into(alloc, &mut line, self.vars, self.captures, self.moment)? {
            Ok(Some(line))
        } else {
            Ok(None)
        }
    }
}

/// The text of a template of a request, none where it is longer than its limit.
pub fn text(
    alloc: Global,
    template: &Template,
    request: &Request,
    captures: &BytesList,
    moment: u64,
) -> Result<Option<Bytes>, Memory>
    ensures filled { IfOk result (λ text. text ≡ filled_within template.now request.now.vars captures.now moment) }
    ensures few { IfOk result (λ text. IfSome text (λ text. length text ≤ most_filled)) }
{
    let filling = Filling {
        vars: &request.vars,
        captures,
        moment,
    };
    filling.text(alloc, template)
}
