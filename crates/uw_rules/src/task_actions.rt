// The actions of tasks, compiled.
ghost use Rattle.std.specs.Prelude.{◌≡◌, ◌<◌, ◌^◌, ◌==◌, length, pos, unwrap_or, option_and_then, IfOk};
ghost use Rattle.std.specs.Option.{option_copied};
ghost use Rattle.uw_base.specs.Numbers.{signed_of};
ghost use Rattle.uw_rules.specs.declared.grammar.TextKind.TheVariants as texts;
ghost use Rattle.uw_rules.specs.Arguments.{text_of_pair};
ghost use Rattle.uw_rules.specs.CheckSteps.{IsShortText};
ghost use Rattle.uw_rules.specs.Compiled.{task_pairs};
ghost use Rattle.uw_rules.specs.CompileSteps.{HasGoodTemplates, IsGoodTemplate, pair_meant};
ghost use Rattle.uw_rules.specs.Grammar.{free_texts};

use crate::compiled::{TaskPair, TaskPairs};
use crate::texts::{template, text};
use std::alloc::Global;
use uw_base::texts::cut;
use uw_base::{Memory, read_signed};

// A variable of a task.
fn task_pair(alloc: Global, pair: &[u8]) -> Result<TaskPair, Memory>
    requires short { length pair.now < 2 ^ 32 }
    requires good { IsGoodTemplate (text_of_pair pair.now) }
    ensures { IfOk result (λ compiled. compiled ≡ pair_meant pair.now) }
{
    let (key, value) = cut(pair, b'=');
    Ok(TaskPair {
        key: text(alloc, Some(key))?,
        value: template(alloc, value)?,
    })
}

/// The variables of a task.
pub fn task_pairs(alloc: Global, argument: Option<&[u8]>) -> Result<TaskPairs, Memory>
    requires short { IsShortText (option_copied argument) }
    requires good { HasGoodTemplates (free_texts texts.Template) (option_copied argument) }
    ensures { IfOk result (λ pairs. pairs ≡ task_pairs (option_copied argument.entry)) }
{
    let mut pairs = TaskPairs::new(alloc);
    let mut rest = argument;
    'pairs: while let Some(left) = rest {
        let (pair, more) = cut(left, b',');
        pairs.push(task_pair(alloc, pair)?)?;
        rest = more;
    }
    Ok(pairs)
}

/// The status of a task.
pub fn status(argument: Option<&[u8]>) -> i64
    ensures { result ≡ unwrap_or (option_and_then signed_of (option_copied argument.entry)) (pos 0) }
{
    match argument {
        Some(text) => read_signed(text).unwrap_or(0),
        None => 0,
    }
}
