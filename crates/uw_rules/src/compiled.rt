// Compiled rules: what is left of a rule once it was read. Nothing of it is looked up by name.
ghost use Rattle.std.specs.Prelude.{◌≡◌, List, [], ◌∷◌, ◌++◌, length, OnOk, OnErr};
ghost use Rattle.uw_rules.specs.Compiled.{rules_of};

use crate::grammar::Subject;
use regex::bytes::Regex;
use std::alloc::Global;
use std::marker::Model;
use uw_base::{Bytes, Memory};
use uw_model::{MathOp, Width};
use uw_subst::Template;

/// What a condition asks of the filled templates. A cache is named by its number; none stands for the first one.
#[derive(Drop)]
pub enum Condition {
    /// The texts are equal.
    Equal { text: Template, other: Template },
    /// The text begins with the other one.
    StartsWith { text: Template, other: Template },
    /// The text ends with the other one.
    EndsWith { text: Template, other: Template },
    /// The other text stands somewhere in the text.
    Contains { text: Template, other: Template },
    /// The text has no byte.
    Empty { text: Template },
    /// The pattern matches somewhere in the text.
    Regexp { text: Template, pattern: Regex },
    /// The cache has the key.
    InCache { key: Template, cache: Option<u32> },
}

/// When a rule's action runs.
#[derive(Drop)]
pub enum Test {
    Always,
    /// The pattern matches somewhere in the subject.
    Matches { subject: Subject, pattern: Regex },
    /// The condition holds; or, where it is negated, it does not.
    Holds { negated: bool, condition: Condition },
}

/// Writes the value of a key, and puts the answer into a variable.
#[derive(Drop)]
pub struct CacheWrite {
    pub key: Template,
    pub value: Template,
    pub expires: u64,
    pub cache: Option<u32>,
    pub var: Option<Bytes>,
}

/// An operation of an area that needs no text.
#[derive(Clone, Copy, Debug, PartialEq, Eq)]
pub enum AreaStep {
    Read { at: u64, len: u64 },
    ReadNum { at: u64, width: Width },
    WriteNum { at: u64, width: Width, value: u64 },
    IncNum { at: u64, width: Width, by: u64 },
    DecNum { at: u64, width: Width, by: u64 },
    Updates,
}

/// A variable of a task.
#[derive(Drop)]
pub struct TaskPair {
    pub key: Bytes,
    pub value: Template,
}

/// The variables of a task, in their order. Contracts see them as a list.
#[derive(Drop)]
pub struct TaskPairs {
    pairs: Vec<TaskPair>,
}

impl Model for TaskPairs {
    ghost use Rattle.std.specs.Prelude.{List};
    ghost use Rattle.uw_rules.specs.declared.compiled.TaskPair.{TaskPair};

    ghost Value = { List TaskPair };

    ghost view = { λ p. p.pairs.items };
}

impl TaskPairs {
    /// No variable. Takes no memory.
    pub fn new(alloc: Global) -> TaskPairs
        ensures { result ≡ [] }
    {
        TaskPairs {
            pairs: Vec::new(alloc),
        }
    }

    pub fn as_slice(&self) -> &[TaskPair]
        ensures { result.now ≡ self.now }
    {
        self.pairs.as_slice()
    }

    // Puts one variable at the end.
    pub(crate) fn push(&mut self, pair: TaskPair) -> Result<(), Memory>
        ensures ok { OnOk result (self.new ≡ self.old ++ pair ∷ []) }
        ensures err { OnErr result (self.new ≡ self.old) }
    {
        self.pairs.push(pair)?;
        Ok(())
    }
}

/// What a rule does. Caches are named by their numbers, none standing for the first one, and areas by theirs; `expires`
/// is in seconds.
#[derive(Drop)]
pub enum Action {
    /// Ends the table.
    Continue,
    /// Ends the request with this status, or closes.
    Break {
        status: Option<Bytes>,
    },
    /// Ends the request with the status of this code.
    Return {
        code: u16,
    },
    /// Goes on at the rule of this number, which is a later one.
    Goto {
        rule: u32,
    },
    Redirect {
        to: Template,
    },
    RedirectPermanent {
        to: Template,
    },
    /// Replaces the path, and the query string behind a `?`.
    Rewrite {
        to: Template,
    },
    /// Sets a variable.
    AddVar {
        key: Bytes,
        value: Template,
    },
    AddHeader {
        line: Template,
    },
    /// Puts a text at the end of the body.
    Send {
        text: Template,
    },
    /// Answers with the value of a key, if there is one. Without a content type it is `text/html`.
    Cache {
        key: Template,
        content_type: Option<Template>,
        cache: Option<u32>,
    },
    /// Puts the value of a key into a variable.
    CacheVar {
        key: Template,
        cache: Option<u32>,
        var: Bytes,
    },
    CacheSet(CacheWrite),
    CacheUpdate(CacheWrite),
    CacheDel {
        key: Template,
        cache: Option<u32>,
        var: Option<Bytes>,
    },
    /// Calculates with the number of a key.
    CacheMath {
        op: MathOp,
        key: Template,
        amount: i64,
        expires: u64,
        cache: Option<u32>,
        var: Option<Bytes>,
    },
    /// Makes an operation of an area, and puts the answer into a variable.
    Area {
        area: u32,
        step: AreaStep,
        var: Option<Bytes>,
    },
    /// Writes a text into an area.
    AreaWrite {
        area: u32,
        at: u64,
        value: Template,
        var: Option<Bytes>,
    },
    /// Puts a task aside.
    Spool {
        pairs: TaskPairs,
    },
    /// Ends the task with this status.
    SpoolEnd {
        status: i64,
    },
}

/// A rule. Rules are numbered from 0 in the order of their lines, a label's line among them.
#[derive(Drop)]
pub enum Rule {
    /// A label, which does nothing.
    Label,
    Act { test: Test, action: Action },
}

/// A table of rules.
#[derive(Drop)]
pub struct RuleTable {
    rules: Vec<Rule>,
}

impl RuleTable {
    /// No rule. Takes no memory.
    pub fn new(alloc: Global) -> RuleTable
        ensures { rules_of result ≡ [] }
    {
        RuleTable {
            rules: Vec::new(alloc),
        }
    }

    pub fn as_slice(&self) -> &[Rule]
        ensures { result.now ≡ rules_of self.now }
    {
        self.rules.as_slice()
    }

    /// The number of rules.
    pub fn len(&self) -> usize
        ensures { result ≡ length (rules_of self.now) }
    {
        self.rules.len()
    }

    // Puts one rule at the end.
    pub(crate) fn push(&mut self, rule: Rule) -> Result<(), Memory>
        ensures ok { OnOk result (rules_of self.new ≡ rules_of self.old ++ rule ∷ []) }
        ensures err { OnErr result (rules_of self.new ≡ rules_of self.old) }
    {
        self.rules.push(rule)?;
        Ok(())
    }
}
