// Templates, read and filled.
ghost use Rattle.std.specs.Prelude.{◌≡◌, ◌↔◌, ◌^◌, ◌<◌, ◌≤◌, ◌++◌, ℕ, List, None, length, take, IfOk, OnOk, IfErr, OnErr, IfSome, IsNone, IsTrue};
ghost use Rattle.std.specs.Bool.{OnFalse, OnTrue};
ghost use Rattle.uw_base.specs.declared.variables.Pair.{Pair};
ghost use Rattle.uw_subst.specs.Templates.{fault_of, filled, has_form};
ghost use Rattle.uw_subst.specs.declared.template.SubstFault.TheVariants as faults;

use crate::filling::{Filling, put_parts};
use crate::parts::{Part, has_filled};
use crate::reading::parts_of;
use std::alloc::Global;
use std::marker::Model;
use std::mem;
use uw_base::{Bytes, BytesList, Memory, Vars};

/// Why a text was not read as a template.
#[derive(Clone, Copy, Debug, PartialEq, Eq)]
pub enum SubstFault {
    /// The form at a `$` is bad: `at` is the place of the first such `$` in the text.
    BadTemplate { at: u32 },
    /// No memory was left.
    Memory,
}

impl From<Memory> for SubstFault {
    ghost from_gives = { λ _ fault. fault ≡ faults.Memory };

    fn from(_: Memory) -> SubstFault {
        SubstFault::Memory
    }
}

/// What filling a template gives.
#[derive(Drop)]
pub enum Filled {
    /// The filled text, of at most 65,536 bytes.
    Text(Bytes),
    /// The text would be longer.
    TooLong,
}

/// A template (InternalRouting). Contracts see it as its text.
#[derive(Drop)]
pub struct Template {
    text: Bytes,
    parts: Vec<Part>,
}

impl Model for Template {
    ghost use Rattle.std.specs.Prelude.{ℕ, List};
    ghost use Rattle.uw_subst.specs.Parts.{AreParts};

    ghost Value = { List ℕ };

    ghost view = { λ template. template.text };

    ghost invariant = { λ template. AreParts template.text template.parts.items };
}

// Leaves so many bytes at the front.
fn cut_back(alloc: Global, out: &mut Bytes, len: usize)
    ensures { out.new ≡ take len out.old }
{
    let mut bytes = mem::replace(out, Bytes::new(alloc)).into_vec();
    bytes.truncate(len);
    *out = Bytes::from_vec(bytes);
}

impl Template {
    ghost use Rattle.uw_subst.specs.Answers.{IsFaultOf, IsFilling, most_filled};

    /// Reads a template. `BadTemplate` exactly where a form is bad, with the place of the `$` of the
    /// first such form.
    pub fn read(alloc: Global, text: &[u8]) -> Result<Template, SubstFault>
        requires { length text.now < 2 ^ 32 }
        ensures template { IfOk result (λ template. template ≡ text.now) }
        ensures good { OnOk result (fault_of text.now ≡ None) }
        ensures fault { IfErr result (IsFaultOf text.now) }
    {
        let parts = parts_of(alloc, text)?;
        let text = Bytes::from_slice(alloc, text)?;
        Ok(Template { text, parts })
    }

    /// The text itself, where it has no capture and no form: it is what is filled in, whatever the
    /// variables, the captures and the moment.
    pub fn fixed(&self) -> Option<&[u8]>
        ensures text { IfSome result (λ text. text.now ≡ self.now) }
        ensures fixed { IfSome result (λ text. (vars : List Pair) (captures : List (List ℕ)) (moment : ℕ) → filled self.now vars captures moment ≡ text.now) }
        ensures other { IsNone result ↔ IsTrue (has_form self.now) }
    {
        if has_filled(self.parts.as_slice()) {
            return None;
        }
        Some(self.text.as_slice())
    }

    /// Fills the template from the variables, the captures of a match, counted from 1, and the moment
    /// in seconds. `TooLong` exactly where the text would have more than 65,536 bytes.
    pub fn fill(
        &self,
        alloc: Global,
        vars: &Vars,
        captures: &BytesList,
        moment: u64,
    ) -> Result<Filled, Memory>
        ensures { IfOk result (IsFilling (filled self.now vars.now captures.now moment)) }
    {
        let mut out = Bytes::new(alloc);
        if self.fill_into(alloc, &mut out, vars, captures, moment)? {
            Ok(Filled::Text(out))
        } else {
            Ok(Filled::TooLong)
        }
    }

    /// Puts the filled text at the end of `out`, and answers true; or answers false, exactly where
    /// that text would have more than 65,536 bytes, and leaves `out` as it was.
    pub fn fill_into(
        &self,
        alloc: Global,
        out: &mut Bytes,
        vars: &Vars,
        captures: &BytesList,
        moment: u64,
    ) -> Result<bool, Memory>
        ensures short { IfOk result (λ fits. IsTrue fits ↔ (length (filled self.now vars.now captures.now moment) ≤ most_filled)) }
        ensures text { IfOk result (λ fits. OnTrue fits (out.new ≡ out.old ++ filled self.now vars.now captures.now moment)) }
        ensures long { IfOk result (λ fits. OnFalse fits (out.new ≡ out.old)) }
        ensures err { OnErr result (out.new ≡ out.old) }
    {
        let before = out.len();
        let from = Filling {
            text: self.text.as_slice(),
            vars,
            captures,
            moment,
        };
        match put_parts(alloc, out, self.parts.as_slice(), &from) {
            Ok(true) => Ok(true),
            Ok(false) => {
                cut_back(alloc, out, before);
                Ok(false)
            }
            Err(memory) => {
                cut_back(alloc, out, before);
                Err(memory)
            }
        }
    }
}
