// The parts of a template that was read.
ghost use Rattle.std.specs.List.{list_any};
ghost use Rattle.std.specs.Prelude.{◌≡◌, ◌+◌, ◌-◌, ◌^◌, ◌<◌, ◌≤◌, length, take, drop};
ghost use Rattle.uw_subst.specs.Parts.{is_filled_part};

/// Bytes of a template's text: the place of the first one and their number.
#[derive(Clone, Copy)]
pub struct Span {
    pub from: u32,
    pub len: u32,
}

/// A part of a template.
#[derive(Clone, Copy)]
pub enum Part {
    /// Bytes that stand for themselves.
    Constant(Span),
    /// The capture of this number, counted from 1.
    Capture(u8),
    /// The value of the variable of this name.
    Variable(Span),
    /// The value of this name in the query string.
    Query(Span),
    /// The moment.
    Time,
    /// The date so many seconds after the moment.
    Date(u64),
    /// The value of the variable of this name, in base64.
    Encoded(Span),
}

// Whether the part is no constant.
fn is_filled(part: &Part) -> bool
    ensures { result ≡ is_filled_part part.now }
{
    !matches!(part, Part::Constant(_))
}

/// Whether a part is no constant.
pub fn has_filled(parts: &[Part]) -> bool
    ensures { result ≡ list_any is_filled_part parts.now }
{
    parts.iter().any(is_filled)
}

impl Span {
    /// The bytes of a text from one place up to another.
    pub fn between(from: usize, to: usize) -> Span
        requires order { from ≤ to }
        requires fits { to < 2 ^ 32 }
        ensures from { result.from ≡ from }
        ensures len { result.len ≡ to - from }
    {
        Span {
            from: from as u32,
            len: (to - from) as u32,
        }
    }

    /// The bytes of the span.
    pub fn of(self, text: &[u8]) -> &[u8]
        requires { self.from + self.len ≤ length text.now }
        ensures { result.now ≡ take self.len (drop self.from text.now) }
    {
        let from = self.from as usize;
        &text[from..from + self.len as usize]
    }
}
