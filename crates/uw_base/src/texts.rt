// Parts of a text: cuts, and blanks at its ends.
ghost use Rattle.std.specs.Prelude.{◌≡◌, ◌<◌, ◌==◌, ◌∷◌, [], length, reverse, is_some, IfSome, IfNone, position};
ghost use Rattle.std.specs.List.{before_first, after_first, list_any, slice_split};
ghost use Rattle.std.specs.Option.{option_map_or};
ghost use Rattle.std.specs.Str.{bytes_eq};
ghost use Rattle.uw_base.specs.Texts.{is_blank, without_blanks, trimmed};

/// Whether a text is the word.
pub fn is(text: &[u8], word: &[u8]) -> bool
    ensures { result ≡ bytes_eq text.now word.now }
{
    text == word
}

/// Whether a text is one of the words.
pub fn is_any(text: &[u8], words: &[&[u8]]) -> bool
    ensures { result ≡ list_any (λ word. bytes_eq text.now word.now) words.now }
{
    for word in words {
        if is(text, word) {
            return true;
        }
    }
    false
}

// The place of the first such byte.
fn place_of(text: &[u8], at: u8) -> Option<usize>
    ensures { result ≡ position (λ byte. byte == at) text.now }
{
    text.iter().position(|byte| *byte == at)
}

/// What stands before the first such byte, and what stands behind it where there is one.
pub fn cut(text: &[u8], at: u8) -> (&[u8], Option<&[u8]>)
    ensures before { result.0.now ≡ before_first (λ byte. byte == at) text.now }
    ensures found { list_any (λ byte. byte == at) text.now ≡ is_some result.1 }
    ensures after { IfSome result.1 (λ rest. rest.now ≡ after_first (λ byte. byte == at) text.now) }
    ensures shorter { IfSome result.1 (λ rest. length rest.now < length text.now) }
    ensures whole { IfNone result.1 (result.0.now ≡ text.now) }
    ensures parts { slice_split (λ byte. byte == at) text.now
        ≡ result.0.now ∷ option_map_or (λ rest. slice_split (λ byte. byte == at) rest.now) result.1 [] }
{
    match place_of(text, at) {
        Some(place) => (&text[..place], Some(&text[place + 1..])),
        None => (text, None),
    }
}

// A space or a tab.
fn is_blank(byte: u8) -> bool
    ensures { result ≡ is_blank byte }
{
    byte == b' ' || byte == b'\t'
}

/// The text from its first byte on that is no blank.
pub fn without_front(text: &[u8]) -> &[u8]
    ensures { result.now ≡ without_blanks text.now }
{
    for (place, byte) in text.iter().enumerate() {
        if !is_blank(*byte) {
            return &text[place..];
        }
    }
    &[]
}

// The text up to its last byte that is no blank.
fn without_back(text: &[u8]) -> &[u8]
    ensures { result.now ≡ reverse (without_blanks (reverse text.now)) }
{
    for place in (0..text.len()).rev() {
        if !is_blank(text[place]) {
            return &text[..place + 1];
        }
    }
    &[]
}

/// The text without the blanks at its ends.
pub fn trim_blanks(text: &[u8]) -> &[u8]
    ensures { result.now ≡ trimmed text.now }
{
    without_back(without_front(text))
}
