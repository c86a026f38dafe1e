// Laws of templates, over the definitions alone: each is proved, and its function does nothing.
ghost use Rattle.std.specs.Prelude.{◌≡◌, ◌<◌, ◌≤◌, ◌+◌, ℕ, List, [], Some, slice_index};
ghost use Rattle.std.specs.List.{flat_map};
ghost use Rattle.httpdate.specs.Date.{date_text, unix_secs};
ghost use Rattle.httpdate.specs.declared.date.HttpDate.{HttpDate};
ghost use Rattle.uw_subst.specs.Dates.{date_at};
ghost use Rattle.uw_subst.specs.Templates.{fault_of, piece_written, pieces_of};

/// The date at the moment of a date of `httpdate` is its text. Each moment before the year 10000 has
/// such a date, and the later ones have no text.
pub fn dates_are_those_of_httpdate()
    ensures text { (date : HttpDate) → date_at (unix_secs date) ≡ date_text date }
    ensures each { (moment : ℕ) → moment < 253402300800 → (date : HttpDate) × (unix_secs date ≡ moment) }
    ensures none { (moment : ℕ) → 253402300800 ≤ moment → date_at moment ≡ [] }
{}

/// The place of a bad form is that of a `${`.
pub fn a_fault_is_the_place_of_a_form()
    ensures { (text : List ℕ) (at : ℕ) → fault_of text ≡ Some at → (slice_index text at ≡ 36) × (slice_index text (at + 1) ≡ 123) }
{}

/// The pieces of a text, as they are written, are the text.
pub fn pieces_are_the_text()
    ensures { (text : List ℕ) → flat_map piece_written (pieces_of text) ≡ text }
{}
