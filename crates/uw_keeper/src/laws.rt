//! Laws of rows. Each is the contract of a function that does nothing.
ghost use Rattle.std.specs.Prelude.{◌≡◌, ◌+◌, ◌≤◌, ◌<◌, ℕ, List, [], ◌∷◌, ◌++◌, Some, None, length, true, false, Contains, ◌≢◌};
ghost use Rattle.uw_keeper.specs.declared.keeper.Row.{Row};
ghost use Rattle.uw_keeper.specs.Rows.{AreRows, has_row, last_number, last_of_rows, row_after, without_row};
ghost use Rattle.uw_keeper.specs.Visits.{rows_in_turn};

/// A row behind the others is the last one.
pub fn appended_row_is_the_last()
    ensures { (rows : List Row) (row : Row) → last_of_rows (rows ++ row ∷ []) ≡ Some row.number }
{}

/// A row behind the others, with a greater number than theirs, leaves rows whose numbers rise.
pub fn appended_row_leaves_rows()
    ensures { (rows : List Row) (row : Row) → AreRows rows → last_number rows < row.number → AreRows (rows ++ row ∷ []) }
{}

/// A removal leaves rows whose numbers rise.
pub fn removal_leaves_rows()
    ensures { (rows : List Row) (number : ℕ) → AreRows rows → AreRows (without_row number rows) }
{}

/// As many asks as there are rows, the first with 0 and each later one with the number of the row before, give every row
/// once and in order. After the last one there is none.
pub fn asks_in_turn_give_every_row()
    ensures { (rows : List Row) → AreRows rows → (rows_in_turn (length rows) 0 rows ≡ rows) × (row_after (last_number rows) rows ≡ None) }
{}

/// A removal takes the row of its number.
pub fn removed_row_is_gone()
    ensures { (rows : List Row) (number : ℕ) → has_row number (without_row number rows) ≡ false }
{}

/// A removal leaves each other row.
pub fn removal_leaves_the_others()
    ensures { (rows : List Row) (number : ℕ) (row : Row) → Contains rows row → row.number ≢ number → Contains (without_row number rows) row }
{}

/// A removal of a row that was passed changes no later ask.
pub fn removal_leaves_the_later_rows()
    ensures { (rows : List Row) (removed number : ℕ) → removed ≤ number
        → row_after number (without_row removed rows) ≡ row_after number rows }
{}
