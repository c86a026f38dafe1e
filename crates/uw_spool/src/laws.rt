//! Laws of tasks and rounds. Each is the contract of a function that does nothing.
ghost use Rattle.std.specs.Prelude.{◌≡◌, ◌↔◌, ◌⊎◌, ◌<◌, ◌≤◌, ◌==◌, ◌%◌, ℕ, ℤ, pos, negsuc, true, if◌then◌else◌, List, [], ◌∷◌, ◌++◌, codes, length, map, Some, IsSome, Contains};
ghost use Rattle.uw_base.specs.declared.variables.Pair.{Pair};
ghost use Rattle.uw_packet.specs.BlockReads.{vars_block};
ghost use Rattle.uw_keeper.specs.declared.keeper.Row.{Row};
ghost use Rattle.uw_keeper.specs.Rows.{AreRows};
ghost use Rattle.uw_chain.specs.Spooling.{row_bytes};
ghost use Rattle.uw_spool.specs.declared.report.Outcome.TheVariants as outcomes;
ghost use Rattle.uw_spool.specs.declared.report.TaskLine.{TaskLine};
ghost use Rattle.uw_spool.specs.Rounds.{AreOwnTurns, Round, TaskRules, TaskTurn, is_done, line_of_turn, own_rows};
ghost use Rattle.uw_spool.specs.Tasks.{counted_status, most_row_bytes, row_vars};

/// The turns of a whole round, over rows that its keeper told at its start, are those of all its spooler's rows, in
/// their order: a report has one line for each of them, and no other one.
pub fn whole_round_reports_each_row()
    ensures { (round : Round) (rows : List Row) (turns : List TaskTurn) → AreRows rows → AreOwnTurns round (Some rows) turns []
        → map (λ (line : TaskLine). line.number) (map line_of_turn turns) ≡ map (λ (row : Row). row.number) (own_rows round rows) }
{}

/// A row that was written for a task is read back as the task's variables, with its body where that has a byte.
pub fn written_row_is_read()
    ensures { (vars : List Pair) (body : List ℕ) → IsSome (vars_block vars) → length (row_bytes vars body) ≤ most_row_bytes
        → row_vars (row_bytes vars body) ≡ Some (if length body == 0 then vars else vars ++ record { key = codes "body"; value = body } ∷ []) }
{}

/// A status counts as -2, -1 or 0, and as -2 just where it is -2: then alone a task is done.
pub fn status_counts_as_one_of_three()
    ensures three { (status : ℤ) → (counted_status status ≡ negsuc 1) ⊎ (counted_status status ≡ negsuc 0) ⊎ (counted_status status ≡ pos 0) }
    ensures done { (status : ℤ) → (is_done (outcomes.Status (counted_status status)) ≡ true) ↔ (status ≡ negsuc 1) }
{}

/// Of so many spoolers just one has a row.
pub fn row_has_one_spooler()
    ensures one { (rules : TaskRules) (now spoolers : ℕ) (rows : List Row) (row : Row) → 0 < spoolers → Contains rows row
        → (k : ℕ) × (k < spoolers) × Contains (own_rows (record { rules = rules; now = now; spooler = k; spoolers = spoolers }) rows) row }
    ensures only { (rules : TaskRules) (now spoolers k : ℕ) (rows : List Row) (row : Row)
        → Contains (own_rows (record { rules = rules; now = now; spooler = k; spoolers = spoolers }) rows) row → row.number % spoolers ≡ k }
{}
