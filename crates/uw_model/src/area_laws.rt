//! Laws of the areas, over all areas and operations. Each is the contract of a function that does nothing.
ghost use Rattle.std.specs.Prelude.{◌≡◌, ◌≢◌, ℕ, ◌+◌, ◌%◌, ◌^◌, ◌<◌, ◌≤◌, ◌↔◌, ◌⊎◌, ◌&&◌, not, if◌then◌else◌, List, IsTrue, length, slice_get, slice_index};
ghost use Rattle.uw_model.specs.declared.areas.AreaOp.{AreaOp};
ghost use Rattle.uw_model.specs.declared.areas.AreaOp.TheVariants as ops;
ghost use Rattle.uw_model.specs.declared.areas.AreaAnswer.TheVariants as answers;
ghost use Rattle.uw_model.specs.declared.areas.Width.{Width};
ghost use Rattle.uw_model.specs.declared.asks.Ask.TheVariants as asks;
ghost use Rattle.uw_model.specs.declared.calls.Call.{Call};
ghost use Rattle.uw_model.specs.AreaLaws.{is_area_write, is_out_of_area, op_end, op_start};
ghost use Rattle.uw_model.specs.AreaOps.{AreaState, area_answer, area_next, width_bits};
ghost use Rattle.uw_model.specs.Lists.{Lists, lists_after};

/// What was written is read: of bytes as many of them, and of a number what is left of it in its width.
pub fn written_is_read()
    ensures bytes { (a : AreaState) (at : ℕ) (put : List ℕ)
        → area_answer a (ops.Write at put) ≡ answers.Done
        → area_answer (area_next a (ops.Write at put)) (ops.Read at (length put)) ≡ answers.Bytes put }
    ensures number { (a : AreaState) (at : ℕ) (width : Width) (value : ℕ)
        → area_answer a (ops.WriteNum at width value) ≡ answers.Done
        → area_answer (area_next a (ops.WriteNum at width value)) (ops.ReadNum at width)
        ≡ answers.Number (value % 2 ^ width_bits width) }
{}

/// Two increments at one place add up: the second answers the number before and both amounts, wrapped.
pub fn increments_add_up()
    ensures { (a : AreaState) (at : ℕ) (width : Width) (before one two : ℕ)
        → area_answer a (ops.ReadNum at width) ≡ answers.Number before
        → area_answer (area_next a (ops.IncNum at width one)) (ops.IncNum at width two)
        ≡ answers.Number ((before + one + two) % 2 ^ width_bits width) }
{}

/// An increment and then a decrement by the same amount give a number of the width back, and so do a decrement and then
/// an increment.
pub fn increment_is_taken_back()
    ensures down { (a : AreaState) (at : ℕ) (width : Width) (before by : ℕ)
        → area_answer a (ops.ReadNum at width) ≡ answers.Number before → before < 2 ^ width_bits width
        → area_answer (area_next a (ops.IncNum at width by)) (ops.DecNum at width by) ≡ answers.Number before }
    ensures up { (a : AreaState) (at : ℕ) (width : Width) (before by : ℕ)
        → area_answer a (ops.ReadNum at width) ≡ answers.Number before → before < 2 ^ width_bits width
        → area_answer (area_next a (ops.DecNum at width by)) (ops.IncNum at width by) ≡ answers.Number before }
{}

/// An operation is refused exactly where its slice ends behind the area, and then it changes nothing and does not count.
pub fn refused_operation_changes_nothing()
    ensures refused { (a : AreaState) (op : AreaOp) → IsTrue (is_out_of_area (area_answer a op)) ↔ (length a.bytes < op_end op) }
    ensures same { (a : AreaState) (op : AreaOp) → IsTrue (is_out_of_area (area_answer a op)) → area_next a op ≡ a }
{}

/// A write that is not refused raises the count of updates by 1, modulo 2^64, and nothing else does. An operation answers
/// the count.
pub fn writes_are_counted()
    ensures raised { (a : AreaState) (op : AreaOp)
        → (area_next a op).updates
        ≡ (if is_area_write op && not (is_out_of_area (area_answer a op)) then (a.updates + 1) % 2 ^ 64 else a.updates) }
    ensures told { (a : AreaState) → area_answer a ops.Updates ≡ answers.Number a.updates }
{}

/// Every byte outside the slice of an operation stays, and so does the size. What does not write changes nothing.
pub fn other_bytes_stay()
    ensures size { (a : AreaState) (op : AreaOp) → length (area_next a op).bytes ≡ length a.bytes }
    ensures bytes { (a : AreaState) (op : AreaOp) (place : ℕ) → (place < op_start op) ⊎ (op_end op ≤ place)
        → slice_index (area_next a op).bytes place ≡ slice_index a.bytes place }
    ensures read { (a : AreaState) (op : AreaOp) → IsTrue (not (is_area_write op)) → area_next a op ≡ a }
{}

/// An operation of an area leaves every other area and the caches as they are, and a call of a cache the areas.
pub fn other_parts_stay()
    ensures areas { (lists : Lists) (moment area other : ℕ) (op : AreaOp) → other ≢ area
        → slice_get (lists_after lists moment (asks.Area area op)).areas other ≡ slice_get lists.areas other }
    ensures caches { (lists : Lists) (moment area : ℕ) (op : AreaOp)
        → (lists_after lists moment (asks.Area area op)).caches ≡ lists.caches }
    ensures areas_of_calls { (lists : Lists) (moment cache : ℕ) (call : Call)
        → (lists_after lists moment (asks.Cache cache call)).areas ≡ lists.areas }
{}
