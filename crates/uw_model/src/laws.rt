//! Laws of the definitions, over all lists and calls. Each is the contract of a function that does nothing.
ghost use Rattle.std.specs.Prelude.{◌≡◌, ℕ, ℤ, ◌+◌, ◌-◌, ◌^◌, ◌<◌, ◌≤◌, ◌+ℤ◌, ◌↔◌, ◌⊎◌, false, List, [], Some, None, All, IsTrue, ◌++◌, slice_get, option_map, IsSomeAnd, length, slice_index_or, fold};
ghost use Rattle.uw_model.specs.declared.conf.CacheConf.{CacheConf};
ghost use Rattle.uw_model.specs.declared.entries.Entry.{Entry};
ghost use Rattle.uw_model.specs.declared.calls.Call.{Call};
ghost use Rattle.uw_model.specs.declared.calls.MathOp.{MathOp};
ghost use Rattle.uw_model.specs.declared.calls.Call.TheVariants as calls;
ghost use Rattle.uw_model.specs.declared.calls.Answer.TheVariants as answers;
ghost use Rattle.uw_model.specs.Entries.{IsCacheConf, IsState, covers, max_value, span};
ghost use Rattle.uw_model.specs.Placement.{is_free, first_run, room};
ghost use Rattle.uw_model.specs.Calls.{answer, next_state, alive_at, bytes_of_number, dies_at, dies_of_number};
ghost use Rattle.uw_model.specs.ListState.{ListState};
ghost use Rattle.uw_model.specs.AreaHistory.{AnsweredOp, area_answer_at, area_answer_at_from, area_history_of, area_replay, area_replay_from};
ghost use Rattle.uw_model.specs.AreaOps.{AreaState};
ghost use Rattle.uw_model.specs.Asks.{Asking, answered_at, of_desk};
ghost use Rattle.uw_model.specs.declared.asks.Asked.{Asked};
ghost use Rattle.uw_model.specs.Lists.{Lists, LeadsLists, empty_lists};
ghost use Rattle.uw_model.specs.History.{Answered, answer_at, answer_at_from, history_of, replay, replay_from};
ghost use Rattle.uw_model.specs.Laws.{is_refusal, IsLeastRun, IsLongestFront, IsWritten, list_after_amounts, TakesAmounts};

/// The empty list is well-formed for every configuration.
pub fn empty_list_is_a_state()
    ensures { (conf : CacheConf) → IsState conf [] }
{}

/// Each call leaves a well-formed list.
pub fn next_list_is_a_state()
    ensures { (conf : CacheConf) (list : List Entry) (now : ℕ) (call : Call)
        → IsCacheConf conf → IsState conf list → IsState conf (next_state conf list now call) }
{}

/// A refused call changes nothing.
pub fn refused_call_changes_nothing()
    ensures { (conf : CacheConf) (list : List Entry) (now : ℕ) (call : Call)
        → IsTrue (is_refusal (answer conf list now call)) → next_state conf list now call ≡ list }
{}

/// What a set wrote is what a get answers, at each moment before the entry dies.
pub fn set_value_is_got()
    ensures { (conf : CacheConf) (list : List Entry) (now later ttl : ℕ) (key value : List ℕ)
        → answer conf list now (calls.Set key value ttl) ≡ answers.Done
        → (dies_at now ttl ≡ 0) ⊎ (later < dies_at now ttl)
        → answer conf (next_state conf list now (calls.Set key value ttl)) later (calls.Get key)
        ≡ answers.Value value }
{}

/// A run of blocks is free exactly where no entry covers a block of it.
pub fn free_run_is_covered_nowhere()
    ensures { (conf : CacheConf) (list : List Entry) (n place : ℕ) → 1 ≤ n
        → IsTrue (is_free conf list n place)
        ↔ All (λ e. (block : ℕ) → place ≤ block → block < place + n → covers conf e block → ⊥) list }
{}

/// The first run is the least place from which the blocks exist and are free.
pub fn first_run_is_the_least()
    ensures { (conf : CacheConf) (list : List Entry) (n place : ℕ)
        → (first_run conf list n ≡ Some place) ↔ IsLeastRun conf list n place }
{}

/// There is no first run exactly where the blocks are free from no place.
pub fn no_first_run_where_none_is_free()
    ensures { (conf : CacheConf) (list : List Entry) (n : ℕ)
        → (first_run conf list n ≡ None)
        ↔ ((place : ℕ) → place + n ≤ conf.blocks → is_free conf list n place ≡ false) }
{}

/// Whether a key exists, its number and the list of keys are asked without a change.
pub fn questions_change_nothing()
    ensures exists { (conf : CacheConf) (list : List Entry) (now : ℕ) (key : List ℕ)
        → next_state conf list now (calls.Exists key) ≡ list }
    ensures num { (conf : CacheConf) (list : List Entry) (now : ℕ) (key : List ℕ)
        → next_state conf list now (calls.Num key) ≡ list }
    ensures keys { (conf : CacheConf) (list : List Entry) (now : ℕ) → next_state conf list now calls.Keys ≡ list }
{}

/// With `purge_lru` there is always room for a value that may be written, and it is made by dropping no more of the
/// least recent entries than needed.
pub fn purge_keeps_the_longest_front()
    ensures { (conf : CacheConf) (list : List Entry) (n now : ℕ)
        → IsCacheConf conf → n ≤ conf.blocks → IsTrue conf.purge_lru
        → IsSomeAnd (room conf list n now) (IsLongestFront conf list n) }
{}

/// An update that finds the cache full leaves the old value, and each get answers as before.
pub fn full_update_keeps_the_value()
    ensures { (conf : CacheConf) (list : List Entry) (now later ttl : ℕ) (key value : List ℕ)
        → answer conf list now (calls.Update key value ttl) ≡ answers.Full
        → answer conf (next_state conf list now (calls.Update key value ttl)) later (calls.Get key)
        ≡ answer conf list later (calls.Get key) }
{}

/// No block is covered by two entries of a well-formed list.
pub fn no_block_is_covered_twice()
    ensures { (conf : CacheConf) (list : List Entry) (i j block : ℕ) (d : Entry)
        → IsState conf list → i < j → j < length list
        → covers conf (slice_index_or list i d) block → covers conf (slice_index_or list j d) block → ⊥ }
{}

/// The number that a number call answered is the number of the key, at each moment before the entry dies.
pub fn answered_number_is_kept()
    ensures { (conf : CacheConf) (list : List Entry) (now later ttl : ℕ) (key : List ℕ) (op : MathOp) (by number : ℤ)
        → answer conf list now (calls.Math op key by ttl) ≡ answers.Number number
        → (dies_of_number now ttl (alive_at conf list now key) ≡ 0)
        ⊎ (later < dies_of_number now ttl (alive_at conf list now key))
        → answer conf (next_state conf list now (calls.Math op key by ttl)) later (calls.Num key)
        ≡ answers.Number number }
{}

/// The number of a key after amounts were added to it is the number before and the sum of the amounts. The last moment
/// of all is left out, since an entry that is written then to live for some time is dead at once.
pub fn number_is_the_sum_of_the_amounts()
    ensures { (conf : CacheConf) (list : List Entry) (now ttl : ℕ) (key : List ℕ) (before : ℤ) (amounts : List ℤ)
        → now < 2 ^ 64 - 1
        → answer conf list now (calls.Num key) ≡ answers.Number before
        → TakesAmounts conf list now key ttl amounts
        → answer conf (list_after_amounts conf list now key ttl amounts) now (calls.Num key)
        ≡ answers.Number (fold ◌+ℤ◌ before amounts) }
{}

/// Asks that lead from lists to lists leave in each cache the replay of its history, from its list on, and in each area
/// the replay of its own, from its bytes on; and each of them that counts was answered as the call or the operation at
/// its place.
pub fn asks_leave_the_replay()
    ensures list { (before now : Lists) (asked : List Asking) (cache : ℕ) (c : ListState)
        → LeadsLists before asked now → slice_get before.caches cache ≡ Some c
        → slice_get now.caches cache
        ≡ Some (record { conf = c.conf; list = replay_from (λ (m : Answered). m.moment) (λ (m : Answered). m.call) c.conf c.list (history_of cache asked) }) }
    ensures answers { (before now : Lists) (asked : List Asking) (cache place : ℕ) (c : ListState)
        → LeadsLists before asked now → slice_get before.caches cache ≡ Some c
        → answer_at_from (λ (m : Answered). m.moment) (λ (m : Answered). m.call) c.conf c.list (history_of cache asked) place
        ≡ option_map (λ (m : Answered). m.answer) (slice_get (history_of cache asked) place) }
    ensures area { (before now : Lists) (asked : List Asking) (area : ℕ) (a : AreaState)
        → LeadsLists before asked now → slice_get before.areas area ≡ Some a
        → slice_get now.areas area ≡ Some (area_replay_from (λ (m : AnsweredOp). m.op) a (area_history_of area asked)) }
    ensures area_answers { (before now : Lists) (asked : List Asking) (area place : ℕ) (a : AreaState)
        → LeadsLists before asked now → slice_get before.areas area ≡ Some a
        → area_answer_at_from (λ (m : AnsweredOp). m.op) a (area_history_of area asked) place
        ≡ option_map (λ (m : AnsweredOp). m.answer) (slice_get (area_history_of area asked) place) }
{}

/// The same of caches that are empty at first, and of areas whose bytes are 0.
pub fn asks_of_empty_lists_leave_the_replay()
    ensures list { (confs : List CacheConf) (sizes : List ℕ) (now : Lists) (asked : List Asking) (cache : ℕ) (conf : CacheConf)
        → LeadsLists (empty_lists confs sizes) asked now → slice_get confs cache ≡ Some conf
        → slice_get now.caches cache
        ≡ Some (record { conf = conf; list = replay (λ (m : Answered). m.moment) (λ (m : Answered). m.call) conf (history_of cache asked) }) }
    ensures answers { (confs : List CacheConf) (sizes : List ℕ) (now : Lists) (asked : List Asking) (cache place : ℕ) (conf : CacheConf)
        → LeadsLists (empty_lists confs sizes) asked now → slice_get confs cache ≡ Some conf
        → answer_at (λ (m : Answered). m.moment) (λ (m : Answered). m.call) conf (history_of cache asked) place
        ≡ option_map (λ (m : Answered). m.answer) (slice_get (history_of cache asked) place) }
    ensures area { (confs : List CacheConf) (sizes : List ℕ) (now : Lists) (asked : List Asking) (area size : ℕ)
        → LeadsLists (empty_lists confs sizes) asked now → slice_get sizes area ≡ Some size
        → slice_get now.areas area ≡ Some (area_replay (λ (m : AnsweredOp). m.op) size (area_history_of area asked)) }
    ensures area_answers { (confs : List CacheConf) (sizes : List ℕ) (now : Lists) (asked : List Asking) (area place size : ℕ)
        → LeadsLists (empty_lists confs sizes) asked now → slice_get sizes area ≡ Some size
        → area_answer_at (λ (m : AnsweredOp). m.op) size (area_history_of area asked) place
        ≡ option_map (λ (m : AnsweredOp). m.answer) (slice_get (area_history_of area asked) place) }
{}

/// Two lists of asks in a row ask a desk what the one asks and then what the other asks, and were answered at one moment
/// where each of them was.
pub fn asks_of_a_desk_add_up()
    ensures of_desk { (early late : List Asking) → of_desk (early ++ late) ≡ of_desk early ++ of_desk late }
    ensures answered { (moment : ℕ) (early late : List Asked) → answered_at moment (early ++ late) ≡ answered_at moment early ++ answered_at moment late }
{}

/// A list without entries has room for every value that is not too long.
pub fn empty_list_has_room()
    ensures { (conf : CacheConf) (value : List ℕ) (now : ℕ) → IsCacheConf conf → length value ≤ max_value conf
        → room conf [] (span conf value) now ≡ Some [] }
{}

/// What a call writes stands at the first run of the list that has room for it, and so there always is one.
pub fn written_entry_stands_at_the_first_run()
    ensures set { (conf : CacheConf) (list : List Entry) (now ttl : ℕ) (key value : List ℕ) → IsCacheConf conf
        → answer conf list now (calls.Set key value ttl) ≡ answers.Done
        → IsWritten conf list now key value (dies_at now ttl) (next_state conf list now (calls.Set key value ttl)) }
    ensures update { (conf : CacheConf) (list : List Entry) (now ttl : ℕ) (key value : List ℕ) → IsCacheConf conf
        → answer conf list now (calls.Update key value ttl) ≡ answers.Done
        → IsWritten conf list now key value (dies_at now ttl) (next_state conf list now (calls.Update key value ttl)) }
    ensures math { (conf : CacheConf) (list : List Entry) (now ttl : ℕ) (key : List ℕ) (op : MathOp) (by number : ℤ) → IsCacheConf conf
        → answer conf list now (calls.Math op key by ttl) ≡ answers.Number number
        → IsWritten conf list now key (bytes_of_number number) (dies_of_number now ttl (alive_at conf list now key))
        (next_state conf list now (calls.Math op key by ttl)) }
{}

/// With `purge_lru` nothing expires: what a set wrote is what a get answers, at every moment.
pub fn set_value_is_got_at_every_moment_under_purge()
    ensures { (conf : CacheConf) (list : List Entry) (now later ttl : ℕ) (key value : List ℕ) → IsTrue conf.purge_lru
        → answer conf list now (calls.Set key value ttl) ≡ answers.Done
        → answer conf (next_state conf list now (calls.Set key value ttl)) later (calls.Get key) ≡ answers.Value value }
{}
