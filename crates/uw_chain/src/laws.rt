//! Laws of the definitions, over all rules and requests. Each is the contract of a function that does nothing.
ghost use Rattle.std.specs.Prelude.{◌≡◌, ◌+◌, ◌≤◌, ℕ, ℤ, List, [], ◌∷◌, ◌++◌, None, length, map};
ghost use Rattle.std.specs.List.{Contains};
ghost use Rattle.uw_base.specs.declared.variables.Pair.{Pair};
ghost use Rattle.uw_model.specs.declared.asks.Asked.{Asked};
ghost use Rattle.uw_rules.specs.declared.compiled.Action.{Action};
ghost use Rattle.uw_rules.specs.WrittenRules.{WrittenRule};
ghost use Rattle.uw_chain.specs.declared.outcome.Outcome.TheVariants as outcomes;
ghost use Rattle.uw_chain.specs.declared.outcome.RouteEnd.{RouteEnd};
ghost use Rattle.uw_chain.specs.declared.request.Request.{Request};
ghost use Rattle.uw_chain.specs.ActionTexts.{texts_of_action};
ghost use Rattle.uw_chain.specs.Actions.{course_of_action};
ghost use Rattle.uw_chain.specs.Courses.{ask_next, end_next, ended};
ghost use Rattle.uw_chain.specs.declared.outcome.Ending.TheVariants as endings;
ghost use Rattle.uw_chain.specs.Routing.{Naming, RoutingRun, TaskRun, course_of_rules, next_of_rules, task_next};
ghost use Rattle.uw_chain.specs.Tests.{filled_within};

/// Asks are those of a whole run exactly where each is the next one after the answers before it, and after all answers
/// comes the end.
pub fn a_run_makes_the_next_asks()
    ensures next { (naming : Naming) (rules : List WrittenRule) (moment : ℕ) (vars : List Pair) (early late : List Asked) (one : Asked) (ending : RouteEnd)
        → RoutingRun naming rules moment vars (early ++ one ∷ late) ending
        → next_of_rules naming rules moment vars (map (λ (asked : Asked). asked.answer) early) ≡ ask_next one.ask }
    ensures end { (naming : Naming) (rules : List WrittenRule) (moment : ℕ) (vars : List Pair) (all : List Asked) (ending : RouteEnd)
        → RoutingRun naming rules moment vars all ending
        → next_of_rules naming rules moment vars (map (λ (asked : Asked). asked.answer) all) ≡ end_next ending }
    ensures only { (naming : Naming) (rules : List WrittenRule) (moment : ℕ) (vars : List Pair) (all : List Asked) (ending : RouteEnd)
        → ((early late : List Asked) (one : Asked) → all ≡ early ++ one ∷ late
        → next_of_rules naming rules moment vars (map (λ (asked : Asked). asked.answer) early) ≡ ask_next one.ask)
        → next_of_rules naming rules moment vars (map (λ (asked : Asked). asked.answer) all) ≡ end_next ending
        → RoutingRun naming rules moment vars all ending }
{}

/// Of the same rules, moment and variables, the same answers make the same asks and the same end.
pub fn a_run_is_told_by_its_answers()
    ensures { (naming : Naming) (rules : List WrittenRule) (moment : ℕ) (vars : List Pair) (all others : List Asked) (ending last : RouteEnd)
        → RoutingRun naming rules moment vars all ending → RoutingRun naming rules moment vars others last
        → map (λ (asked : Asked). asked.answer) all ≡ map (λ (asked : Asked). asked.answer) others
        → (all ≡ others) × (ending ≡ last) }
{}

/// Asks are those of a whole run of a task exactly where each is the next one after the answers before it, and after all
/// answers comes the status.
pub fn a_task_makes_the_next_asks()
    ensures next { (naming : Naming) (rules : List WrittenRule) (moment : ℕ) (vars : List Pair) (early late : List Asked) (one : Asked) (status : ℤ)
        → TaskRun naming rules moment vars (early ++ one ∷ late) status
        → task_next naming rules moment vars (map (λ (asked : Asked). asked.answer) early) ≡ ask_next one.ask }
    ensures end { (naming : Naming) (rules : List WrittenRule) (moment : ℕ) (vars : List Pair) (all : List Asked) (status : ℤ)
        → TaskRun naming rules moment vars all status
        → task_next naming rules moment vars (map (λ (asked : Asked). asked.answer) all) ≡ end_next status }
    ensures only { (naming : Naming) (rules : List WrittenRule) (moment : ℕ) (vars : List Pair) (all : List Asked) (status : ℤ)
        → ((early late : List Asked) (one : Asked) → all ≡ early ++ one ∷ late
        → task_next naming rules moment vars (map (λ (asked : Asked). asked.answer) early) ≡ ask_next one.ask)
        → task_next naming rules moment vars (map (λ (asked : Asked). asked.answer) all) ≡ end_next status
        → TaskRun naming rules moment vars all status }
{}

/// Of the same rules, moment and variables of a task, the same answers make the same asks and the same status.
pub fn a_task_is_told_by_its_answers()
    ensures { (naming : Naming) (rules : List WrittenRule) (moment : ℕ) (vars : List Pair) (all others : List Asked) (status last : ℤ)
        → TaskRun naming rules moment vars all status → TaskRun naming rules moment vars others last
        → map (λ (asked : Asked). asked.answer) all ≡ map (λ (asked : Asked). asked.answer) others
        → (all ≡ others) × (status ≡ last) }
{}

/// An action of which a text is longer than its limit asks nothing, and the rules end.
pub fn a_text_past_its_limit_asks_nothing()
    ensures { (moment : ℕ) (captures : List (List ℕ)) (request : Request) (action : Action) (text : List ℕ)
        → Contains (texts_of_action action) text → filled_within text request.vars captures moment ≡ None
        → course_of_action moment captures request action ≡ ended (outcomes.Ends endings.Failing request) }
{}

/// Rules between a jump and its place do nothing.
pub fn a_jump_passes_over_the_rules_between()
    ensures { (naming : Naming) (moment here until : ℕ) (skipped rules : List WrittenRule) (request : Request) → here + length skipped ≤ until
        → course_of_rules naming moment here until (skipped ++ rules) request ≡ course_of_rules naming moment (here + length skipped) until rules request }
{}
