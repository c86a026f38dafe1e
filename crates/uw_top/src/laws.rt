//! Laws of the definitions. Each is the contract of a function that does nothing.
ghost use Rattle.std.specs.Prelude.{◌≡◌, ℕ, List, map, Option, None, Some};
ghost use Rattle.std.specs.List.{AllByRecursion, flat_map};
ghost use Rattle.uw_outside.specs.Streams.{Inflow, Outflow};
ghost use Rattle.uw_keeper.specs.declared.keeper.Row.{Row};
ghost use Rattle.uw_keeper.specs.Keeping.{Keeping};
ghost use Rattle.uw_model.specs.Asks.{answered_at};
ghost use Rattle.uw_model.specs.Lists.{Lists};
ghost use Rattle.uw_chain.specs.Spooling.{failed_tasks};
ghost use Rattle.uw_ends.specs.declared.ends.Brief.{Brief};
ghost use Rattle.uw_ends.specs.declared.ends.RunFault.{RunFault};
ghost use Rattle.uw_conf.specs.declared.conf.Options.{Options};
ghost use Rattle.uw_session.specs.Exchange.{Exchange, IsAccepted, Site, exchange_bytes};
ghost use Rattle.uw_top.specs.Laws.{IsOfBytes, as_read};
ghost use Rattle.uw_top.specs.Pipe.{PipeRun, Turn, TurnsLead, both_lead, death_of, frames_of, list_leads};

use uw_outside::Clock;

/// Bytes are cut in one way into packets that are answered, with their bodies.
pub fn bytes_are_cut_in_one_way()
    ensures { (conf : Options) (xs ys : List Exchange) → AllByRecursion (IsAccepted conf) xs → AllByRecursion (IsAccepted conf) ys → map (λ (x : Exchange). x.moment) xs ≡ map (λ (y : Exchange). y.moment) ys
        → flat_map exchange_bytes xs ≡ flat_map exchange_bytes ys → xs ≡ ys }
{}

/// Over plain lists, and a keeper that tells its rows, the asks and the replies of a run whose workers do not die and whose
/// tasks do not fail, and the lists and the rows behind it, are a function of its packets.
pub fn replies_over_lists_are_a_function()
    ensures { (site : Site) (start begin after last : Lists × Keeping) (rows : List Row) (allowed more left rest : Option (List ℕ)) (turns others : List Turn)
        → start.0 ≡ begin.0 → start.1.rows ≡ Some rows → begin.1.rows ≡ Some rows
        → TurnsLead (both_lead list_leads) site start allowed turns after left → TurnsLead (both_lead list_leads) site begin more others last rest
        → AllByRecursion (λ (t : Turn). death_of t.end ≡ None) turns → AllByRecursion (λ (t : Turn). death_of t.end ≡ None) others
        → AllByRecursion (λ (t : Turn). failed_tasks (answered_at t.packet.moment t.asked) ≡ 0) turns
        → AllByRecursion (λ (t : Turn). failed_tasks (answered_at t.packet.moment t.asked) ≡ 0) others
        → map (λ (t : Turn). t.packet) turns ≡ map (λ (t : Turn). t.packet) others
        → (map (λ (t : Turn). t.asked) turns ≡ map (λ (t : Turn). t.asked) others) × (frames_of turns ≡ frames_of others)
        × (after.0 ≡ last.0) × (after.1.rows ≡ last.1.rows) }
{}

/// Two runs over the same site and the same bytes, neither of which ended by want of memory, a failed read or a failed
/// write, served the same packets, each at its own moments, and ended by the same fault.
pub fn bytes_tell_how_a_run_ends<C: Clock, D: Clock>()
    ensures { (site : Site) (start last begin finish : Lists × Keeping) (allowed more : Option (List ℕ)) (src from : Inflow) (snk into : Outflow)
        (clock now : C) (other_clock other_now : D) (told said : List Brief) (fault other : Option RunFault) (bytes : List ℕ)
        → (run : PipeRun (both_lead list_leads) start last allowed site src snk (C.gave clock now) told fault)
        → (again : PipeRun (both_lead list_leads) begin finish more site from into (D.gave other_clock other_now) said other)
        → src.before ≡ Some bytes → from.before ≡ Some bytes → IsOfBytes fault → IsOfBytes other
        → (map as_read run.turns ≡ map as_read again.turns) × (fault ≡ other) }
{}
