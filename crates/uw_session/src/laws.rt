//! Laws of the definitions, over all sites and packets. Each is the contract of a function that does nothing.
ghost use Rattle.std.specs.Prelude.{◌≡◌, ℕ, List, ◌∷◌, ◌++◌, map};
ghost use Rattle.uw_model.specs.declared.asks.Asked.{Asked};
ghost use Rattle.uw_chain.specs.Courses.{Unfolds, ask_next, end_next, ended};
ghost use Rattle.uw_session.specs.Exchange.{Exchange, Site, course_of_site, next_of_site};

/// Asks are those of a packet up to its reply exactly where each is the next one after the answers before it, and after
/// all answers comes the reply.
pub fn a_packet_makes_the_next_asks()
    ensures next { (site : Site) (x : Exchange) (early late : List Asked) (one : Asked) (reply : List ℕ) → Unfolds (course_of_site site x) (early ++ one ∷ late) (ended reply)
        → next_of_site site x (map (λ (asked : Asked). asked.answer) early) ≡ ask_next one.ask }
    ensures end { (site : Site) (x : Exchange) (all : List Asked) (reply : List ℕ) → Unfolds (course_of_site site x) all (ended reply)
        → next_of_site site x (map (λ (asked : Asked). asked.answer) all) ≡ end_next reply }
    ensures only { (site : Site) (x : Exchange) (all : List Asked) (reply : List ℕ)
        → ((early late : List Asked) (one : Asked) → all ≡ early ++ one ∷ late
        → next_of_site site x (map (λ (asked : Asked). asked.answer) early) ≡ ask_next one.ask)
        → next_of_site site x (map (λ (asked : Asked). asked.answer) all) ≡ end_next reply
        → Unfolds (course_of_site site x) all (ended reply) }
{}

/// Of the same site and packet, the same answers make the same asks and the same reply.
pub fn a_reply_is_told_by_the_answers()
    ensures { (site : Site) (x : Exchange) (all others : List Asked) (reply other : List ℕ)
        → Unfolds (course_of_site site x) all (ended reply) → Unfolds (course_of_site site x) others (ended other)
        → map (λ (asked : Asked). asked.answer) all ≡ map (λ (asked : Asked). asked.answer) others
        → (all ≡ others) × (reply ≡ other) }
{}
