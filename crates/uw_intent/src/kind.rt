// A kind of region, as the laws speak of it.
ghost use Rattle.uw_intent.specs.Standing.{Kind};

/// A kind of region: its states, the calls on it and their answers. Its member says how its words agree with a state and
/// what a call answers and leaves, for proofs alone.
pub trait RegionKind {
    type State;

    type Call;

    type Answer;

    // What there is to know of the kind.
    ghost kind: { Kind Self.State Self.Call Self.Answer };
}
