// What can be kept under the lock.
ghost use Rattle.std.specs.Prelude.{List, Bool};
ghost use Rattle.uw_lock.specs.declared.entries.Made.{Made};

/// A value that stands for a history of entries. Its members say how, for proofs alone.
pub trait Kept: Drop {
    /// What is noted of a call.
    type Entry;
    /// The part of the value that no call changes. Only proofs have values of it.
    type Conf;

    // The configuration of a value.
    ghost conf: { Self → Self.Conf };

    // Whether the value stands for this history.
    ghost stands: { Self → List (Made Self.Entry) → Type 0 };

    // Whether an intent is pending.
    ghost pending: { Self → Bool };
}
