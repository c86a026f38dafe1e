// What comes of a rule's test.
use uw_base::BytesList;

/// What comes of a rule's test.
#[derive(Drop)]
pub enum Verdict {
    /// It is met, with the captures of its pattern, at most nine.
    Met(BytesList),
    /// It is not.
    Missed,
    /// A text of it is longer than its limit.
    Overlong,
}
