// A gate, which each request passes between its accept and its answer.

/// Lets requests through, each by its number, as soon as it is to be answered.
pub trait Gate {
    /// Returns once the request may be answered. Each worker counts its requests from 1.
    fn pass(&self, request: u64);
}
