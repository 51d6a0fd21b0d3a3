use crate::op::Stop;

/// What a journal keeps beside its operations.
#[derive(Clone, Copy)]
pub(crate) struct Index {
    /// Where the last record was published.
    pub(crate) last: Option<usize>,
    /// How many records were published.
    pub(crate) publications: usize,
    /// The stop, where there is one.
    pub(crate) stop: Option<Stop>,
}
