// What a caller knows, as plain data. No value of it is made.
use std::collections::LinkedList;

/// Where a caller stands.
pub enum Stage {
    /// It has no ticket.
    Out,
    /// It has drawn this ticket.
    Waits(u64),
    /// It has the turn of this ticket, and with it the object.
    Has(u64),
}

/// What a caller knows. `heard` has the fronts of the history that the seats joined to it had seen.
pub struct Seen<P, S> {
    pub stage: Stage,
    pub share: u64,
    pub opening: Option<S>,
    pub front: LinkedList<P>,
    pub heard: LinkedList<LinkedList<P>>,
    pub own: LinkedList<u64>,
}
