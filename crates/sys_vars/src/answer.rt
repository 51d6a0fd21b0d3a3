use edge_traits::Grams;

/// The answer to a control request.
#[derive(Drop)]
pub enum Answer {
    /// None: the sender is refused.
    Ignored,
    /// These datagrams, made of the record of this epoch.
    Given { epoch: u64, grams: Grams },
}
