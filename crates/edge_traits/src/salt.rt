/// A server's secret of 16 octets, from which nonces are made.
#[derive(Clone, Copy, PartialEq, Eq)]
pub struct Salt(pub [u8; 16]);
