/// The state of the clock discipline (RFC 5905, section 11.3, figure 28).
#[derive(Clone, Copy, Debug, PartialEq, Eq)]
pub enum State {
    /// Neither time nor frequency was set yet.
    Nset,
    /// The frequency was set, from what an earlier run left.
    Fset,
    /// A spike: an offset over the step threshold, not believed yet.
    Spik,
    /// The frequency is being measured.
    Freq,
    /// In step with the time of other servers.
    Sync,
}
