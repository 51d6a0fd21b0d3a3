/// A place that a worker passes before it gives an answer, where a test can hold it back.
pub trait Gate {
    /// The worker `who` passes on its way to give the answer of its act `act`, counted from 0.
    fn pass(&self, who: u32, act: u64);
}

/// The gate that holds nobody back.
#[derive(Clone, Copy, Debug, PartialEq, Eq)]
pub struct OpenGate;

impl Gate for OpenGate {
    fn pass(&self, _who: u32, _act: u64) {}
}
