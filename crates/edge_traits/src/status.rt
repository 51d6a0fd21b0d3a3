/// The exit status of a program; 0 says that it did all that it was asked.
#[derive(Clone, Copy, Debug, PartialEq, Eq)]
pub struct Status(pub u8);
