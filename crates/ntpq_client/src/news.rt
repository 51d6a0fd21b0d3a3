use edge_traits::Text;

/// What one event at its port is to a client that waits.
#[derive(Drop)]
pub enum News {
    /// It goes on waiting.
    Nothing,
    /// An answer is whole: its status and its text.
    Answered { status: u16, text: Text },
    /// The request is refused, with this error code.
    Denied { code: u8 },
    /// Nothing came for a while.
    Quiet,
}
