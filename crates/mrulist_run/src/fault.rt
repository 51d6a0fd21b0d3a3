use ntpq_client::AskFault;

/// Why a listing did not complete.
#[derive(Clone, Copy, Debug, PartialEq, Eq)]
pub enum RunFault {
    /// The client has no whole answer, or the server refused a request.
    Ask(AskFault),
    /// A whole answer was none that was asked for, after so many whole answers.
    BadReply { place: u32 },
    /// Memory was wanting.
    NoMemory,
}
