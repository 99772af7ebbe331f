//! What came of asking for the next frame.
use iso2709_frame::cut::Cut;

/// What came of asking for the next frame.
#[derive(Clone, Copy, Debug, PartialEq, Eq)]
pub enum Next {
    /// A frame, cut so.
    Frame(Cut),
    /// The source ended within the limit, and each of its frames was handed out.
    End,
    /// The source gave as many bytes as the limit allows and at least one more, and each frame that ends within the limit
    /// was handed out.
    TooLong,
    /// A read of the source failed.
    Failed,
}
