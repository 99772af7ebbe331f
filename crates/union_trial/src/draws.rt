//! What is drawn for a frame.

/// What is drawn for a frame, in this order.
#[derive(Clone, Copy, Debug, PartialEq, Eq)]
pub struct Draws {
    /// 0 where the frame withdraws a record.
    pub op: u32,
    /// The control number.
    pub control: u32,
    /// The number in the title.
    pub title: u32,
    /// The number in the author's name.
    pub name: u32,
    /// The year of publication.
    pub year: u32,
    /// The nine digits of the ISBN after its prefix.
    pub number: u32,
}
