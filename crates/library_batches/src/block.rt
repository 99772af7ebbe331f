//! What the frames of one block ask for.
use catalogue_editions::op::Op;

/// What the frames of one block ask for.
#[derive(Drop)]
pub struct Block {
    /// The operations of the accepted ones, in order.
    pub ops: Vec<Op>,
    /// Whether the source ended within the block.
    pub ended: bool,
}
