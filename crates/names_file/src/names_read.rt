//! What a file of names was read into.
use authority_names::name_table::NameTable;

/// What a file of names was read into.
#[derive(Drop)]
pub struct NamesRead {
    pub table: NameTable,
    /// A line for each refused frame, and the line of counts.
    pub report: Vec<u8>,
    /// Whether some frame was refused.
    pub refused: bool,
}
