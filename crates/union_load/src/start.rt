//! What a load begins with.
use authority_names::name_table::NameTable;
use catalogue_query::questions::Questions;

/// The names by which a catalogue gives work keys, and what is asked of it while it is loaded and after.
#[derive(Drop)]
pub struct Start {
    pub names: NameTable,
    pub questions: Questions,
}
