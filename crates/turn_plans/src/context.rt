//! What a turn is planned on.
use catalogue_editions::batch::Batch;
use catalogue_editions::edition::Edition;
use catalogue_editions::history_entry::HistoryEntry;
use record_homes::table::HomeTable;
use swoosh_resolver::blocks::Blocks;

/// What stands while a turn is planned, and the batch whose turn it is: nothing of it changes until the plan is whole.
#[derive(Clone, Copy)]
pub struct Context<'a> {
    pub history: &'a [HistoryEntry],
    pub homes: &'a HomeTable,
    pub blocks: &'a Blocks<Edition>,
    pub batch: &'a Batch,
}
