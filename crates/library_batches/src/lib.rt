//! The batches of a library's source: what its records ask for, some at a time.
//!
//! A source is read to its end, its frames are cut and checked (ISO 2709; the nineteen rules), and the accepted ones of each
//! 256 frames make one batch of operations, which is one turn at a catalogue. `batch_reader::BatchReader` hands the batches
//! out one after the other and keeps the refused frames; its call `next_by` has the frames of a batch checked by several
//! workers, `next_round` those of 16 blocks, and both hand out the same. The definitions are `AreBatches`, of specs/Batches, and `refused`,
//! of specs/Refused, on the frames of the whole source; `outcome_counts::OutcomeCounts` counts what came of the operations.
//! `report_texts::add_report` tells of a source: a line for each refused frame, how many frames there are, and what came of the
//! others, exactly as specs/Reports says.
//!
//! Each frame is checked once and made into a record once, which is gone when its operation is made. Memory grows with the
//! operations of one batch and with the refused frames, and where several workers check them with the frames of one batch or round.
#![tactic(auto)]

pub mod batch_reader;
mod block;
mod by_workers;
mod checking;
mod cut_frame;
mod cutting;
pub mod laws;
pub mod outcome_counts;
pub mod refused;
pub mod report;
pub mod report_lines;
pub mod report_texts;
pub mod several;
mod shares;
pub mod stop;
mod work;
mod working;
