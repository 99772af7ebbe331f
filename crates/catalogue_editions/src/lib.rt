//! Editions, which are what the records of several libraries that describe one edition come to together, and the batches by
//! which a library loads and withdraws its records.
//!
//! An [`edition::Edition`] is the features by which it is matched and the content that it shows. The edition of one record
//! has those of the record, and is made in `record_editions`; editions that match merge to the union of their features and the
//! merge of their contents. It keeps the contents of its records as they are. What they merge to is made for whoever asks, as a
//! [`shared_content::SharedContent`], or borrowed from where it lies, as a [`shown::Shown`]. An [`op::Op`] loads the edition of a
//! record, or withdraws a record; the operations of one turn are a [`batch::Batch`], and a [`prepared::Prepared`] batch has its
//! records resolved among themselves. A [`history_entry::HistoryEntry`] is a batch as a turn of a catalogue's history.
//!
//! Guarantee: editions keep the laws of `Join` and of matching, so what a list of records resolves to does not depend on their
//! order; and a batch is of one library, with as many operations as a turn may have.
//! Cost: merging and matching walk sorted lists side by side; merging copies features and contributors, and no content. One more
//! owner of an edition takes no memory. The content of an edition of several records is made by each call that asks for it. What it
//! shows is borrowed from the contents of its records, which merges and copies none.
#![tactic(auto)]

pub mod batch;
mod contents;
pub mod edition;
pub mod history_entry;
pub mod ids;
pub mod joining;
pub mod laws;
pub mod making_batch;
pub mod matching;
pub mod net;
pub mod op;
pub mod ordering;
pub mod outcome;
pub mod prepared;
pub mod shared_content;
mod shared_part;
pub mod shown;
mod slots;
pub mod united;
