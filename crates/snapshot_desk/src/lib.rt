//! A published history: one publisher appends entries, and one viewer asks over them without waiting.
//!
//! The entries are the turns of a catalogue's history. The publisher adds entries to those that are pending, and publishes what is
//! pending. The viewer keeps a catalogue of its own: at each question it takes in the entries that are new to it, and answers over
//! all that it has taken in. It waits for nobody, also while the publisher is in the middle of a call.
//!
//! # Guarantee
//!
//! At every moment the list over which the viewer answers is a prefix of the published list, and the published list only grows at
//! its end. A note of the publisher's (`publisher::Publisher::tell`) says what is published: each answer that the viewer
//! gives after it learnt the note is over that much at least. So an answer is that of a published list which is no shorter than
//! the viewer had seen or learnt of.
//!
//! # How it is kept
//!
//! The published entries are in a log (`log`) that only grows. Its word counts them, and only the publisher steps on it. Each
//! entry is posted on a board (`board`), together with the list that it ends, so the viewer reads entries in any thread and learns
//! of each how far the log had got. Publishing an entry is two steps that others see: the count goes from n to n + 1, and the log
//! has the entry; then the entry is posted.
//!
//! # Cost
//!
//! An entry is kept once on the board, and its batch once more in the viewer's catalogue, which shares its editions. Publishing
//! takes time by what is pending, and a question by what is new to the viewer and by what it asks. A note has no more than a number.
#![tactic(auto)]

mod applying;
mod board;
pub mod log;
pub mod opening;
pub mod publisher;
pub mod told;
pub mod viewer;
