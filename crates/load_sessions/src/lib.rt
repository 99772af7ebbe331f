//! The loading of libraries at a desk: sessions, which may run at once, and an asker beside them.
//!
//! A session reads the source of one library and makes one turn at the desk for each of its batches (`library_batches`). Before it
//! asks for the turn, it resolves the records of the batch among themselves (`preparing`), so that the turn inserts what they
//! come to. A session that has several workers reads and prepares its next batch while it makes the turn of the one
//! before it (`ahead`). Where turns resolve nothing, no batch is prepared, and its workers read the batches of a round at once
//! (`rounds`).
//! `running::run_sessions` runs some sessions on some threads. Whatever their turns' order, each session's pass has gained
//! the first batches of its source in their order, and all of them where its end is Done; its report then has the frames, the
//! refused ones, and what came of its operations in the one history of the desk. The machine of the desk is
//! `served::Served`, whose entries are the history of a catalogue. `watched::Watched` is what a load with questions comes to,
//! also where no session makes it. Definitions: specs/Sessions.antt, specs/Askers.antt; `found` of library_batches says what came of
//! a session's operations, and `Replied` of catalogue_query what the replies are.
//!
//! Cost: a turn for each batch, and of memory the reader of one source for each session that is under way, with one batch, two where it
//! reads ahead, which makes a thread for each turn, or 16 where it reads rounds, which makes threads for each round.
#![tactic(auto)]

mod ahead;
pub mod asker;
pub mod asking;
pub mod crew;
mod due;
pub mod end;
pub mod preparing;
mod reading;
mod rounds;
pub mod running;
pub mod served;
pub mod session;
mod turning;
pub mod watched;
