//! A desk: one machine, many threads, one history.
//!
//! A [`machine::Machine`] has a setting, which never changes, and a list of entries, each the number of a pass and a
//! change. A [`desk::Desk`] keeps one machine for callers in any threads. Each caller has a [`pass::Pass`] of its own, a
//! token with a number. With it the caller takes the turn, which only one pass has at a time, and then either appends one
//! entry or asks one question, and gives the turn up. The list of entries, in the order in which they were appended, is the
//! history. A [`root::Root`] makes passes and ends them, and [`desk::Desk::close`] gives the machine back.
//!
//! # The word, the slot and the seats
//!
//! The desk has one word, a `u64` that changes in single atomic steps, and one slot, where the machine lies between turns.
//! The word is twice the number of finished turns, and 1 more while a pass holds the turn. So an even word says that the
//! machine is in the slot, and an odd one that it is in some pass's hands.
//!
//! ```text
//!                       compare and exchange: 2n becomes 2n + 1
//!        +-----------+ ----------------------------------------> +-----------------------+
//!        |   free    |                                           |         held          |
//!        | word 2n   | <---------------------------------------- | word 2n + 1           |
//!        | machine   |   fetch_sub 1: a question, or no memory   | one pass has the slot |
//!        | in the    |                                           | - exchange: out of it |
//!        | slot      | <---------------------------------------- | - apply, or ask       |
//!        +-----------+   fetch_add 1: 2n + 2, one entry more     | - exchange: into it   |
//!                                                                +-----------------------+
//! ```
//!
//! Root and passes are seats at the desk. A seat has no bytes. What it knows is its view (`view::View`), which exists in
//! contracts alone: for a pass its number, its own changes, a beginning of the history that it has seen, a number of turns
//! that it knows to be finished (its floor), and the words that it read last.
//!
//! # The steps
//!
//! Eight kinds of step touch word, slot and seats, each made by one seat, and no call makes any other. Beside them a desk
//! has a bell, by which waiting calls sleep; no step looks at it, and no clause speaks of it.
//!
//! | Step | Word | What the seat's view takes |
//! |---|---|---|
//! | load, by a pass that does not hold the turn | stays | the word as `loaded`, one look more, half of the word as floor |
//! | compare and exchange of an even word, by such a pass | won: 1 more; lost: stays | the word that was there as `found`, one try more, half of it as floor; won: the pass holds the turn, and the history is its base |
//! | exchange the machine out of the slot, by the holder | stays | nothing |
//! | exchange it back, by the holder | stays | nothing |
//! | fetch_add 1, by the holder, with one entry more than the base | 2n + 2 | one change more of its own; the new history is seen, and its length the floor |
//! | fetch_sub 1, by the holder, with the base | 2n | the base is seen, and its length the floor |
//! | split a seat off the root's | stays | root: one pass more; pass: the root's setting and floor, the next number, empty lists |
//! | join a pass's seat into the root's | stays | root: the pass's number and lists, the greater floor; the seat is spent |
//!
//! # What is proved
//!
//! Between any two steps of any threads the rule of `specs/Rule.antt` holds: word, slot and views agree with one history,
//! each pass's own list is all that the history has under its number, and no two passes have one number. Each call's
//! contract follows from it and says what its caller may conclude, for every machine and every schedule:
//!
//! - a turn that was taken stands in the history after all that its pass had seen, with the outcome that the machine gives
//!   after exactly the entries before it;
//! - an answer is over all entries of the turns that it names, which are at least those that the pass knew to be finished;
//! - `Busy` comes with two words that this call has read, and they show that another pass held or took the turn;
//! - the machine that `close` gives back has, under each pass's number, what that pass left, and nothing else.
//!
//! So any run of threads is a run of the machine on one thread, over the history.
//!
//! Nothing is said of progress, of fairness or of time, nor of the order of two passes' calls beyond the history itself, nor
//! that a call that sleeps is woken. A pass that is dropped and not ended stays out for ever, and its desk can't be closed.
//!
//! # Cost
//!
//! A turn or a question takes one load and one compare and exchange for each try, two moves of the machine between the slot
//! and the caller's stack, one fetch_add or fetch_sub, and one load of the bell: keep what is large in a machine in a `Vec`
//! or a `Box`. A glance takes one load. Only [`desk::Desk::open`] takes memory, for the word and the slot, and what the machine
//! takes itself. A call that waits looks a few times more, and then sleeps until the end of a turn wakes it.
#![tactic(auto)]

mod board;
pub mod desk;
pub mod machine;
pub mod pass;
pub mod root;
pub mod view;
