//! The union of libraries' files, loaded one after the other, with questions beside the load that never wait for it.
//!
//! `following::follow_and_ask` opens each file, loads the libraries in the order of the command, and publishes each batch as it is
//! applied (`snapshot_desk`). In another thread the questions are asked through the one viewer. When all is published and these are
//! answered, the viewer is told of it and asks the late questions, whose answers are over all turns. Definitions:
//! specs/Following.antt for what was loaded, specs/Turning.antt for the turns of one library.
//!
//! Cost: that of the load, the copies of the batches, and of memory a second catalogue, the viewer's.
#![tactic(auto)]

mod asking;
pub mod following;
pub mod libraries;
mod loading;
mod naming;
pub mod turning;
