//! The union catalogue as one call: from the words of a command line to the texts on its two outputs.
//!
//! Beside `run::union_run` the calls of the commands that need no shelf of several files can be named from here, and the
//! types by which a run says how it ended.
#![tactic(auto)]

pub mod answering;
pub mod host;
pub mod json;
pub mod run;

pub use union_json::from_json::from_json_run;
pub use union_json::to_json::to_json_run;
pub use union_script::run::script_run;
pub use union_trial::trial::trial_run;
pub use union_watch::check::check_run;
pub use union_words::input::Input;
pub use union_words::status::Status;
