//! What stands round each turn of a session, so that a test can hold sessions until they meet.

/// Is told before and after each turn of a session, from whichever thread runs it. It changes nothing that a contract
/// names.
pub trait Gate: Sync + Drop {
    /// The session of that number begins its next turn. `turn` counts the session's own turns from 0.
    fn before_turn(&self, session: u32, turn: u64);

    /// The session of that number has ended that turn.
    fn after_turn(&self, session: u32, turn: u64);
}

/// The program's gate, which does nothing.
#[derive(Clone, Copy, Debug)]
pub struct OpenGate;

impl Gate for OpenGate {
    fn before_turn(&self, _session: u32, _turn: u64) {}

    fn after_turn(&self, _session: u32, _turn: u64) {}
}
