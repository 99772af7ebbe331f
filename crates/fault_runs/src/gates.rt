//! Gates that hold a session until another has got so far, or the looks run out.
use std::hint::spin_loop;
use std::sync::atomic::{AtomicBool, Ordering};
use union_io::gate::Gate;

/// A flag that one session sets and another waits for.
#[derive(Drop)]
struct Signal {
    is_set: AtomicBool,
    ran_out: AtomicBool,
    looks: u64,
}

impl Signal {
    fn new(looks: u64) -> Signal {
        Signal {
            is_set: AtomicBool::new(false),
            ran_out: AtomicBool::new(false),
            looks,
        }
    }

    fn set(&self) {
        self.is_set.store(true, Ordering::SeqCst);
    }

    fn wait(&self) {
        for _ in 0..self.looks {
            if self.is_set.load(Ordering::SeqCst) {
                return;
            }
            spin_loop();
        }
        self.ran_out.store(true, Ordering::SeqCst);
    }

    /// Whether it was set before the looks ran out.
    fn is_met(&self) -> bool {
        let is_set = self.is_set.load(Ordering::SeqCst);
        let ran_out = self.ran_out.load(Ordering::SeqCst);
        is_set && !ran_out
    }
}

/// Whether what a gate waits for came before the looks ran out.
pub trait Met: Gate {
    fn is_met(&self) -> bool;
}

/// Holds the first session before its first turn until the second has ended a turn, that of the number `turn` from 0.
#[derive(Drop)]
pub struct OrderGate {
    ended: Signal,
    turn: u64,
}

impl OrderGate {
    pub fn new(looks: u64, turn: u64) -> OrderGate {
        OrderGate {
            ended: Signal::new(looks),
            turn,
        }
    }
}

impl Gate for OrderGate {
    fn before_turn(&self, session: u32, turn: u64) {
        if session == 0 && turn == 0 {
            self.ended.wait();
        }
    }

    fn after_turn(&self, session: u32, turn: u64) {
        if session == 1 && turn == self.turn {
            self.ended.set();
        }
    }
}

impl Met for OrderGate {
    fn is_met(&self) -> bool {
        self.ended.is_met()
    }
}

/// Holds each of two sessions before its first turn until the other stands there too.
#[derive(Drop)]
pub struct MeetingGate {
    first: Signal,
    second: Signal,
}

impl MeetingGate {
    pub fn new(looks: u64) -> MeetingGate {
        MeetingGate {
            first: Signal::new(looks),
            second: Signal::new(looks),
        }
    }
}

impl Gate for MeetingGate {
    fn before_turn(&self, session: u32, turn: u64) {
        match (session, turn) {
            (0, 0) => {
                self.first.set();
                self.second.wait();
            }
            (1, 0) => {
                self.second.set();
                self.first.wait();
            }
            _ => (),
        }
    }

    fn after_turn(&self, _session: u32, _turn: u64) {}
}

impl Met for MeetingGate {
    fn is_met(&self) -> bool {
        self.first.is_met() && self.second.is_met()
    }
}
