//! Which calls of an object in memory fail. The numbers of the failing calls are few, and each call looks them through.
ghost use Rattle.std.specs.Prelude.{◌≡◌};
ghost use Rattle.union_io.specs.Script.{fails_next, after_call, new_script};

use std::marker::Model;

/// The numbers of the calls that are to fail, counted from 1, and how many calls came so far.
#[derive(Drop)]
pub struct FailScript {
    fails: Vec<u64>,
    calls: u64,
}

impl Model for FailScript {
    ghost use Rattle.union_io.specs.Script.{Script};

    ghost Value = { Script };

    ghost view = { λ script. record { fails = script.fails.items; calls = script.calls } };
}

impl FailScript {
    /// A script before the first call.
    pub fn of(fails: Vec<u64>) -> FailScript
        ensures { result ≡ new_script fails.items }
    {
        FailScript { fails, calls: 0 }
    }

    /// Sets which calls are to fail. The calls that came so far stay counted.
    pub fn set_fails(&mut self, fails: Vec<u64>)
        ensures { self.new ≡ record self.old { fails = fails.items } }
    {
        self.fails = fails;
    }

    /// Whether the call that comes now is to fail.
    pub fn next_fails(&mut self) -> bool
        ensures answer { result ≡ fails_next self.old }
        ensures after { self.new ≡ after_call self.old }
    {
        self.calls = self.calls.saturating_add(1);
        self.fails.contains(&self.calls)
    }
}
