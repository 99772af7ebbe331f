//! A machine that keeps a list of numbers.
ghost use Rattle.std.specs.Prelude.{◌≡◌, length};
ghost use Rattle.std.proofs.Common.{arith};

use catalogue_lock::machine::Machine;
use std::alloc::Global;
use union_base::memory::Memory;

#[derive(Drop)]
pub struct Numbers {
    pub entries: Vec<(u32, u64)>,
}

impl Machine for Numbers {
    type Setting = ();

    type Change = u64;

    type Question = ();

    type Outcome = u64;

    type Answer = u64;

    ghost setting = { λ m. tt };

    ghost entries = { λ m. m.entries.items };

    ghost spare = { tt };

    ghost yields = { λ setting entries number change outcome. outcome ≡ length entries };

    ghost answers = { λ setting entries question answer. answer ≡ length entries };

    ghost bounded = { λ m. Prim.omega (arith, m.entries.ok.0, m.entries.ok.1, m.entries.small) };

    fn apply(&mut self, _alloc: Global, number: u32, change: u64) -> Result<u64, Memory> {
        let before = self.turns();
        self.entries.push((number, change))?;
        Ok(before)
    }

    fn ask(&self, _alloc: Global, _question: &()) -> Result<u64, Memory> {
        Ok(self.turns())
    }

    fn turns(&self) -> u64 {
        self.entries.len() as u64
    }
}
