//! Both sides of an operator, and the side that a mapping gives.
ghost use Rattle.std.specs.Prelude.{◌≡◌, IfOk};
ghost use Rattle.op_law.specs.Meaning.{exchanged};

use crate::Side;
use id_memory::PairMemory;
use par_base::Memory;
use std::alloc::Global;

/// The two sides of an operator, with its memory.
#[derive(Drop)]
pub struct Pair {
    pub source: Side,
    pub target: Side,
    pub memory: PairMemory,
}

/// The far side of an operator, with its memory.
#[derive(Drop)]
pub struct Far {
    pub side: Side,
    pub memory: PairMemory,
}

impl Pair {
    ghost use Rattle.op_law.specs.Calls.{seen};

    /// A copy with the sides exchanged.
    pub fn exchanged(&self, alloc: Global) -> Result<Pair, Memory>
        ensures { IfOk result (λ made. seen made ≡ exchanged (seen self.now)) }
    {
        Ok(Pair {
            source: self.target.copy(alloc)?,
            target: self.source.copy(alloc)?,
            memory: self.memory.copy()?,
        })
    }
}
