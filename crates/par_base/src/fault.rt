//! The errors of calls: want of memory, and refusals beside it.
ghost use Rattle.std.specs.Prelude.{◌≡◌};
ghost use Rattle.par_base.specs.declared.fault.Fault.TheVariants.{Memory as OutOfMemory};
ghost use Rattle.par_base.specs.Checked.{ran_out};

use std::alloc::{AllocError, AllocFailed};

/// Memory ran out. The error of a call that refuses nothing. Its field is private, and it is made
/// here alone: from the error of an allocation by `from`, from the error of a crate of the kit by
/// `meant_by`, and for a count of more things than memory holds by `add_counts`.
#[derive(Clone, Copy, PartialEq, Eq, Drop)]
pub struct Memory {
    passed: (),
}

impl Memory {
    /// Memory has run out, or would, as with more things than can be in memory.
    pub(crate) fn passed() -> Memory {
        Memory { passed: () }
    }

    /// Want of memory, where the error of a crate of the kit says so, or where the call that ended
    /// with it can fail for nothing else. The caller says which of the two it is.
    pub fn meant_by<E: Drop>(_error: E) -> Memory {
        Memory::passed()
    }
}

/// The error of a call that may refuse: a refusal with its cause, or want of memory.
#[derive(Clone, Copy, PartialEq, Eq, Drop)]
pub enum Fault<X> {
    /// The call is refused, for the cause that its contract names.
    Refused(X),
    /// Memory ran out. It says nothing of the arguments.
    Memory(Memory),
}

impl From<AllocError> for Memory {
    fn from(_error: AllocError) -> Memory {
        Memory::passed()
    }
}

impl<T: Drop> From<AllocFailed<T>> for Memory {
    fn from(_error: AllocFailed<T>) -> Memory {
        Memory::passed()
    }
}

impl<X> From<AllocError> for Fault<X> {
    ghost from_gives = { λ _ fault. ran_out fault };

    fn from(error: AllocError) -> Fault<X> {
        Fault::Memory(Memory::from(error))
    }
}

impl<X, T: Drop> From<AllocFailed<T>> for Fault<X> {
    ghost from_gives = { λ _ fault. ran_out fault };

    fn from(error: AllocFailed<T>) -> Fault<X> {
        Fault::Memory(Memory::from(error))
    }
}

impl<X> From<Memory> for Fault<X> {
    ghost from_gives = { λ memory fault. fault ≡ OutOfMemory memory };

    fn from(memory: Memory) -> Fault<X> {
        Fault::Memory(memory)
    }
}
