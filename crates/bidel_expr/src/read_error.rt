//! Why a reader stopped.
ghost use Rattle.std.specs.Prelude.{◌≡◌};
ghost use Rattle.bidel_expr.specs.declared.read_error.ReadError.TheVariants.{Memory as OutOfMemory};
ghost use Rattle.bidel_expr.specs.ReadAnswers.{ran_out};

use par_base::Memory;
use std::alloc::{AllocError, AllocFailed};

/// Why a reader stopped: a fault where so many tokens are left, or want of memory.
#[derive(Clone, Copy, PartialEq, Eq, Drop)]
pub enum ReadError {
    /// Memory ran out.
    Memory(Memory),
    /// Not what is read stands where so many tokens are left.
    Left(usize),
}

impl From<Memory> for ReadError {
    ghost from_gives = { λ memory error. error ≡ OutOfMemory memory };

    fn from(memory: Memory) -> ReadError {
        ReadError::Memory(memory)
    }
}

impl From<AllocError> for ReadError {
    ghost from_gives = { λ _ error. ran_out error };

    fn from(error: AllocError) -> ReadError {
        ReadError::Memory(Memory::from(error))
    }
}

impl<T: Drop> From<AllocFailed<T>> for ReadError {
    ghost from_gives = { λ _ error. ran_out error };

    fn from(error: AllocFailed<T>) -> ReadError {
        ReadError::Memory(Memory::from(error))
    }
}
