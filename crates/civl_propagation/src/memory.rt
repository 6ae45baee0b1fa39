// Memory was wanting.
use std::alloc::{AllocError, AllocFailed};
use std::num::TryFromIntError;

/// Memory was wanting.
#[derive(Clone, Copy, Debug, PartialEq, Eq)]
pub struct Memory;

impl From<AllocError> for Memory {
    fn from(_error: AllocError) -> Memory {
        Memory
    }
}

impl<T: Drop> From<AllocFailed<T>> for Memory {
    fn from(_failed: AllocFailed<T>) -> Memory {
        Memory
    }
}

impl From<civl_cnf::Memory> for Memory {
    fn from(_wanting: civl_cnf::Memory) -> Memory {
        Memory
    }
}

impl From<TryFromIntError> for Memory {
    fn from(_error: TryFromIntError) -> Memory {
        Memory
    }
}
