// Want of memory.
use std::alloc::{AllocError, AllocFailed};

/// Memory is wanting.
#[derive(Clone, Copy, Debug, PartialEq, Eq)]
pub struct Memory;

impl From<AllocError> for Memory {
    fn from(_error: AllocError) -> Memory {
        Memory
    }
}

impl<T: Drop> From<AllocFailed<T>> for Memory {
    fn from(_failed: AllocFailed<T>) -> Memory {
        Memory
    }
}

impl From<civl_tree::Memory> for Memory {
    fn from(_wanting: civl_tree::Memory) -> Memory {
        Memory
    }
}

impl From<crate::decisions::Memory> for Memory {
    fn from(_wanting: crate::decisions::Memory) -> Memory {
        Memory
    }
}
