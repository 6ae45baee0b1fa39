// Want of memory.

/// Memory is wanting.
#[derive(Clone, Copy, Debug, PartialEq, Eq)]
pub struct Memory;

impl From<civl_tree::Memory> for Memory {
    fn from(_wanting: civl_tree::Memory) -> Memory {
        Memory
    }
}

impl From<civl_proofs::Memory> for Memory {
    fn from(_wanting: civl_proofs::Memory) -> Memory {
        Memory
    }
}

impl From<civl_rup::Memory> for Memory {
    fn from(_wanting: civl_rup::Memory) -> Memory {
        Memory
    }
}
