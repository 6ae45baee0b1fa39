// Memory was wanting.

/// Memory was wanting.
#[derive(Clone, Copy, Debug, PartialEq, Eq)]
pub struct Memory;

impl From<civl_rup::Memory> for Memory {
    fn from(_wanting: civl_rup::Memory) -> Memory {
        Memory
    }
}

impl From<civl_cdcl::Memory> for Memory {
    fn from(_wanting: civl_cdcl::Memory) -> Memory {
        Memory
    }
}
