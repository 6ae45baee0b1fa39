// Memory was wanting.

/// Memory was wanting.
#[derive(Clone, Copy, Debug, PartialEq, Eq)]
pub struct Memory;

impl From<civl_units::Memory> for Memory {
    fn from(_wanting: civl_units::Memory) -> Memory {
        Memory
    }
}

impl From<civl_propagation::Memory> for Memory {
    fn from(_wanting: civl_propagation::Memory) -> Memory {
        Memory
    }
}
