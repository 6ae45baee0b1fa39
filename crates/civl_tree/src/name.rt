// Names.
ghost use Rattle.std.specs.Prelude.{◌≡◌, ◌↔◌, IsTrue, IfOk};

use crate::list::List;
use crate::memory::Memory;
use std::alloc::Global;

/// A name: the bytes that spell it.
#[derive(Debug, Drop)]
pub struct Name {
    pub bytes: List<u8>,
}

impl Name {
    /// The name that these bytes spell.
    ///
    /// # Errors
    ///
    /// For want of memory.
    pub fn from_slice(alloc: Global, bytes: &[u8]) -> Result<Name, Memory>
        ensures { IfOk result (λ name. name.bytes ≡ bytes.now) }
    {
        Ok(Name {
            bytes: List::from_vec(bytes.to_vec(alloc)?),
        })
    }

    /// The bytes, to go over.
    pub fn as_slice(&self) -> &[u8]
        ensures { result.now ≡ self.now.bytes }
    {
        self.bytes.as_slice()
    }

    /// Whether the other name has the same bytes.
    pub fn is_same(&self, other: &Name) -> bool
        ensures { IsTrue result ↔ (self.now ≡ other.now) }
    {
        self.bytes.as_slice() == other.bytes.as_slice()
    }
}
