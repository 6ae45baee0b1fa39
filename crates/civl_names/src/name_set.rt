// Sets of names.
ghost use Rattle.std.specs.Prelude.{◌≡◌, [], IfOk, OnOk};
ghost use Rattle.civl_tree.specs.rules.Names.{has_name};
ghost use Rattle.civl_names.specs.inner.NameSets.{names_in, with_name};

use civl_tree::{Memory, Name};
use indexmap::IndexSet;
use std::alloc::Global;

/// A set of names, in the order in which they were added.
#[derive(Drop)]
pub(crate) struct NameSet<'a> {
    keys: IndexSet<&'a [u8]>,
}

impl<'a> NameSet<'a> {
    pub(crate) fn new(alloc: Global) -> NameSet<'a>
        ensures { names_in result ≡ [] }
    {
        NameSet {
            keys: IndexSet::new(alloc),
        }
    }

    /// Whether the name is in the set.
    pub(crate) fn has(&self, name: &Name) -> bool
        ensures { result ≡ has_name (names_in self.now) name.now }
    {
        let bytes = name.as_slice();
        self.keys.contains(&bytes)
    }

    /// Adds a name. The answer is whether it was there.
    pub(crate) fn add(&mut self, name: &'a Name) -> Result<bool, Memory>
        ensures old { IfOk result (λ old. old ≡ has_name (names_in self.old) name.now) }
        ensures names { OnOk result (names_in self.new ≡ with_name (names_in self.old) name.now) }
    {
        let added = self.keys.insert(name.as_slice())?;
        Ok(!added)
    }
}
