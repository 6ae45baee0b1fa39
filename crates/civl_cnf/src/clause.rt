// A clause.
ghost use Rattle.std.specs.Prelude.{◌≡◌, ◌<◌, length, slice_get, IfOk, Some};

use crate::{Lit, Memory};
use smallvec::SmallVec;
use std::alloc::Global;
use std::marker::Model;

/// A disjunction of literals. Contracts see it as their list, in the order in which they were given.
#[derive(Drop)]
pub struct Clause {
    lits: SmallVec<Lit, 4>,
}

impl Model for Clause {
    ghost use Rattle.std.specs.Prelude.{List};
    ghost use Rattle.civl_cnf.specs.Literal.{Literal};

    ghost Value = { List Literal };

    ghost view = { λ c. c.lits.items };
}

impl Clause {
    /// The clause of these literals. Up to four stand in the value itself.
    ///
    /// # Errors
    ///
    /// For want of memory.
    pub fn from_slice(alloc: Global, lits: &[Lit]) -> Result<Clause, Memory>
        ensures { IfOk result (λ clause. clause ≡ lits.now) }
    {
        let lits = SmallVec::from_slice(alloc, lits)?;
        Ok(Clause { lits })
    }

    /// How many literals it has, the same one counted as often as it stands there.
    pub fn len(&self) -> usize
        ensures { result ≡ length self.now }
    {
        self.lits.len()
    }

    /// The literal at a place, from 0.
    pub fn lit(&self, at: usize) -> Lit
        requires { at < length self.now }
        ensures { slice_get self.now at ≡ Some result }
    {
        self.lits.as_slice()[at]
    }

    /// All its literals.
    pub fn lits(&self) -> &[Lit]
        ensures { result.now ≡ self.now }
    {
        self.lits.as_slice()
    }
}
