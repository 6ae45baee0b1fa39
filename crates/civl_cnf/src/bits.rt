// Bits that assign variables.
ghost use Rattle.std.specs.Prelude.{◌≡◌, ◌<◌, length, replicate, slice_set, false, IfOk};
ghost use Rattle.civl_cnf.specs.ClauseSet.{assignment};

use crate::Memory;
use std::alloc::Global;
use std::marker::Model;

/// A list of truth values, one for each variable from 0.
#[derive(Drop)]
pub struct Bits {
    values: Vec<bool>,
}

impl Model for Bits {
    ghost use Rattle.std.specs.Prelude.{List, Bool, length, ◌<◌, ◌^◌};

    ghost Value = { List Bool };

    ghost view = { λ b. b.values.items };

    ghost invariant = { λ b. length b.values.items < 2 ^ 32 };
}

impl Bits {
    /// So many bits, all false.
    ///
    /// # Errors
    ///
    /// For want of memory.
    pub fn new(alloc: Global, length: u32) -> Result<Bits, Memory>
        ensures { IfOk result (λ bits. bits ≡ replicate length false) }
    {
        let values = Vec::from_elem(alloc, false, length as usize)?;
        Ok(Bits { values })
    }

    /// How many bits there are.
    pub fn len(&self) -> u32
        ensures { result ≡ length self.now }
    {
        self.values.len() as u32
    }

    /// The bit at a place, from 0.
    pub fn get(&self, at: u32) -> bool
        requires { at < length self.now }
        ensures { result ≡ assignment self.now at }
    {
        self.values[at as usize]
    }

    /// Writes the bit at a place.
    pub fn set(&mut self, at: u32, value: bool)
        requires { at < length self.old }
        ensures { self.new ≡ slice_set self.old at value }
    {
        self.values[at as usize] = value;
    }
}
