// Marks for variables.
ghost use Rattle.std.specs.Prelude.{◌≡◌, ◌<◌, [], All, length, replicate, slice_get, slice_index_or, None, IfOk, OnOk, OnErr, IfSome};
ghost use Rattle.civl_units.specs.Trail.{IsOpen, IsTrail, with_mark};

use crate::Memory;
use civl_cnf::Lit;
use std::alloc::Global;
use std::marker::Model;

/// The truth values that variables were given so far, and in which order. Contracts see it as the record of the values and of the trail, which is that order.
#[derive(Drop)]
pub struct Marks {
    values: Vec<Option<bool>>,
    trail: Vec<u32>,
}

impl Model for Marks {
    ghost use Rattle.civl_units.specs.Trail.{Marking, IsTrail};

    ghost Value = { Marking };

    ghost view = { λ m. record { values = m.values.items; trail = m.trail.items } };

    ghost invariant = { λ m. IsTrail m.values.items m.trail.items };
}

impl Marks {
    /// No marks on so many variables.
    ///
    /// # Errors
    ///
    /// For want of memory.
    pub fn new(alloc: Global, variables: u32) -> Result<Marks, Memory>
        ensures { IfOk result (λ marks. marks ≡ record { values = replicate variables None; trail = [] }) }
    {
        let values = Vec::from_elem(alloc, None, variables as usize)?;
        Ok(Marks {
            values,
            trail: Vec::new(alloc),
        })
    }

    /// How many variables there are, each at most once in the trail.
    pub fn len(&self) -> usize
        ensures is { result ≡ length self.now.values }
        ensures trail { IsTrail self.now.values self.now.trail }
    {
        self.values.len()
    }

    /// For each variable the value that it was given, or none.
    pub fn values(&self) -> &[Option<bool>]
        ensures { result.now ≡ self.now.values }
    {
        self.values.as_slice()
    }

    /// The value that a variable was given.
    pub fn get(&self, variable: u32) -> Option<bool>
        requires { variable < length self.now.values }
        ensures { result ≡ slice_index_or self.now.values variable None }
    {
        self.values[variable as usize]
    }

    /// Gives the literal's variable, which has no value, the one that makes the literal true.
    ///
    /// # Errors
    ///
    /// For want of memory; nothing is changed then.
    pub fn set(&mut self, lit: Lit) -> Result<(), Memory>
        requires below { lit.variable < length self.old.values }
        requires free { IsOpen self.old.values lit }
        ensures ok { OnOk result (self.new ≡ with_mark self.old lit) }
        ensures err { OnErr result (self.new ≡ self.old) }
    {
        self.trail.push(lit.variable())?;
        self.values[lit.variable() as usize] = Some(lit.positive());
        Ok(())
    }

    /// The variable that was marked at a place in the order, from 0, if so many were.
    pub fn marked_at(&self, at: usize) -> Option<u32>
        ensures is { result ≡ slice_get self.now.trail at }
        ensures below { IfSome result (λ variable. variable < length self.now.values) }
    {
        self.trail.get(at).copied()
    }

    /// Takes all marks away.
    pub fn clear(&mut self)
        ensures none { All (λ value. value ≡ None) self.new.values }
        ensures size { length self.new.values ≡ length self.old.values }
        ensures trail { self.new.trail ≡ [] }
    {
        while let Some(variable) = self.trail.pop() {
            self.values[variable as usize] = None;
        }
    }
}
