// Circuits: gates that are folded and shared.
ghost use Rattle.std.specs.Prelude.{◌≡◌, ◌<◌, ◌≤◌, ◌+◌, ◌^◌, ◌&&◌, ◌∷◌, [], Some, slice_get, if◌then◌else◌, IfOk, OnOk, OnErr};
ghost use Rattle.civl_cnf.specs.Literal.{truth_of};
ghost use Rattle.civl_cnf.specs.Gates.{Extends, xor};
ghost use Rattle.civl_circuits.specs.Circuits.{IsOne, MakesBit};
ghost use Rattle.civl_circuits.specs.Hashing.{IsFolded};
ghost use Rattle.civl_circuits.specs.inner.Folding.{MakesSum, MakesHalf};

use crate::folding::{Addition, Choice, reduce_addition, reduce_choice};
use crate::gate::Gate;
use crate::sharing::{and_of, choice_of, sum_of, xor_of};
use crate::{iff, or};
use civl_cnf::{Cnf, Gates, Lit, Memory};
use indexmap::IndexMap;
use std::alloc::Global;
use std::marker::Model;

/// A clause set that grows by gates. A gate that was built before is found again, and no gate is built where an operand is constant or two are equal or opposite. Contracts see it as the clause set.
#[derive(Drop)]
pub struct Circuit {
    gates: Gates,
    one: Lit,
    outputs: IndexMap<Gate, Lit>,
}

impl Model for Circuit {
    ghost use Rattle.civl_cnf.specs.ClauseSet.{ClauseSet};
    ghost use Rattle.civl_circuits.specs.Hashing.{IsHashed};

    ghost Value = { ClauseSet };

    ghost view = { λ c. c.gates };

    ghost invariant = { λ c. IsHashed c.gates c.one c.outputs.entries };
}

impl Circuit {
    /// The circuit that grows from a clause set whose first clause is that of its constant.
    #[tactic(auto, using(crate::proofs::Hashing::hashing))]
    pub(crate) fn new(alloc: Global, cnf: Cnf, one: Lit) -> Circuit
        requires first { slice_get cnf.clauses 0 ≡ Some (one ∷ []) }
        requires constant { IsOne cnf one }
        ensures { result ≡ cnf }
    {
        Circuit {
            gates: Gates::new(cnf),
            one,
            outputs: IndexMap::new(alloc),
        }
    }

    /// The clause set with the gates.
    pub fn into_cnf(self) -> Cnf
        ensures { result ≡ self }
    {
        let Circuit {
            gates,
            one: _one,
            outputs: _outputs,
        } = self;
        gates.into_cnf()
    }

    /// The literal that is always true.
    #[tactic(auto, using(crate::proofs::Hashing::hashing))]
    pub fn one(&self) -> Lit
        ensures { IsOne self.now result }
    {
        self.one
    }

    /// A literal that is true where both are. It takes at most one variable, and none where one of them is constant or they are equal or opposite. The set may have at most 2^30 variables before.
    ///
    /// # Errors
    ///
    /// For want of memory. The gates are then as they were.
    #[tactic(auto, using(crate::proofs::Hashing::hashing))]
    pub fn and(&mut self, a: Lit, b: Lit) -> Result<Lit, Memory>
        requires room { self.old.variables ≤ 2 ^ 30 }
        requires a { a.variable < self.old.variables }
        requires b { b.variable < self.old.variables }
        ensures ok { IfOk result (λ output. MakesBit self.old self.new output 1 (λ v. truth_of v a && truth_of v b)) }
        ensures folded { OnOk result (IsFolded self.old a b → self.new ≡ self.old) }
        ensures err { OnErr result (self.new ≡ self.old) }
        ensures extends { Extends self.old self.new }
    {
        and_of(&mut self.gates, &mut self.outputs, self.one, a, b)
    }

    /// A literal that is true where exactly one of them is. It takes at most one variable, and none where one of them is constant or they are equal or opposite. The set may have at most 2^30 variables before.
    ///
    /// # Errors
    ///
    /// For want of memory. The gates are then as they were.
    #[tactic(auto, using(crate::proofs::Hashing::hashing))]
    pub fn xor(&mut self, a: Lit, b: Lit) -> Result<Lit, Memory>
        requires room { self.old.variables ≤ 2 ^ 30 }
        requires a { a.variable < self.old.variables }
        requires b { b.variable < self.old.variables }
        ensures ok { IfOk result (λ output. MakesBit self.old self.new output 1 (λ v. xor (truth_of v a) (truth_of v b))) }
        ensures folded { OnOk result (IsFolded self.old a b → self.new ≡ self.old) }
        ensures err { OnErr result (self.new ≡ self.old) }
        ensures extends { Extends self.old self.new }
    {
        xor_of(&mut self.gates, &mut self.outputs, self.one, a, b)
    }

    /// A choice that is no simpler gate.
    #[tactic(auto, using(crate::proofs::Hashing::hashing))]
    fn choice(&mut self, c: Lit, a: Lit, b: Lit) -> Result<Lit, Memory>
        requires room { self.old.variables ≤ 2 ^ 30 }
        requires c { c.variable < self.old.variables }
        requires a { a.variable < self.old.variables }
        requires b { b.variable < self.old.variables }
        ensures ok { IfOk result (λ output. MakesBit self.old self.new output 1 (λ v. if truth_of v c then truth_of v a else truth_of v b)) }
        ensures extends { Extends self.old self.new }
    {
        let output = choice_of(&mut self.gates, &mut self.outputs, c, a, b)?;
        Ok(output)
    }

    /// The sum and the carry of three bits, none of which is constant or another or its opposite.
    #[tactic(auto, using(crate::proofs::Hashing::hashing))]
    fn sum(&mut self, a: Lit, b: Lit, c: Lit) -> Result<(Lit, Lit), Memory>
        requires room { self.old.variables ≤ 2 ^ 30 }
        requires a { a.variable < self.old.variables }
        requires b { b.variable < self.old.variables }
        requires c { c.variable < self.old.variables }
        ensures ok { IfOk result (λ outputs. MakesSum self.old self.new a b c outputs.0 outputs.1) }
        ensures extends { Extends self.old self.new }
    {
        let (sum, carry) = sum_of(&mut self.gates, &mut self.outputs, a, b, c)?;
        Ok((sum, carry))
    }

    /// A literal with the value of `a` where `c` is true, and of `b` elsewhere. It takes at most one variable. The set may have at most 2^30 variables before.
    ///
    /// # Errors
    ///
    /// For want of memory.
    #[tactic(auto, using(crate::proofs::Words::extending))]
    pub fn ite(&mut self, c: Lit, a: Lit, b: Lit) -> Result<Lit, Memory>
        requires room { self.old.variables ≤ 2 ^ 30 }
        requires c { c.variable < self.old.variables }
        requires a { a.variable < self.old.variables }
        requires b { b.variable < self.old.variables }
        ensures ok { IfOk result (λ output. MakesBit self.old self.new output 1 (λ v. if truth_of v c then truth_of v a else truth_of v b)) }
        ensures extends { Extends self.old self.new }
    {
        let one = self.one();
        match reduce_choice(one, c, a, b) {
            Choice::Is(x) => Ok(x),
            Choice::And(x, y) => {
                let output = self.and(x, y)?;
                Ok(output)
            }
            Choice::Or(x, y) => {
                let output = or(self, x, y)?;
                Ok(output)
            }
            Choice::Xor(x, y) => {
                let output = self.xor(x, y)?;
                Ok(output)
            }
            Choice::Open => {
                let output = self.choice(c, a, b)?;
                Ok(output)
            }
        }
    }

    /// The sum and the carry of two bits. It takes at most two variables.
    #[tactic(auto, using(crate::proofs::Words::extending))]
    fn half(&mut self, a: Lit, b: Lit) -> Result<(Lit, Lit), Memory>
        requires room { self.old.variables + 1 ≤ 2 ^ 30 }
        requires a { a.variable < self.old.variables }
        requires b { b.variable < self.old.variables }
        ensures ok { IfOk result (λ outputs. MakesHalf self.old self.new a b 0 outputs.0 outputs.1) }
        ensures extends { Extends self.old self.new }
    {
        let sum = self.xor(a, b)?;
        let carry = self.and(a, b)?;
        Ok((sum, carry))
    }

    /// The sum and the carry of two bits and 1. It takes at most two variables.
    #[tactic(auto, using(crate::proofs::Words::extending))]
    fn half_and_one(&mut self, a: Lit, b: Lit) -> Result<(Lit, Lit), Memory>
        requires room { self.old.variables + 1 ≤ 2 ^ 30 }
        requires a { a.variable < self.old.variables }
        requires b { b.variable < self.old.variables }
        ensures ok { IfOk result (λ outputs. MakesHalf self.old self.new a b 1 outputs.0 outputs.1) }
        ensures extends { Extends self.old self.new }
    {
        let sum = iff(self, a, b)?;
        let carry = or(self, a, b)?;
        Ok((sum, carry))
    }

    /// A full adder: the sum and the carry of three bits. It takes at most two variables. The set may have less than 2^30 variables before.
    #[tactic(auto, using(crate::proofs::Words::extending))]
    pub(crate) fn adder(&mut self, a: Lit, b: Lit, c: Lit) -> Result<(Lit, Lit), Memory>
        requires room { self.old.variables + 1 ≤ 2 ^ 30 }
        requires a { a.variable < self.old.variables }
        requires b { b.variable < self.old.variables }
        requires c { c.variable < self.old.variables }
        ensures ok { IfOk result (λ outputs. MakesSum self.old self.new a b c outputs.0 outputs.1) }
        ensures extends { Extends self.old self.new }
    {
        let one = self.one();
        match reduce_addition(one, a, b, c) {
            Addition::Is(sum, carry) => Ok((sum, carry)),
            Addition::Half(x, y) => {
                let (sum, carry) = self.half(x, y)?;
                Ok((sum, carry))
            }
            Addition::HalfAndOne(x, y) => {
                let (sum, carry) = self.half_and_one(x, y)?;
                Ok((sum, carry))
            }
            Addition::Open => {
                let (sum, carry) = self.sum(a, b, c)?;
                Ok((sum, carry))
            }
        }
    }
}
