// Gates over a growing clause set.
ghost use Rattle.std.specs.Prelude.{◌≡◌, ◌<◌, ◌≤◌, ◌^◌, ◌&&◌, true, if◌then◌else◌, IfOk, OnErr};
ghost use Rattle.civl_cnf.specs.Literal.{truth_of};
ghost use Rattle.civl_cnf.specs.Gates.{Extends, IsGate, IsAdder, xor, majority};

use crate::{Cnf, Lit, Memory};
use std::marker::Model;

/// A clause set that grows by gates, after Tseitin: each gate takes the next variable, with clauses that give it the gate's value. Contracts see it as the clause set.
#[derive(Drop)]
pub struct Gates {
    cnf: Cnf,
}

impl Model for Gates {
    ghost use Rattle.civl_cnf.specs.ClauseSet.{ClauseSet};

    ghost Value = { ClauseSet };

    ghost view = { λ g. g.cnf };
}

impl Gates {
    /// Gates that are to be added to this clause set.
    pub fn new(cnf: Cnf) -> Gates
        ensures { result ≡ cnf }
    {
        Gates { cnf }
    }

    /// The clause set with the gates.
    pub fn into_cnf(self) -> Cnf
        ensures { result ≡ self }
    {
        let Gates { cnf } = self;
        cnf
    }

    /// The literal of the next variable.
    fn next(&self) -> Lit
        requires { self.now.variables < 2 ^ 31 }
        ensures { result ≡ record { variable = self.now.variables; positive = true } }
    {
        Lit::new(self.cnf.variables(), true)
    }

    /// A literal that is true where both are. It takes one variable and three clauses. The set may have at most 2^30 variables before.
    ///
    /// # Errors
    ///
    /// For want of memory; nothing is changed then.
    pub fn and(&mut self, a: Lit, b: Lit) -> Result<Lit, Memory>
        requires room { self.old.variables ≤ 2 ^ 30 }
        requires a { a.variable < self.old.variables }
        requires b { b.variable < self.old.variables }
        ensures ok { IfOk result (λ output. IsGate self.old self.new output (λ v. truth_of v a && truth_of v b)) }
        ensures err { OnErr result (self.new ≡ self.old) }
        ensures extends { Extends self.old self.new }
    {
        let output = self.next();
        let not_output = output.negate();
        let not_a = a.negate();
        let not_b = b.negate();
        let first = [not_output, a];
        let second = [not_output, b];
        let third = [output, not_a, not_b];
        self.cnf
            .define(&[first.as_slice(), second.as_slice(), third.as_slice()])?;
        Ok(output)
    }

    /// A literal that is true where exactly one of them is. It takes one variable and four clauses. The set may have at most 2^30 variables before.
    ///
    /// # Errors
    ///
    /// For want of memory; nothing is changed then.
    pub fn xor(&mut self, a: Lit, b: Lit) -> Result<Lit, Memory>
        requires room { self.old.variables ≤ 2 ^ 30 }
        requires a { a.variable < self.old.variables }
        requires b { b.variable < self.old.variables }
        ensures ok { IfOk result (λ output. IsGate self.old self.new output (λ v. xor (truth_of v a) (truth_of v b))) }
        ensures err { OnErr result (self.new ≡ self.old) }
        ensures extends { Extends self.old self.new }
    {
        let output = self.next();
        let not_output = output.negate();
        let not_a = a.negate();
        let not_b = b.negate();
        let first = [not_output, a, b];
        let second = [not_output, not_a, not_b];
        let third = [output, not_a, b];
        let fourth = [output, a, not_b];
        self.cnf.define(&[
            first.as_slice(),
            second.as_slice(),
            third.as_slice(),
            fourth.as_slice(),
        ])?;
        Ok(output)
    }

    /// A literal with the value of `a` where `c` is true, and of `b` elsewhere. It takes one variable and four clauses. The set may have at most 2^30 variables before.
    ///
    /// # Errors
    ///
    /// For want of memory; nothing is changed then.
    pub fn ite(&mut self, c: Lit, a: Lit, b: Lit) -> Result<Lit, Memory>
        requires room { self.old.variables ≤ 2 ^ 30 }
        requires c { c.variable < self.old.variables }
        requires a { a.variable < self.old.variables }
        requires b { b.variable < self.old.variables }
        ensures ok { IfOk result (λ output. IsGate self.old self.new output (λ v. if truth_of v c then truth_of v a else truth_of v b)) }
        ensures err { OnErr result (self.new ≡ self.old) }
        ensures extends { Extends self.old self.new }
    {
        let output = self.next();
        let not_output = output.negate();
        let not_c = c.negate();
        let not_a = a.negate();
        let not_b = b.negate();
        let first = [not_output, not_c, a];
        let second = [output, not_c, not_a];
        let third = [not_output, c, b];
        let fourth = [output, c, not_b];
        self.cnf.define(&[
            first.as_slice(),
            second.as_slice(),
            third.as_slice(),
            fourth.as_slice(),
        ])?;
        Ok(output)
    }

    /// A literal that is true where an odd number of the three are.
    fn odd(&mut self, a: Lit, b: Lit, c: Lit) -> Result<Lit, Memory>
        requires room { self.old.variables < 2 ^ 31 }
        requires a { a.variable < self.old.variables }
        requires b { b.variable < self.old.variables }
        requires c { c.variable < self.old.variables }
        ensures ok { IfOk result (λ output. IsGate self.old self.new output (λ v. xor (truth_of v a) (xor (truth_of v b) (truth_of v c)))) }
        ensures err { OnErr result (self.new ≡ self.old) }
        ensures extends { Extends self.old self.new }
    {
        let output = self.next();
        let not_output = output.negate();
        let not_a = a.negate();
        let not_b = b.negate();
        let not_c = c.negate();
        let first = [not_output, a, b, c];
        let second = [not_output, not_a, not_b, c];
        let third = [not_output, not_a, b, not_c];
        let fourth = [not_output, a, not_b, not_c];
        let fifth = [output, not_a, b, c];
        let sixth = [output, a, not_b, c];
        let seventh = [output, a, b, not_c];
        let eighth = [output, not_a, not_b, not_c];
        self.cnf.define(&[
            first.as_slice(),
            second.as_slice(),
            third.as_slice(),
            fourth.as_slice(),
            fifth.as_slice(),
            sixth.as_slice(),
            seventh.as_slice(),
            eighth.as_slice(),
        ])?;
        Ok(output)
    }

    /// A literal that is true where at least two of the three are.
    fn most(&mut self, a: Lit, b: Lit, c: Lit) -> Result<Lit, Memory>
        requires room { self.old.variables < 2 ^ 31 }
        requires a { a.variable < self.old.variables }
        requires b { b.variable < self.old.variables }
        requires c { c.variable < self.old.variables }
        ensures ok { IfOk result (λ output. IsGate self.old self.new output (λ v. majority (truth_of v a) (truth_of v b) (truth_of v c))) }
        ensures err { OnErr result (self.new ≡ self.old) }
        ensures extends { Extends self.old self.new }
    {
        let output = self.next();
        let not_output = output.negate();
        let not_a = a.negate();
        let not_b = b.negate();
        let not_c = c.negate();
        let first = [output, not_a, not_b];
        let second = [output, not_a, not_c];
        let third = [output, not_b, not_c];
        let fourth = [not_output, a, b];
        let fifth = [not_output, a, c];
        let sixth = [not_output, b, c];
        self.cnf.define(&[
            first.as_slice(),
            second.as_slice(),
            third.as_slice(),
            fourth.as_slice(),
            fifth.as_slice(),
            sixth.as_slice(),
        ])?;
        Ok(output)
    }

    /// A full adder: the sum and the carry of three bits. It takes two variables and fourteen clauses. The set may have at most 2^30 variables before.
    ///
    /// # Errors
    ///
    /// For want of memory; nothing is changed then.
    pub fn adder(&mut self, a: Lit, b: Lit, c: Lit) -> Result<(Lit, Lit), Memory>
        requires room { self.old.variables ≤ 2 ^ 30 }
        requires a { a.variable < self.old.variables }
        requires b { b.variable < self.old.variables }
        requires c { c.variable < self.old.variables }
        ensures ok { IfOk result (λ outputs. IsAdder self.old self.new a b c outputs.0 outputs.1) }
        ensures err { OnErr result (self.new ≡ self.old) }
        ensures extends { Extends self.old self.new }
    {
        let variables = self.cnf.variables();
        let len = self.cnf.len();
        let sum = self.odd(a, b, c)?;
        match self.most(a, b, c) {
            Ok(carry) => Ok((sum, carry)),
            Err(Memory) => {
                self.cnf.restore(variables, len);
                Err(Memory)
            }
        }
    }
}
