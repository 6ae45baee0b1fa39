// A clause set.
ghost use Rattle.std.specs.Prelude.{◌≡◌, ◌<◌, ◌≤◌, ◌+◌, ◌^◌, ◌∷◌, ◌++◌, [], length, take, map, slice_index_or, OnOk, OnErr};
ghost use Rattle.civl_cnf.specs.ClauseSet.{ClauseSet, IsBelow, AreBelow};
ghost use Rattle.civl_cnf.specs.Gates.{with_variable};

use crate::{Clause, Lit, Memory};
use std::alloc::Global;
use std::marker::Model;

/// A clause set in conjunctive normal form: the number of its variables, and its clauses over the variables below that number.
#[derive(Drop)]
pub struct Cnf {
    variables: u32,
    clauses: Vec<Clause>,
}

impl Model for Cnf {
    ghost use Rattle.std.specs.Prelude.{◌≤◌, ◌^◌};
    ghost use Rattle.civl_cnf.specs.ClauseSet.{ClauseSet, IsWellFormed};

    ghost Value = { ClauseSet };

    ghost view = { λ c. record { variables = c.variables; clauses = c.clauses.items } };

    ghost invariant = { λ c. IsWellFormed c.variables c.clauses.items };
}

/// Adds a clause of each list of literals at the end.
fn push_all(alloc: Global, clauses: &mut Vec<Clause>, added: &[&[Lit]]) -> Result<(), Memory>
    ensures ok { OnOk result (clauses.new.items ≡ clauses.old.items ++ map (λ lits. lits.now) added.now) }
    ensures err { OnErr result (take (length clauses.old.items) clauses.new.items ≡ clauses.old.items) }
{
    for lits in added {
        let clause = Clause::from_slice(alloc, lits)?;
        clauses.push(clause)?;
    }
    Ok(())
}

impl Cnf {
    /// No clauses, over so many variables, at most 2^31. It keeps the allocator.
    pub fn new(alloc: Global, variables: u32) -> Cnf
        requires { variables ≤ 2 ^ 31 }
        ensures { result ≡ record { variables = variables; clauses = [] } }
    {
        Cnf {
            variables,
            clauses: Vec::new(alloc),
        }
    }

    /// Adds a clause over the set's variables at the end.
    ///
    /// # Errors
    ///
    /// For want of memory; nothing is changed then.
    pub fn push(&mut self, clause: Clause) -> Result<(), Memory>
        requires { IsBelow self.old.variables clause }
        ensures ok { OnOk result (self.new ≡ record self.old { clauses = self.old.clauses ++ clause ∷ [] }) }
        ensures err { OnErr result (self.new ≡ self.old) }
    {
        self.clauses.push(clause)?;
        Ok(())
    }

    /// How many variables it has. Each literal's variable is below it.
    pub fn variables(&self) -> u32
        ensures is { result ≡ self.now.variables }
        ensures few { result ≤ 2 ^ 31 }
        ensures below { AreBelow self.now.variables self.now.clauses }
    {
        self.variables
    }

    /// How many clauses it has.
    pub fn len(&self) -> usize
        ensures { result ≡ length self.now.clauses }
    {
        self.clauses.len()
    }

    /// The clause at a place, from 0.
    pub fn clause(&self, at: usize) -> &Clause
        requires { at < length self.now.clauses }
        ensures is { result.now ≡ slice_index_or self.now.clauses at [] }
        ensures below { IsBelow self.now.variables result.now }
    {
        &self.clauses[at]
    }

    /// All its clauses.
    pub fn clauses(&self) -> &[Clause]
        ensures is { result.now ≡ self.now.clauses }
        ensures below { AreBelow self.now.variables result.now }
    {
        self.clauses.as_slice()
    }

    /// Takes the next variable, with clauses on it and on those before it.
    pub(crate) fn define(&mut self, added: &[&[Lit]]) -> Result<(), Memory>
        requires room { self.old.variables < 2 ^ 31 }
        requires below { AreBelow (self.old.variables + 1) (map (λ lits. lits.now) added.now) }
        ensures ok { OnOk result (self.new ≡ with_variable self.old (map (λ lits. lits.now) added.now)) }
        ensures err { OnErr result (self.new ≡ self.old) }
        ensures below { AreBelow self.old.variables self.old.clauses }
    {
        let alloc = *self.clauses.allocator();
        let len = self.clauses.len();
        if push_all(alloc, &mut self.clauses, added).is_err() {
            self.clauses.truncate(len);
            return Err(Memory);
        }
        self.variables += 1;
        Ok(())
    }

    /// Goes back to fewer variables and to its first clauses.
    pub(crate) fn restore(&mut self, variables: u32, len: usize)
        requires fewer { variables ≤ self.old.variables }
        requires below { AreBelow variables (take len self.old.clauses) }
        ensures { self.new ≡ record { variables = variables; clauses = take len self.old.clauses } }
    {
        self.clauses.truncate(len);
        self.variables = variables;
    }
}
