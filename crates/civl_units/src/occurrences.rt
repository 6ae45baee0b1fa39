// Where literals stand in clauses.
ghost use Rattle.std.specs.Prelude.{◌≡◌, ◌<◌, ◌↔◌, [], length, replicate, slice_set, slice_index_or, IsTrue, IfOk, OnOk, OnErr};
ghost use Rattle.civl_cnf.specs.ClauseSet.{IsBelow};
ghost use Rattle.civl_units.specs.Occurrences.{nowhere, of_sign, with_number, numbers_of, AreListed, IsSingle, IsUnitListed, IsPartlyAdded, AreOccurrences};

use crate::Memory;
use civl_cnf::{Cnf, Lit};
use std::alloc::Global;
use std::marker::Model;

/// The numbers of the clauses in which a variable stands, and of those in which its negation stands. Contracts see it as the record of both lists.
#[derive(Drop)]
struct Places {
    positive: Vec<usize>,
    negative: Vec<usize>,
}

impl Model for Places {
    ghost use Rattle.civl_units.specs.Occurrences.{BothSigns};

    ghost Value = { BothSigns };

    ghost view = { λ p. record { positive = p.positive.items; negative = p.negative.items } };
}

impl Places {
    /// No numbers.
    fn new(alloc: Global) -> Places
        ensures { result ≡ nowhere }
    {
        Places {
            positive: Vec::new(alloc),
            negative: Vec::new(alloc),
        }
    }

    /// Adds a number at the end of the list of a sign.
    fn add(&mut self, positive: bool, number: usize) -> Result<(), Memory>
        ensures ok { OnOk result (self.new ≡ with_number positive number self.old) }
        ensures err { OnErr result (self.new ≡ self.old) }
    {
        if positive {
            self.positive.push(number)?;
        } else {
            self.negative.push(number)?;
        }
        Ok(())
    }

    /// The numbers of a sign.
    fn of(&self, positive: bool) -> &[usize]
        ensures { result.now ≡ of_sign positive self.now }
    {
        if positive {
            self.positive.as_slice()
        } else {
            self.negative.as_slice()
        }
    }
}

/// For each literal the numbers of the clauses in which it stands, and the numbers of the clauses that force a literal by themselves. Propagation looks for units nowhere else.
#[derive(Drop)]
pub struct Occurrences {
    variables: Vec<Places>,
    units: Vec<usize>,
}

impl Model for Occurrences {
    ghost use Rattle.civl_units.specs.Occurrences.{OccurrenceLists};

    ghost Value = { OccurrenceLists };

    ghost view = { λ o. record { variables = o.variables.items; units = o.units.items } };
}

/// Whether no two literals of the clause differ.
fn is_single(clause: &[Lit]) -> bool
    ensures { IsTrue result ↔ IsSingle clause.now }
{
    for lit in clause {
        if *lit != clause[0] {
            return false;
        }
    }
    true
}

impl Occurrences {
    /// Empty lists, for so many variables.
    ///
    /// # Errors
    ///
    /// For want of memory.
    pub fn new(alloc: Global, variables: u32) -> Result<Occurrences, Memory>
        ensures { IfOk result (λ lists. lists ≡ record { variables = replicate variables nowhere; units = [] }) }
    {
        let mut lists = Vec::new(alloc);
        for _at in 0..variables {
            lists.push(Places::new(alloc))?;
        }
        Ok(Occurrences {
            variables: lists,
            units: Vec::new(alloc),
        })
    }

    /// Adds one place at which a literal stands.
    fn add_lit(&mut self, lit: Lit, number: usize) -> Result<(), Memory>
        requires { lit.variable < length self.old.variables }
        ensures ok { OnOk result (self.new ≡ record self.old { variables = slice_set self.old.variables lit.variable (with_number lit.positive number (slice_index_or self.old.variables lit.variable nowhere)) }) }
        ensures err { OnErr result (self.new ≡ self.old) }
    {
        self.variables[lit.variable() as usize].add(lit.positive(), number)
    }

    /// Adds a clause under its number. Where memory is wanting, a front of its literals may be listed.
    ///
    /// # Errors
    ///
    /// For want of memory.
    pub fn add(&mut self, clause: &[Lit], number: usize) -> Result<(), Memory>
        requires { IsBelow (length self.old.variables) clause.now }
        ensures size { length self.new.variables ≡ length self.old.variables }
        ensures listed { OnOk result (AreListed self.old self.new clause.now number) }
        ensures unit { OnOk result (IsUnitListed self.old self.new clause.now number) }
        ensures err { OnErr result (IsPartlyAdded self.old self.new clause.now number) }
    {
        for lit in clause {
            self.add_lit(*lit, number)?;
        }
        if is_single(clause) {
            self.units.push(number)?;
        }
        Ok(())
    }

    /// The numbers of the clauses in which a literal stands, one for each place.
    pub fn of(&self, variable: u32, positive: bool) -> &[usize]
        requires { variable < length self.now.variables }
        ensures { result.now ≡ numbers_of self.now (record { variable = variable; positive = positive }) }
    {
        self.variables[variable as usize].of(positive)
    }

    /// The numbers of the clauses that force a literal by themselves.
    pub fn units(&self) -> &[usize]
        ensures { result.now ≡ self.now.units }
    {
        self.units.as_slice()
    }
}

/// Where the literals stand in the clause set, its clauses numbered from 0.
///
/// # Errors
///
/// For want of memory.
pub fn occurrences_of(alloc: Global, cnf: &Cnf) -> Result<Occurrences, Memory>
    ensures size { IfOk result (λ lists. length lists.variables ≡ cnf.now.variables) }
    ensures lists { IfOk result (AreOccurrences cnf.now.clauses) }
{
    let mut occurrences = Occurrences::new(alloc, cnf.variables())?;
    for at in 0..cnf.len() {
        occurrences.add(cnf.clause(at).lits(), at)?;
    }
    Ok(occurrences)
}
