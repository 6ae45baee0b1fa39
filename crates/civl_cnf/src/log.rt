// A log of clauses.
ghost use Rattle.std.specs.Prelude.{◌≡◌, ◌<◌, ◌∷◌, ◌++◌, [], length, slice_index_or, OnOk, OnErr};

use crate::{Clause, Memory};
use std::alloc::Global;
use std::marker::Model;

/// A list of clauses, in the order in which they were learned. Contracts see it as this list.
///
/// Beside a clause stand hints, numbers of clauses by which unit propagation finds a conflict once the clause's literals are false, as in LRAT (Cruz-Filipe, Heule, Hunt, Kaufmann and Schneider-Kamp, "Efficient certified RAT verification", 2017). They promise nothing, and no contract speaks of them: who reads them has to look at each clause that they name.
#[derive(Drop)]
pub struct Log {
    clauses: Vec<Clause>,
    /// The hints of all clauses, one after the other.
    hints: Vec<u32>,
    /// For each clause the place behind its last hint.
    ends: Vec<usize>,
}

impl Model for Log {
    ghost use Rattle.std.specs.Prelude.{List};
    ghost use Rattle.civl_cnf.specs.Literal.{Literal};

    ghost Value = { List (List Literal) };

    ghost view = { λ l. l.clauses.items };
}

/// The place behind the last hint of the clause at a place, or 0.
fn end_at(ends: &[usize], at: usize) -> usize {
    if at < ends.len() { ends[at] } else { 0 }
}

impl Log {
    /// The empty log, which keeps the allocator.
    pub fn new(alloc: Global) -> Log
        ensures { result ≡ [] }
    {
        Log {
            clauses: Vec::new(alloc),
            hints: Vec::new(alloc),
            ends: Vec::new(alloc),
        }
    }

    /// Adds a clause at the end, without hints.
    ///
    /// # Errors
    ///
    /// For want of memory; nothing is changed then.
    pub fn push(&mut self, clause: Clause) -> Result<(), Memory>
        ensures ok { OnOk result (self.new ≡ self.old ++ clause ∷ []) }
        ensures err { OnErr result (self.new ≡ self.old) }
    {
        self.push_hinted(clause, &[])
    }

    /// Adds a clause at the end, with these hints: clauses by their numbers, those of the clause set first, from 0, and those of the log behind them.
    ///
    /// # Errors
    ///
    /// For want of memory; nothing is changed then.
    pub fn push_hinted(&mut self, clause: Clause, hints: &[u32]) -> Result<(), Memory>
        ensures ok { OnOk result (self.new ≡ self.old ++ clause ∷ []) }
        ensures err { OnErr result (self.new ≡ self.old) }
    {
        self.hints.extend_from_slice(hints)?;
        self.ends.push(self.hints.len())?;
        self.clauses.push(clause)?;
        Ok(())
    }

    /// The hints of the clause at a place, from 0, if it has any.
    pub fn hints(&self, at: usize) -> &[u32] {
        let end = end_at(&self.ends, at);
        let start = if at == 0 {
            0
        } else {
            end_at(&self.ends, at - 1)
        };
        if start <= end && end <= self.hints.len() {
            &self.hints[start..end]
        } else {
            &[]
        }
    }

    /// How many clauses it has.
    pub fn len(&self) -> usize
        ensures { result ≡ length self.now }
    {
        self.clauses.len()
    }

    /// The clause at a place, from 0.
    pub fn clause(&self, at: usize) -> &Clause
        requires { at < length self.now }
        ensures { result.now ≡ slice_index_or self.now at [] }
    {
        &self.clauses[at]
    }

    /// All its clauses.
    pub fn clauses(&self) -> &[Clause]
        ensures { result.now ≡ self.now }
    {
        self.clauses.as_slice()
    }
}
