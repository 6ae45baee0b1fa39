// Clauses in one piece of memory.
ghost use Rattle.std.specs.Prelude.{◌≡◌, ◌<◌, ◌++◌, ◌∷◌, [], length, slice_index_or, OnOk};

use crate::Memory;
use civl_cnf::Lit;
use std::alloc::Global;
use std::marker::Model;

/// Where the literals of a clause stand.
#[derive(Clone, Copy, Drop)]
struct Span {
    start: u32,
    len: u32,
}

/// Clauses, numbered from 0, whose literals stand one after the other in one piece of memory, at most 2^32 - 1 of them. Contracts see it as the list of the clauses.
#[derive(Drop)]
pub struct Clauses {
    lits: Vec<Lit>,
    spans: Vec<Span>,
}

impl Model for Clauses {
    ghost use Rattle.std.specs.Prelude.{List, length};
    ghost use Rattle.civl_cnf.specs.Literal.{Literal};
    ghost use Rattle.civl_propagation.specs.Clauses.{parts, AreWithin};

    ghost Value = { List (List Literal) };

    ghost view = { λ c. parts c.lits.items c.spans.items };

    ghost invariant = { λ c. AreWithin (length c.lits.items) c.spans.items };
}

impl Clauses {
    /// No clauses.
    pub(crate) fn new(alloc: Global) -> Clauses
        ensures { result ≡ [] }
    {
        Clauses {
            lits: Vec::new(alloc),
            spans: Vec::new(alloc),
        }
    }

    /// Adds a clause at the end.
    pub(crate) fn push(&mut self, clause: &[Lit]) -> Result<(), Memory>
        ensures { OnOk result (self.new ≡ self.old ++ clause.now ∷ []) }
    {
        let start = u32::try_from(self.lits.len())?;
        let len = u32::try_from(clause.len())?;
        self.lits.extend_from_slice(clause)?;
        self.spans.push(Span { start, len })?;
        Ok(())
    }

    /// How many there are.
    pub fn len(&self) -> usize
        ensures { result ≡ length self.now }
    {
        self.spans.len()
    }

    /// The literals of the clause with a number.
    pub fn lits(&self, number: usize) -> &[Lit]
        requires { number < length self.now }
        ensures { result.now ≡ slice_index_or self.now number [] }
    {
        let span = self.spans[number];
        let start = span.start as usize;
        &self.lits[start..start + span.len as usize]
    }
}
