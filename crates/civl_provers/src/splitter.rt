// A prover that splits on variables.
ghost use Rattle.std.specs.Prelude.{◌≡◌, ◌≤◌, List, true, None};
ghost use Rattle.civl_cnf.specs.Literal.{Literal};
ghost use Rattle.civl_outside.specs.Count.{count_up, Rose};
ghost use Rattle.civl_portfolio.specs.Attempt.{Stands};
ghost use Rattle.civl_provers.specs.Branch.{IsUndecided};

use crate::memory::Memory;
use crate::splitting::split;
use civl_cnf::Cnf;
use civl_portfolio::{Attempt, Prover};
use std::alloc::Global;
use std::marker::Model;

/// An honest prover that splits on variables to a depth (Davis, Logemann and Loveland, "A machine program for theorem-proving", 1962). Its log has the clause of each branch that was refuted, behind those of its two sides, down to the empty one. Contracts see it as the record of its depth and counts.
#[derive(Drop)]
pub struct Splitter {
    depth: u32,
    asked: u64,
    lacks: u64,
}

impl Model for Splitter {
    ghost use Rattle.civl_provers.specs.Splitter.{SplitterState};

    ghost Value = { SplitterState };

    ghost view = { λ s. record { depth = s.depth; asked = s.asked; lacks = s.lacks } };
}

impl Splitter {
    /// A prover whose branches have at most so many choices.
    pub fn new(depth: u32) -> Splitter
        ensures { result ≡ record { depth = depth; asked = 0; lacks = 0 } }
    {
        Splitter {
            depth,
            asked: 0,
            lacks: 0,
        }
    }
}

impl Prover for Splitter {
    ghost asked = { λ s. s.asked };

    ghost lacks = { λ s. s.lacks };

    ghost honest = { λ _. true };

    ghost plan = { λ _. None };

    /// Answers bits that make the clause set true, or a log that refutes it. It gives up only where a branch of `depth` choices, each of a variable that propagation from the choices before it left open, is neither refuted nor true by propagation. The depth stays.
    fn attempt(&mut self, alloc: Global, cnf: &Cnf, _budget: u32) -> Attempt
        ensures asked { self.new.asked ≡ count_up self.old.asked }
        ensures lacks { self.old.lacks ≤ self.new.lacks }
        ensures memory { result ≡ Attempt.Memory → Rose self.old.lacks self.new.lacks }
        ensures depth { self.new.depth ≡ self.old.depth }
        ensures honest { Stands cnf.now result }
        ensures gave_up { result ≡ Attempt.GaveUp → (falses : List Literal) × IsUndecided cnf.now self.old.depth falses }
    {
        self.asked = self.asked.saturating_add(1);
        match split(alloc, cnf, self.depth) {
            Ok(attempt) => attempt,
            Err(Memory) => {
                self.lacks = self.lacks.saturating_add(1);
                Attempt::Memory
            }
        }
    }
}
