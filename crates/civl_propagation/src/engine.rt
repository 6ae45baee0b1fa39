// The engine of unit propagation.
ghost use Rattle.std.specs.Prelude.{◌≡◌, ◌<◌, ◌++◌, ◌∷◌, [], ◌≤◌, ◌^◌, List, length, take, IfOk, OnOk};
ghost use Rattle.civl_cnf.specs.Literal.{Literal};
ghost use Rattle.civl_cnf.specs.ClauseSet.{IsBelow};
ghost use Rattle.civl_units.specs.Trail.{IsOpen, open_count};
ghost use Rattle.civl_propagation.specs.Trail.{AreDecided, Deepens, IsCut};
ghost use Rattle.civl_propagation.specs.Engine.{IsEngine, IsAtRest, IsQuietBelow, EndsBy};
ghost use Rattle.civl_propagation.specs.Propagation.{Grows};

use crate::Memory;
use crate::choice::{choose, is_free};
use crate::clauses::Clauses;
use crate::propagation::{Ended, propagate, serve};
use crate::trail::Trail;
use crate::watches::Watches;
use civl_cnf::Lit;
use std::alloc::Global;
use std::marker::Model;

/// Clauses, given and learned, and the literals that were decided and those that unit propagation made true from there. Contracts see it as the record of its parts; `IsEngine` is what holds of it at all times, and `IsAtRest` that propagation is complete.
#[derive(Drop)]
pub struct Engine {
    trail: Trail,
    clauses: Clauses,
    watches: Watches,
}

impl Model for Engine {
    ghost use Rattle.civl_propagation.specs.Engine.{EngineState};

    ghost Value = { EngineState };

    ghost view = { λ e. record { trail = e.trail; clauses = e.clauses; watches = e.watches } };
}

impl Engine {
    /// An engine with no clause, over so many variables, at most 2^31.
    ///
    /// # Errors
    ///
    /// For want of memory.
    pub fn new(alloc: Global, variables: u32) -> Result<Engine, Memory>
        requires { variables ≤ 2 ^ 31 }
        ensures rest { IfOk result IsAtRest }
        ensures clauses { IfOk result (λ engine. engine.clauses ≡ []) }
        ensures size { IfOk result (λ engine. length engine.trail.marks ≡ variables) }
        ensures decided { IfOk result (λ engine. AreDecided engine.trail []) }
    {
        let trail = Trail::new(alloc, variables)?;
        let watches = Watches::new(alloc, variables)?;
        Ok(Engine {
            trail,
            clauses: Clauses::new(alloc),
            watches,
        })
    }

    /// The literals that are true, in order, with their reasons, and where levels start.
    pub fn trail(&self) -> &Trail
        ensures { result.now ≡ self.now.trail }
    {
        &self.trail
    }

    /// The clauses, in the order in which they were added.
    pub fn clauses(&self) -> &Clauses
        ensures { result.now ≡ self.now.clauses }
    {
        &self.clauses
    }

    /// Adds a clause and propagates. Below the start of each level it must force nothing, and not be falsified. Memory is wanting too where there are 2^32 clauses, or 2^32 literals in them.
    ///
    /// # Errors
    ///
    /// For want of memory.
    pub fn add(&mut self, clause: &[Lit]) -> Result<Ended, Memory>
        requires rest { IsAtRest self.old }
        requires below { IsBelow (length self.old.trail.marks) clause.now }
        requires levels { IsQuietBelow self.old.trail clause.now }
        ensures clauses { OnOk result (self.new.clauses ≡ self.old.clauses ++ clause.now ∷ []) }
        ensures grows { OnOk result (Grows self.old.trail self.new.trail) }
        ensures ended { IfOk result (EndsBy self.new) }
    {
        let number = self.clauses.len();
        let from = self.trail.len();
        let pair = choose(&self.trail, clause);
        let quiet = is_free(&self.trail, &pair);
        self.watches.watch(pair)?;
        self.clauses.push(clause)?;
        let ended = serve(&mut self.trail, &self.clauses, number, quiet)?;
        match ended {
            Ended::Conflict(falsified) => Ok(Ended::Conflict(falsified)),
            Ended::Quiet => {
                let last = propagate(&mut self.trail, &mut self.watches, &self.clauses, from)?;
                Ok(last)
            }
        }
    }

    /// Begins a level with a literal whose variable has no value, and propagates.
    ///
    /// # Errors
    ///
    /// For want of memory.
    pub fn decide(&mut self, lit: Lit) -> Result<Ended, Memory>
        requires rest { IsAtRest self.old }
        requires below { lit.variable < length self.old.trail.marks }
        requires open { IsOpen self.old.trail.marks lit }
        ensures clauses { OnOk result (self.new.clauses ≡ self.old.clauses) }
        ensures size { OnOk result (length self.new.trail.marks ≡ length self.old.trail.marks) }
        ensures decided { OnOk result ((decisions : List Literal) → AreDecided self.old.trail decisions → AreDecided self.new.trail (decisions ++ lit ∷ [])) }
        ensures deeper { OnOk result (Deepens self.old.trail self.new.trail) }
        ensures fewer { OnOk result (open_count self.new.trail.marks < open_count self.old.trail.marks) }
        ensures ended { IfOk result (EndsBy self.new) }
    {
        let from = self.trail.len();
        self.trail.decide(lit)?;
        let ended = propagate(&mut self.trail, &mut self.watches, &self.clauses, from)?;
        Ok(ended)
    }

    /// Takes levels back, one at least, until there are so many. What was true below stays.
    pub fn cut(&mut self, levels: usize)
        requires engine { IsEngine self.old }
        requires levels { levels < length self.old.trail.starts }
        ensures rest { IsAtRest self.new }
        ensures clauses { self.new.clauses ≡ self.old.clauses }
        ensures cut { IsCut self.old.trail self.new.trail levels }
        ensures decided { (decisions : List Literal) → AreDecided self.old.trail decisions → AreDecided self.new.trail (take levels decisions) }
    {
        self.trail.cut(levels);
    }
}
