// The terms of the formulas that are decided, and who makes them.
ghost use Rattle.std.specs.Prelude.{◌≡◌, IsTrue, IfOk};
ghost use Rattle.std.specs.List.{Contains};
ghost use Rattle.civl_tree.specs.SpellingDomain.{allows_program};
ghost use Rattle.civl_tree.specs.rules.Rules.{Keeps};
ghost use Rattle.civl_linear.specs.LinearRules.{linear_rules};
ghost use Rattle.civl_linear.specs.Cuts.{all_held};
ghost use Rattle.civl_bodies.specs.Bodies.{AreBodies};
ghost use Rattle.civl_conditions.specs.Listed.{conditions};
ghost use Rattle.civl_verdicts.specs.Formulas.{initial_formula, violation_formula};
ghost use Rattle.civl_verdicts.specs.judging.Made.{IsMade};

use crate::judging::memory::Memory;
use civl_bodies::Bodies;
use civl_conditions::Condition;
use civl_layers::{Held, Layered};
use civl_terms::{Id, Terms};
use civl_tree::{List, Sort};
use std::alloc::Global;

/// The term of a formula, in a graph of its own, and the sorts of the formula's variables, in their order.
#[derive(Drop)]
pub struct Made {
    pub terms: Terms,
    pub id: Id,
    pub sorts: List<Sort>,
}

/// Who makes the terms of the formulas of a layered program that a text can spell.
pub trait Makes {
    /// The term of the formula that a store is initial.
    fn initial(&self, alloc: Global, src: &Layered) -> Result<Made, Memory>
        ensures { IfOk result (IsMade (initial_formula src.now)) };

    /// The term of the formula that values violate a condition of the program's list. `held` has what is held at each cut, and
    /// `bodies` what belongs to each procedure.
    fn violation(
        &self,
        alloc: Global,
        src: &Layered,
        held: &Held,
        bodies: &Bodies<'_>,
        condition: &Condition,
    ) -> Result<Made, Memory>
        requires written { IsTrue (allows_program src.now) }
        requires linear { Keeps linear_rules src.now }
        requires held { held.now.cuts ≡ all_held src.now }
        requires bodies { AreBodies src.now bodies.now }
        requires listed { Contains (conditions src.now) condition.now }
        ensures { IfOk result (IsMade (violation_formula src.now condition.now)) };
}
