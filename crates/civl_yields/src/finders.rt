// The first statement of a procedure at which a rule is broken.
ghost use Rattle.std.specs.Prelude.{◌≡◌};
ghost use Rattle.civl_yields.specs.Places.{is_layered};
ghost use Rattle.civl_yields.specs.YieldRules.{phase_rule, rank_loop_rule, commit_rule};

use crate::inside::insides_of;
use crate::marking::phases_before;
use crate::rules::{Late, Misplaced, Nested};
use civl_names::walks::{Finder, first_in_body, first_with, statements};
use civl_tree::{Memory, Proc, Program};
use std::alloc::Global;

/// Calls that come too late (E50).
#[derive(Clone, Copy)]
pub(crate) struct LateCalls;

/// Yields and loops inside rank loops (E51).
#[derive(Clone, Copy)]
pub(crate) struct NestedLoops;

/// Statements of layered procedures in roots, and of roots in layered procedures (E52).
#[derive(Clone, Copy)]
pub(crate) struct MisplacedStatements;

impl Finder for LateCalls {
    ghost rule = { λ calls. phase_rule };

    fn code(&self) -> u32 {
        50
    }

    fn find(
        &self,
        alloc: Global,
        program: &Program,
        _place: usize,
        proc: &Proc,
    ) -> Result<Option<u32>, Memory> {
        match &proc.refines {
            Some(_) => {
                let flat = statements(alloc, &proc.body)?;
                let phases = phases_before(alloc, program, &proc.body)?;
                let late = Late { program };
                Ok(first_with(&late, &flat, &phases))
            }
            None => Ok(None),
        }
    }
}

impl Finder for NestedLoops {
    ghost rule = { λ loops. rank_loop_rule };

    fn code(&self) -> u32 {
        51
    }

    fn find(
        &self,
        alloc: Global,
        _program: &Program,
        _place: usize,
        proc: &Proc,
    ) -> Result<Option<u32>, Memory> {
        let flat = statements(alloc, &proc.body)?;
        let insides = insides_of(alloc, &proc.body)?;
        Ok(first_with(&Nested, &flat, &insides))
    }
}

/// Whether the procedure refines an action.
pub(crate) fn is_layered(proc: &Proc) -> bool
    ensures { result ≡ is_layered proc.now }
{
    proc.refines.is_some()
}

impl Finder for MisplacedStatements {
    ghost rule = { λ statements. commit_rule };

    fn code(&self) -> u32 {
        52
    }

    #[tactic(auto, using(civl_names::proofs::walks::Placing::body_counts))]
    fn find(
        &self,
        _alloc: Global,
        _program: &Program,
        _place: usize,
        proc: &Proc,
    ) -> Result<Option<u32>, Memory> {
        let misplaced = Misplaced {
            layered: is_layered(proc),
        };
        Ok(first_in_body(&misplaced, &proc.body))
    }
}
