// The first statement of a procedure at which a rule is broken.
ghost use Rattle.civl_linear.specs.LinearRules.{not_held_rule, held_twice_rule, lost_rule, assigned_rule};

use crate::flags::{covers, exit_owed};
use crate::places::names_in_proc;
use crate::rules::{Doubled, Losing, Misassigned, Unheld};
use crate::tracing::traced_proc;
use civl_names::walks::{Finder, first_in_body, first_with, statements};
use civl_tree::{Memory, Proc, Program};
use std::alloc::Global;

/// Arguments that aren't held (E40).
#[derive(Clone, Copy)]
pub(crate) struct UnheldArguments;

/// Locals that are held twice (E41).
#[derive(Clone, Copy)]
pub(crate) struct DoubledLocals;

/// What is lost by loops, or owed at the exit (E42).
#[derive(Clone, Copy)]
pub(crate) struct LostLocals;

/// Assigns and results to what they may not go to (E43).
#[derive(Clone, Copy)]
pub(crate) struct MisassignedNames;

impl Finder for UnheldArguments {
    ghost rule = { λ finder. not_held_rule };

    fn code(&self) -> u32 {
        40
    }

    fn find(
        &self,
        alloc: Global,
        program: &Program,
        _place: usize,
        proc: &Proc,
    ) -> Result<Option<u32>, Memory> {
        let names = names_in_proc(alloc, proc)?;
        let flat = statements(alloc, &proc.body)?;
        let traced = traced_proc(alloc, program, proc)?;
        let rule = Unheld {
            program,
            proc,
            names: &names,
        };
        Ok(first_with(&rule, &flat, &traced.befores))
    }
}

impl Finder for DoubledLocals {
    ghost rule = { λ finder. held_twice_rule };

    fn code(&self) -> u32 {
        41
    }

    fn find(
        &self,
        alloc: Global,
        program: &Program,
        _place: usize,
        proc: &Proc,
    ) -> Result<Option<u32>, Memory> {
        let names = names_in_proc(alloc, proc)?;
        let flat = statements(alloc, &proc.body)?;
        let traced = traced_proc(alloc, program, proc)?;
        let rule = Doubled {
            program,
            names: &names,
        };
        Ok(first_with(&rule, &flat, &traced.befores))
    }
}

impl Finder for LostLocals {
    ghost rule = { λ finder. lost_rule };

    fn code(&self) -> u32 {
        42
    }

    fn find(
        &self,
        alloc: Global,
        program: &Program,
        _place: usize,
        proc: &Proc,
    ) -> Result<Option<u32>, Memory> {
        let flat = statements(alloc, &proc.body)?;
        let all = flat.as_slice();
        let traced = traced_proc(alloc, program, proc)?;
        if let Some(number) = first_with(&Losing, all, &traced.losses) {
            return Ok(Some(number));
        }
        let owed = exit_owed(alloc, proc)?;
        if covers(&owed, &traced.after) {
            return Ok(None);
        }
        Ok(Some(all.len() as u32))
    }
}

impl Finder for MisassignedNames {
    ghost rule = { λ finder. assigned_rule };

    fn code(&self) -> u32 {
        43
    }

    #[tactic(auto, using(civl_names::proofs::walks::Placing::body_counts))]
    fn find(
        &self,
        _alloc: Global,
        program: &Program,
        _place: usize,
        proc: &Proc,
    ) -> Result<Option<u32>, Memory> {
        let rule = Misassigned { program, proc };
        Ok(first_in_body(&rule, &proc.body))
    }
}
