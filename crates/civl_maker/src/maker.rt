// The maker of the terms of formulas.
ghost use Rattle.std.specs.Prelude.{◌≡◌, IfOk};
ghost use Rattle.civl_states.specs.Stores.{global_sorts};

use crate::violation::violation;
use civl_bodies::Bodies;
use civl_conditions::Condition;
use civl_layers::{Held, Layered, program};
use civl_movers::interfere::initial;
use civl_states::variable_sorts;
use civl_terms::Terms;
use civl_tree::{List, Program, Sort};
use civl_verdicts::judging::{Made, Makes, Memory};
use std::alloc::Global;

/// The sorts of the globals, in their order.
fn sorts_of_globals(alloc: Global, program: &Program) -> Result<List<Sort>, Memory>
    ensures { IfOk result (λ sorts. sorts ≡ global_sorts program.now) }
{
    let mut sorts = Vec::new(alloc);
    for global in program.globals.as_slice() {
        sorts.push(global.sort)?;
    }
    Ok(List::from_vec(sorts))
}

/// Makes the term of each formula in a graph of its own, with the sorts of its variables.
#[derive(Clone, Copy)]
pub struct Maker;

impl Makes for Maker {
    fn initial(&self, alloc: Global, src: &Layered) -> Result<Made, Memory> {
        let mut terms = Terms::new(alloc);
        let id = initial(alloc, &mut terms, src)?;
        let sorts = sorts_of_globals(alloc, program(src))?;
        Ok(Made { terms, id, sorts })
    }

    fn violation(
        &self,
        alloc: Global,
        src: &Layered,
        held: &Held,
        bodies: &Bodies<'_>,
        condition: &Condition,
    ) -> Result<Made, Memory> {
        // The program keeps the rules that bound the sorts of its variables.
        let _program = program(src);
        let sorts = variable_sorts(alloc, src, bodies, condition)?;
        let mut terms = Terms::new(alloc);
        let id = violation(
            alloc,
            &mut terms,
            src,
            held,
            bodies,
            sorts.as_slice(),
            condition,
        )?;
        Ok(Made { terms, id, sorts })
    }
}
