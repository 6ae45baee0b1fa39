// Splitting on variables.
ghost use Rattle.std.specs.Prelude.{IfOk};
ghost use Rattle.civl_provers.specs.Splitter.{SplitSays};

use crate::branching::{assume_false, end_of, load, turn};
use crate::looking::{Node, judge};
use crate::memory::Memory;
use crate::refuting::refute;
use civl_cnf::{Cnf, Lit, Log};
use civl_portfolio::Attempt;
use civl_propagation::Engine;
use std::alloc::Global;

/// Goes from branch to branch, each of at most so many choices, until one is true, all are refuted, or one that is as long as allowed is neither.
pub fn split(alloc: Global, cnf: &Cnf, depth: u32) -> Result<Attempt, Memory>
    ensures { IfOk result (λ attempt. SplitSays cnf.now depth attempt) }
{
    let mut engine = Engine::new(alloc, cnf.variables())?;
    let mut conflict = load(&mut engine, cnf)?;
    let mut falses: Vec<Lit> = Vec::new(alloc);
    let mut log = Log::new(alloc);
    'branches: loop {
        if conflict {
            if refute(alloc, &mut falses, &mut log)? {
                return Ok(Attempt::Unsat(log));
            }
            conflict = turn(&mut engine, falses.as_slice())?;
        } else {
            let end = end_of(falses.as_slice(), cnf.variables());
            let may_choose = falses.len() < depth as usize;
            match judge(alloc, engine.trail().marks(), cnf, end, may_choose)? {
                Node::True(bits) => return Ok(Attempt::Sat(bits)),
                Node::Stuck => return Ok(Attempt::GaveUp),
                Node::Open(variable) => {
                    let lit = Lit::new(variable, true);
                    falses.push(lit)?;
                    conflict = assume_false(&mut engine, lit)?;
                }
            }
        }
    }
}
