// Stray `done` and `old`, part by part (E53).
ghost use Rattle.civl_yields.specs.YieldRules.{done_rule};

use crate::finders::is_layered;
use crate::rules::Stray;
use crate::strays::{action_stray, any_stray, plainly_stray, refines_stray};
use civl_names::walks::{Decides, first_in_body};
use civl_tree::{Action, Global, Invariant, Proc, Program, Thread};

/// Stray `done` and `old` (E53).
#[derive(Clone, Copy)]
pub(crate) struct StrayWords;

impl Decides for StrayWords {
    ghost rule = { λ words. done_rule };

    fn code(&self) -> u32 {
        53
    }

    fn header(&self, _program: &Program) -> bool {
        false
    }

    fn global(&self, _program: &Program, _place: usize, _global: &Global) -> bool {
        false
    }

    fn init(&self, program: &Program) -> bool {
        plainly_stray(&program.init)
    }

    fn invariant(&self, _program: &Program, _place: usize, invariant: &Invariant) -> bool {
        plainly_stray(&invariant.expr)
    }

    fn action(&self, _program: &Program, _place: usize, action: &Action) -> bool {
        action_stray(action)
    }

    fn proc(&self, _program: &Program, _place: usize, proc: &Proc) -> bool {
        refines_stray(proc)
    }

    fn statement(&self, _program: &Program, _place: usize, proc: &Proc) -> Option<u32> {
        let stray = Stray {
            layered: is_layered(proc),
        };
        first_in_body(&stray, &proc.body)
    }

    fn thread(&self, _program: &Program, _place: usize, thread: &Thread) -> bool {
        any_stray(thread.args.as_slice())
    }
}
