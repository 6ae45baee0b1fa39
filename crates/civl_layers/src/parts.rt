// Whether a part of a program breaks a rule.
ghost use Rattle.civl_layers.specs.inner.Asked.{rule_of, stmt_breaks};

use crate::below::call_or_spawn_not_below;
use crate::hidden::{action_hidden, invariant_hidden, stmt_hidden, with_hidden};
use crate::introduced::{linear_hidden, stmt_introduced};
use crate::ranges::{range_fails, refines_range, step_fails};
use crate::rule::LayerRule;
use crate::signature::proc_signature_differs;
use crate::there::{refines_missing, stmt_missing, thread_missing};
use civl_names::walks::{Decides, Test, first_in_body};
use civl_tree::{Action, Global, Invariant, Proc, Program, Stmt, Thread};

/// What a rule asks of a statement of a procedure, which stands behind the earlier ones.
#[derive(Clone, Copy)]
struct OfStatement<'a> {
    rule: LayerRule,
    program: &'a Program,
    earlier: &'a [Proc],
    proc: &'a Proc,
}

impl<'a> Test for OfStatement<'a> {
    ghost breaks = { λ asked stmt. stmt_breaks asked.rule asked.program.now asked.earlier.now asked.proc.now stmt };

    fn breaks(&self, stmt: &Stmt) -> bool {
        match self.rule {
            LayerRule::Hidden => stmt_hidden(self.program, &self.proc.refines, stmt),
            LayerRule::NotBelow => {
                call_or_spawn_not_below(self.program, self.earlier, &self.proc.refines, stmt)
            }
            LayerRule::NotThere => stmt_missing(self.program, self.proc, stmt),
            LayerRule::Introduced => stmt_introduced(self.program, &self.proc.refines, stmt),
            LayerRule::Range | LayerRule::Signature => false,
        }
    }
}

impl Decides for LayerRule {
    ghost rule = { rule_of };

    fn code(&self) -> u32 {
        match *self {
            LayerRule::Range => 30,
            LayerRule::Hidden => 31,
            LayerRule::NotBelow => 32,
            LayerRule::NotThere => 33,
            LayerRule::Signature => 34,
            LayerRule::Introduced => 35,
        }
    }

    fn header(&self, _program: &Program) -> bool {
        match *self {
            LayerRule::Range | LayerRule::Hidden | LayerRule::NotBelow => false,
            LayerRule::NotThere | LayerRule::Signature | LayerRule::Introduced => false,
        }
    }

    fn global(&self, program: &Program, _place: usize, global: &Global) -> bool {
        match *self {
            LayerRule::Range => range_fails(program, global.first, global.last),
            LayerRule::Introduced => linear_hidden(program, global),
            LayerRule::Hidden | LayerRule::NotBelow | LayerRule::NotThere | LayerRule::Signature =>
                false,
        }
    }

    fn init(&self, _program: &Program) -> bool {
        match *self {
            LayerRule::Range | LayerRule::Hidden | LayerRule::NotBelow => false,
            LayerRule::NotThere | LayerRule::Signature | LayerRule::Introduced => false,
        }
    }

    fn invariant(&self, program: &Program, _place: usize, invariant: &Invariant) -> bool {
        match *self {
            LayerRule::Range => step_fails(program, invariant.step),
            LayerRule::Hidden => invariant_hidden(program, invariant),
            LayerRule::NotBelow
            | LayerRule::NotThere
            | LayerRule::Signature
            | LayerRule::Introduced => false,
        }
    }

    fn action(&self, program: &Program, _place: usize, action: &Action) -> bool {
        match *self {
            LayerRule::Range => range_fails(program, action.first, action.last),
            LayerRule::Hidden => action_hidden(program, action),
            LayerRule::NotBelow
            | LayerRule::NotThere
            | LayerRule::Signature
            | LayerRule::Introduced => false,
        }
    }

    fn proc(&self, program: &Program, _place: usize, proc: &Proc) -> bool {
        match *self {
            LayerRule::Range => refines_range(program, &proc.refines),
            LayerRule::Hidden => with_hidden(program, &proc.refines),
            LayerRule::NotThere => refines_missing(program, &proc.refines),
            LayerRule::Signature => proc_signature_differs(program, proc),
            LayerRule::NotBelow | LayerRule::Introduced => false,
        }
    }

    fn statement(&self, program: &Program, place: usize, proc: &Proc) -> Option<u32> {
        let asked = OfStatement {
            rule: *self,
            program,
            earlier: &program.procs.as_slice()[..place],
            proc,
        };
        first_in_body(&asked, &proc.body)
    }

    fn thread(&self, program: &Program, _place: usize, thread: &Thread) -> bool {
        match *self {
            LayerRule::NotThere => thread_missing(program, thread),
            LayerRule::Range
            | LayerRule::Hidden
            | LayerRule::NotBelow
            | LayerRule::Signature
            | LayerRule::Introduced => false,
        }
    }
}
