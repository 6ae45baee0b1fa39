// Whether a part of a program breaks a rule.
ghost use Rattle.civl_types.specs.inner.Rules.{rule_of, stmt_breaks};

use crate::arity::{action_arity, refines_arity, stmt_arity, stmt_missorted, thread_arity};
use crate::count::{
    GLOBALS, INVARIANTS, THREADS, action_count, global_store_size, header_count, passes_limit,
    proc_count,
};
use crate::declared::{
    action_index, action_width, global_width, proc_index, proc_width, sort_index,
};
use crate::names::proc_named;
use crate::rule::TypingRule;
use crate::uses::{
    action_uses_break, init_uses_break, invariant_uses_break, stmt_uses_break, thread_uses_break,
    with_uses_break,
};
use civl_names::walks::{Decides, Test, first_in_body};
use civl_tree::{Action, Global, Invariant, Proc, Program, Stmt, Thread};

/// What a rule asks of a statement of a procedure.
#[derive(Clone, Copy)]
struct OfStatement<'a> {
    rule: TypingRule,
    program: &'a Program,
    proc: &'a Proc,
}

impl<'a> Test for OfStatement<'a> {
    ghost breaks = { λ asked stmt. stmt_breaks asked.rule asked.program.now asked.proc.now stmt };

    fn breaks(&self, stmt: &Stmt) -> bool {
        match self.rule {
            TypingRule::Width => stmt_uses_break(TypingRule::Width, self.program, self.proc, stmt),
            TypingRule::Sorts => stmt_missorted(self.program, self.proc, stmt),
            TypingRule::Index => stmt_uses_break(TypingRule::Index, self.program, self.proc, stmt),
            TypingRule::Arity => stmt_arity(self.program, stmt),
            TypingRule::Count | TypingRule::StoreSize => false,
        }
    }
}

impl Decides for TypingRule {
    ghost rule = { rule_of };

    fn code(&self) -> u32 {
        match *self {
            TypingRule::Count => 12,
            TypingRule::Width => 20,
            TypingRule::Sorts => 21,
            TypingRule::Index => 22,
            TypingRule::Arity => 23,
            TypingRule::StoreSize => 24,
        }
    }

    fn header(&self, program: &Program) -> bool {
        match *self {
            TypingRule::Count => header_count(program),
            TypingRule::Width
            | TypingRule::Sorts
            | TypingRule::Index
            | TypingRule::Arity
            | TypingRule::StoreSize => false,
        }
    }

    fn global(&self, program: &Program, place: usize, global: &Global) -> bool {
        match *self {
            TypingRule::Count => passes_limit(GLOBALS, place),
            TypingRule::Width => global_width(program, global),
            TypingRule::Index => sort_index(global.sort),
            TypingRule::StoreSize => global_store_size(program, place, global),
            TypingRule::Sorts | TypingRule::Arity => false,
        }
    }

    fn init(&self, program: &Program) -> bool {
        match *self {
            TypingRule::Width => init_uses_break(TypingRule::Width, program),
            TypingRule::Sorts => init_uses_break(TypingRule::Sorts, program),
            TypingRule::Index => init_uses_break(TypingRule::Index, program),
            TypingRule::Count | TypingRule::Arity | TypingRule::StoreSize => false,
        }
    }

    fn invariant(&self, program: &Program, place: usize, invariant: &Invariant) -> bool {
        match *self {
            TypingRule::Count => passes_limit(INVARIANTS, place),
            TypingRule::Width => invariant_uses_break(TypingRule::Width, program, invariant),
            TypingRule::Sorts => invariant_uses_break(TypingRule::Sorts, program, invariant),
            TypingRule::Index => invariant_uses_break(TypingRule::Index, program, invariant),
            TypingRule::Arity | TypingRule::StoreSize => false,
        }
    }

    fn action(&self, program: &Program, place: usize, action: &Action) -> bool {
        match *self {
            TypingRule::Count => action_count(place, action),
            TypingRule::Width => action_width(program, action),
            TypingRule::Sorts => action_uses_break(TypingRule::Sorts, program, action),
            TypingRule::Index => action_index(program, action),
            TypingRule::Arity => action_arity(action),
            TypingRule::StoreSize => false,
        }
    }

    fn proc(&self, program: &Program, place: usize, proc: &Proc) -> bool {
        match *self {
            TypingRule::Count => proc_count(program, place, proc),
            TypingRule::Width => proc_width(program, proc),
            TypingRule::Sorts => with_uses_break(TypingRule::Sorts, program, proc),
            TypingRule::Index => proc_index(program, proc),
            TypingRule::Arity => refines_arity(program, proc),
            TypingRule::StoreSize => false,
        }
    }

    fn statement(&self, program: &Program, _place: usize, proc: &Proc) -> Option<u32> {
        let asked = OfStatement {
            rule: *self,
            program,
            proc,
        };
        first_in_body(&asked, &proc.body)
    }

    fn thread(&self, program: &Program, place: usize, thread: &Thread) -> bool {
        match *self {
            TypingRule::Count => passes_limit(THREADS, place),
            TypingRule::Width => thread_uses_break(TypingRule::Width, program, thread),
            TypingRule::Sorts => thread_uses_break(TypingRule::Sorts, program, thread),
            TypingRule::Index => thread_uses_break(TypingRule::Index, program, thread),
            TypingRule::Arity => { thread_arity(&thread.args, proc_named(program, &thread.callee)) }
            TypingRule::StoreSize => false,
        }
    }
}
