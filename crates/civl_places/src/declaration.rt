// How many tokens declarations have.
ghost use Rattle.std.specs.Prelude.{◌≡◌, ◌<◌, ◌^◌, length};
ghost use Rattle.civl_tree.specs.SpellingProgram.{spell_param, spell_choice, spell_update, spell_local, spell_rank_of, spell_global, spell_init, spell_invariant, spell_action, spell_proc, spell_thread};
ghost use Rattle.civl_places.specs.Starts.{spell_head};

use crate::phrase::{Phrase, count_each, count_list};
use crate::sort::sort_count;
use crate::statement::stmts_count;
use civl_reasons::expr_count;
use civl_tree::{
    Action, Choice, Expr, Global, Invariant, Local, Param, Proc, Refines, Thread, Update,
};

/// A parameter. An output is spelled as a parameter is: `mode name : sort`.
impl Phrase for Param {
    ghost spell = { spell_param };

    fn count(&self) -> usize {
        sort_count(self.sort) + 3
    }
}

/// `name : sort = expr`
impl Phrase for Choice {
    ghost spell = { spell_choice };

    #[tactic(auto, using(crate::proofs::Counts::counts))]
    fn count(&self) -> usize {
        sort_count(self.sort) + expr_count(&self.offer) + 3
    }
}

/// `name := expr ;`
impl Phrase for Update {
    ghost spell = { spell_update };

    #[tactic(auto, using(crate::proofs::Counts::counts))]
    fn count(&self) -> usize {
        expr_count(&self.expr) + 3
    }
}

/// `var name : sort ; | linear name : sort ;`
impl Phrase for Local {
    ghost spell = { spell_local };

    #[tactic(auto, using(crate::proofs::Counts::counts))]
    fn count(&self) -> usize {
        sort_count(self.sort) + 4
    }
}

/// `global [linear] name : sort layers number to number ;`
impl Phrase for Global {
    ghost spell = { spell_global };

    #[tactic(auto, using(crate::proofs::Counts::counts))]
    fn count(&self) -> usize {
        if self.linear {
            sort_count(self.sort) + 9
        } else {
            sort_count(self.sort) + 8
        }
    }
}

/// `init expr ;`
#[tactic(auto, using(crate::proofs::Counts::counts))]
pub(crate) fn init_count(init: &Expr) -> usize
    requires { length (spell_init init.now) < 2 ^ 64 }
    ensures { result ≡ length (spell_init init.now) }
{
    expr_count(init) + 2
}

/// `invariant number expr ;`
impl Phrase for Invariant {
    ghost spell = { spell_invariant };

    #[tactic(auto, using(crate::proofs::Counts::counts))]
    fn count(&self) -> usize {
        expr_count(&self.expr) + 3
    }
}

/// An action.
impl Phrase for Action {
    ghost spell = { spell_action };

    #[tactic(auto, using(crate::proofs::Counts::counts))]
    fn count(&self) -> usize {
        let signature = count_list(&self.params) + count_list(&self.outs) + 3;
        let choices = count_list(&self.choices) + 1;
        let conditions = expr_count(&self.gate) + expr_count(&self.guard) + 2;
        let updates = count_each(self.updates.as_slice()) + 2;
        signature + choices + conditions + updates + 5
    }
}

/// `root`, or what is refined
#[tactic(auto, using(crate::proofs::Counts::counts))]
fn rank_of_count(refines: &Option<Refines>) -> usize
    requires { length (spell_rank_of refines.now) < 2 ^ 64 }
    ensures { result ≡ length (spell_rank_of refines.now) }
{
    match refines {
        None => 1,
        Some(refines) => count_list(&refines.with) + 5,
    }
}

/// A procedure up to its first statement.
#[tactic(auto, using(crate::proofs::Counts::counts))]
pub(crate) fn head_count(proc: &Proc) -> usize
    requires { length (spell_head proc.now) < 2 ^ 64 }
    ensures { result ≡ length (spell_head proc.now) }
{
    let signature = count_list(&proc.params) + count_list(&proc.outs) + 3;
    let refines = rank_of_count(&proc.refines);
    signature + refines + count_each(proc.locals.as_slice()) + 1
}

/// A procedure.
impl Phrase for Proc {
    ghost spell = { spell_proc };

    #[tactic(auto, using(crate::proofs::Counts::counts))]
    fn count(&self) -> usize {
        head_count(self) + stmts_count(&self.body) + 1
    }
}

/// `thread name ( list(expr) ) ;`
impl Phrase for Thread {
    ghost spell = { spell_thread };

    #[tactic(auto, using(crate::proofs::Counts::counts))]
    fn count(&self) -> usize {
        count_list(&self.args) + 3
    }
}
