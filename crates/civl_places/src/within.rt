// The expressions in an action, a procedure, a thread and a statement that begin at a token.
ghost use Rattle.std.specs.Prelude.{◌≡◌, ◌+◌, ◌<◌, ◌^◌, None, length, map};
ghost use Rattle.std.specs.Option.{option_map};
ghost use Rattle.civl_tree.specs.declared.stmt.Stmt.{out-Stmt};
ghost use Rattle.civl_tree.specs.Spelling.{joined, enclosed, spell_expr};
ghost use Rattle.civl_tree.specs.SpellingStmt.{spell_stmt};
ghost use Rattle.civl_tree.specs.SpellingProgram.{spell_action, spell_proc, spell_thread};
ghost use Rattle.civl_reasons.specs.inner.Told.{subformula};
ghost use Rattle.civl_places.specs.Formulas.{before_in_list, in_list, before_choices, before_gate, before_guard, before_updates, before_refines, in_action, in_with, in_thread, condition_in, rank_in, invariant_in, argument_in, value_in, in_statement};

use crate::formula::{InAction, InStatement};
use crate::phrase::{Phrase, count_each, count_list};
use crate::sort::sort_count;
use civl_reasons::{Part, expr_count};
use civl_tree::{Action, Expr, List, Proc, Stmt, Thread};

/// How many tokens of a list in parentheses stand before the phrase with this number.
fn before_in_list<P: Phrase>(phrases: &[P], number: usize) -> usize
    requires there { number < length phrases.now }
    requires fits { length (enclosed P.spell phrases.now) < 2 ^ 64 }
    ensures { result ≡ before_in_list P.spell phrases.now number }
{
    count_each(&phrases[..number]) + number + 1
}

/// The expression with this number in a list in parentheses that begins at this token.
#[tactic(auto, using(crate::proofs::Counts::counts))]
fn in_list(exprs: &List<Expr>, at: usize, number: usize) -> Option<Part<'_>>
    requires { at + length (enclosed spell_expr exprs.now) < 2 ^ 64 }
    ensures { option_map subformula result ≡ in_list at exprs.now number }
{
    if number < exprs.len() {
        Some(Part {
            token: at + before_in_list(exprs.as_slice(), number),
            expr: exprs.get(number),
        })
    } else {
        None
    }
}

/// How many tokens of an action stand before the list of its choices.
#[tactic(auto, using(crate::proofs::Counts::counts))]
fn count_to_choices(action: &Action) -> usize
    requires { length (before_choices action.now) < 2 ^ 64 }
    ensures { result ≡ length (before_choices action.now) }
{
    count_list(&action.params) + count_list(&action.outs) + 4
}

/// How many stand before its gate.
#[tactic(auto, using(crate::proofs::Counts::counts))]
fn count_to_gate(action: &Action) -> usize
    requires { length (before_gate action.now) < 2 ^ 64 }
    ensures { result ≡ length (before_gate action.now) }
{
    count_to_choices(action) + count_list(&action.choices) + 6
}

/// How many stand before its guard.
#[tactic(auto, using(crate::proofs::Counts::counts))]
fn count_to_guard(action: &Action) -> usize
    requires { length (before_guard action.now) < 2 ^ 64 }
    ensures { result ≡ length (before_guard action.now) }
{
    count_to_gate(action) + expr_count(&action.gate) + 1
}

/// How many stand before its updates.
#[tactic(auto, using(crate::proofs::Counts::counts))]
fn count_to_updates(action: &Action) -> usize
    requires { length (before_updates action.now) < 2 ^ 64 }
    ensures { result ≡ length (before_updates action.now) }
{
    count_to_guard(action) + expr_count(&action.guard) + 1
}

/// The offer of a choice of an action that begins at this token.
#[tactic(auto, using(crate::proofs::Counts::counts))]
fn offer(action: &Action, at: usize, number: usize) -> Option<Part<'_>>
    requires { at + length (spell_action action.now) < 2 ^ 64 }
    ensures { option_map subformula result ≡ in_action at action.now (InAction.Offer number) }
{
    if number < action.choices.len() {
        let choice = action.choices.get(number);
        let before = before_in_list(action.choices.as_slice(), number)
            + sort_count(choice.sort)
            + 3;
        Some(Part {
            token: at + count_to_choices(action) + before,
            expr: &choice.offer,
        })
    } else {
        None
    }
}

/// The right side of an update of an action that begins at this token.
#[tactic(auto, using(crate::proofs::Counts::counts))]
fn update(action: &Action, at: usize, number: usize) -> Option<Part<'_>>
    requires { at + length (spell_action action.now) < 2 ^ 64 }
    ensures { option_map subformula result ≡ in_action at action.now (InAction.Update number) }
{
    if number < action.updates.len() {
        let update = action.updates.get(number);
        let before = count_each(&action.updates.as_slice()[..number]) + 2;
        Some(Part {
            token: at + count_to_updates(action) + before,
            expr: &update.expr,
        })
    } else {
        None
    }
}

/// An expression of an action that begins at this token.
#[tactic(auto, using(crate::proofs::Counts::counts))]
pub(crate) fn in_action(action: &Action, at: usize, part: InAction) -> Option<Part<'_>>
    requires { at + length (spell_action action.now) < 2 ^ 64 }
    ensures { option_map subformula result ≡ in_action at action.now part }
{
    match part {
        InAction::Gate => Some(Part {
            token: at + count_to_gate(action),
            expr: &action.gate,
        }),
        InAction::Guard => Some(Part {
            token: at + count_to_guard(action),
            expr: &action.guard,
        }),
        InAction::Offer(number) => offer(action, at, number),
        InAction::Update(number) => update(action, at, number),
    }
}

/// How many tokens of a procedure stand before what it refines.
#[tactic(auto, using(crate::proofs::Counts::counts))]
fn count_to_refines(proc: &Proc) -> usize
    requires { length (before_refines proc.now) < 2 ^ 64 }
    ensures { result ≡ length (before_refines proc.now) }
{
    count_list(&proc.params) + count_list(&proc.outs) + 3
}

/// A value for a choice, of a procedure that begins at this token.
#[tactic(auto, using(crate::proofs::Counts::counts))]
pub(crate) fn in_with(proc: &Proc, at: usize, number: usize) -> Option<Part<'_>>
    requires { at + length (spell_proc proc.now) < 2 ^ 64 }
    ensures { option_map subformula result ≡ in_with at proc.now number }
{
    match &proc.refines {
        Some(refines) => in_list(&refines.with, at + count_to_refines(proc) + 3, number),
        None => None,
    }
}

/// An argument of a thread that begins at this token.
#[tactic(auto, using(crate::proofs::Counts::counts))]
pub(crate) fn in_thread(thread: &Thread, at: usize, number: usize) -> Option<Part<'_>>
    requires { at + length (spell_thread thread.now) < 2 ^ 64 }
    ensures { option_map subformula result ≡ in_thread at thread.now number }
{
    in_list(&thread.args, at + 2, number)
}

#[tactic(auto, using(crate::proofs::Counts::counts))]
fn condition(stmt: &Stmt, at: usize) -> Option<Part<'_>>
    requires { at + length (spell_stmt stmt.now) < 2 ^ 64 }
    ensures { option_map subformula result ≡ condition_in at (out-Stmt stmt.now) }
{
    match stmt {
        Stmt::Assert(fact) => Some(Part {
            token: at + 1,
            expr: fact,
        }),
        Stmt::If(test, _, _) => Some(Part {
            token: at + 1,
            expr: test,
        }),
        Stmt::While(test, _) => Some(Part {
            token: at + 1,
            expr: test,
        }),
        Stmt::YieldLoop(test, _, _) => Some(Part {
            token: at + 2,
            expr: test,
        }),
        Stmt::RankLoop(test, _, _, _) => Some(Part {
            token: at + 2,
            expr: test,
        }),
        _ => None,
    }
}

#[tactic(auto, using(crate::proofs::Counts::counts))]
fn rank(stmt: &Stmt, at: usize) -> Option<Part<'_>>
    requires { at + length (spell_stmt stmt.now) < 2 ^ 64 }
    ensures { option_map subformula result ≡ rank_in at (out-Stmt stmt.now) }
{
    match stmt {
        Stmt::RankLoop(test, rank, _, _) => Some(Part {
            token: at + expr_count(test) + 3,
            expr: rank,
        }),
        _ => None,
    }
}

#[tactic(auto, using(crate::proofs::Counts::counts))]
fn invariant(stmt: &Stmt, at: usize) -> Option<Part<'_>>
    requires { at + length (spell_stmt stmt.now) < 2 ^ 64 }
    ensures { option_map subformula result ≡ invariant_in at (out-Stmt stmt.now) }
{
    match stmt {
        Stmt::Yield(inv) => Some(Part {
            token: at + 1,
            expr: inv,
        }),
        Stmt::YieldLoop(test, inv, _) => Some(Part {
            token: at + expr_count(test) + 3,
            expr: inv,
        }),
        Stmt::RankLoop(test, rank, inv, _) => Some(Part {
            token: at + expr_count(test) + expr_count(rank) + 4,
            expr: inv,
        }),
        _ => None,
    }
}

#[tactic(auto, using(crate::proofs::Counts::counts))]
fn argument(stmt: &Stmt, at: usize, number: usize) -> Option<Part<'_>>
    requires { at + length (spell_stmt stmt.now) < 2 ^ 64 }
    ensures { option_map subformula result ≡ argument_in at (out-Stmt stmt.now) number }
{
    match stmt {
        Stmt::Call(_, args, _) => in_list(args, at + 2, number),
        Stmt::Spawn(_, args) => in_list(args, at + 2, number),
        _ => None,
    }
}

#[tactic(auto, using(crate::proofs::Counts::counts))]
fn value(stmt: &Stmt, at: usize) -> Option<Part<'_>>
    requires { at + length (spell_stmt stmt.now) < 2 ^ 64 }
    ensures { option_map subformula result ≡ value_in at (out-Stmt stmt.now) }
{
    match stmt {
        Stmt::Assign(_, value) => Some(Part {
            token: at + 2,
            expr: value,
        }),
        Stmt::Intro(_, value) => Some(Part {
            token: at + 3,
            expr: value,
        }),
        _ => None,
    }
}

/// An expression of a statement that begins at this token.
pub(crate) fn in_statement(stmt: &Stmt, at: usize, part: InStatement) -> Option<Part<'_>>
    requires { at + length (spell_stmt stmt.now) < 2 ^ 64 }
    ensures { option_map subformula result ≡ in_statement at stmt.now part }
{
    match part {
        InStatement::Condition => condition(stmt, at),
        InStatement::Rank => rank(stmt, at),
        InStatement::Invariant => invariant(stmt, at),
        InStatement::Argument(number) => argument(stmt, at, number),
        InStatement::Value => value(stmt, at),
    }
}
