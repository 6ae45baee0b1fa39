// The expressions of a program, by name, and where they stand.
ghost use Rattle.std.specs.Prelude.{◌≡◌, ◌<◌, ◌^◌, IfSome, length};
ghost use Rattle.std.specs.Option.{option_map};
ghost use Rattle.civl_tree.specs.SpellingProgram.{spell_program};
ghost use Rattle.civl_reasons.specs.inner.Told.{subformula};
ghost use Rattle.civl_places.specs.Formulas.{formula_at, formula_start};

use crate::kind::{action_token, init_token, invariant_token, proc_token, thread_token};
use crate::search::statement;
use crate::start::statement_token;
use crate::within::{in_action, in_statement, in_thread, in_with};
use civl_reasons::Part;
use civl_tree::Program;

/// Which expression of an action.
#[derive(Clone, Copy, Debug, PartialEq, Eq)]
pub enum InAction {
    Gate,
    Guard,
    /// The offer of the choice at this place.
    Offer(usize),
    /// The right side of the update at this place.
    Update(usize),
}

/// Which expression of a statement.
#[derive(Clone, Copy, Debug, PartialEq, Eq)]
pub enum InStatement {
    /// The condition of an `assert`, an `if` or a loop.
    Condition,
    /// The rank of a loop.
    Rank,
    /// The invariant of a loop or a `yield`.
    Invariant,
    /// The argument at this place of a call or a `spawn`.
    Argument(usize),
    /// The value of an assignment or an `intro`.
    Value,
}

/// Which expression of a program. Invariants, actions, procedures and threads are named by their place among those of
/// their kind, choices, updates, arguments and the like by their place in their list, all from 0, and statements by
/// their number in their procedure.
#[derive(Clone, Copy, Debug, PartialEq, Eq)]
pub enum Formula {
    /// That of `init`.
    Init,
    /// That of an invariant.
    Invariant(usize),
    /// One of an action.
    Action(usize, InAction),
    /// A value for a choice, of a procedure that refines an action: the procedure, and the place in its `with`.
    With(usize, usize),
    /// An argument of a thread: the thread, and the place among its arguments.
    Thread(usize, usize),
    /// One of a statement: the procedure, and the statement's number.
    Statement(usize, usize, InStatement),
}

/// The expression of an invariant.
fn invariant_formula(program: &Program, place: usize) -> Option<Part<'_>>
    requires { length (spell_program program.now) < 2 ^ 64 }
    ensures { option_map subformula result ≡ formula_at program.now (Formula.Invariant place) }
{
    match invariant_token(program, place) {
        Some(at) => {
            let invariant = program.invariants.get(place);
            Some(Part {
                token: at + 2,
                expr: &invariant.expr,
            })
        }
        None => None,
    }
}

/// An expression of an action.
fn action_formula(program: &Program, place: usize, part: InAction) -> Option<Part<'_>>
    requires { length (spell_program program.now) < 2 ^ 64 }
    ensures { option_map subformula result ≡ formula_at program.now (Formula.Action place part) }
{
    match action_token(program, place) {
        Some(at) => in_action(program.actions.get(place), at, part),
        None => None,
    }
}

/// A value for a choice, of a procedure.
fn with_formula(program: &Program, place: usize, number: usize) -> Option<Part<'_>>
    requires { length (spell_program program.now) < 2 ^ 64 }
    ensures { option_map subformula result ≡ formula_at program.now (Formula.With place number) }
{
    match proc_token(program, place) {
        Some(at) => in_with(program.procs.get(place), at, number),
        None => None,
    }
}

/// An argument of a thread.
fn thread_formula(program: &Program, place: usize, number: usize) -> Option<Part<'_>>
    requires { length (spell_program program.now) < 2 ^ 64 }
    ensures { option_map subformula result ≡ formula_at program.now (Formula.Thread place number) }
{
    match thread_token(program, place) {
        Some(at) => in_thread(program.threads.get(place), at, number),
        None => None,
    }
}

/// An expression of a statement.
fn statement_formula(
    program: &Program,
    place: usize,
    number: usize,
    part: InStatement,
) -> Option<Part<'_>>
    requires { length (spell_program program.now) < 2 ^ 64 }
    ensures { option_map subformula result ≡ formula_at program.now (Formula.Statement place number part) }
{
    let at = statement_token(program, place, number)?;
    let stmt = statement(&program.procs.get(place).body, number)?;
    in_statement(stmt, at, part)
}

/// An expression of a program, with the token, counted from 0, at which it begins in the spelling of the program; `None`
/// exactly where there is no such thing.
pub fn formula_at<'p>(program: &'p Program, formula: &Formula) -> Option<Part<'p>>
    requires { length (spell_program program.now) < 2 ^ 64 }
    ensures { option_map subformula result ≡ formula_at program.now formula.now }
{
    match formula {
        Formula::Init => Some(Part {
            token: init_token(program) + 1,
            expr: &program.init,
        }),
        Formula::Invariant(place) => invariant_formula(program, *place),
        Formula::Action(place, part) => action_formula(program, *place, *part),
        Formula::With(place, number) => with_formula(program, *place, *number),
        Formula::Thread(place, number) => thread_formula(program, *place, *number),
        Formula::Statement(place, number, part) => {
            statement_formula(program, *place, *number, *part)
        }
    }
}

/// The token, counted from 0, at which an expression begins, in the spelling of the program; `None` exactly where there
/// is no such thing.
pub fn formula_token(program: &Program, formula: &Formula) -> Option<usize>
    requires { length (spell_program program.now) < 2 ^ 64 }
    ensures start { result ≡ formula_start program.now formula.now }
    ensures within { IfSome result (λ token. token < length (spell_program program.now)) }
{
    match formula_at(program, formula) {
        Some(part) => Some(part.token),
        None => None,
    }
}
