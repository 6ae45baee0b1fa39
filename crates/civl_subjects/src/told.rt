// What a refusal is about.
ghost use Rattle.std.specs.Prelude.{◌≡◌, ◌++◌, option_copied, IfOk, OnOk};
ghost use Rattle.civl_tree.specs.Numbering.{statement_at};
ghost use Rattle.civl_subjects.specs.Told.{expr_told, in_action, in_global, in_head, in_header, in_init, in_invariant, in_part, in_proc, in_statement, in_thread, name_told, subject, subject_of, told_text};
ghost use Rattle.civl_subjects.specs.inner.Meant.{all_meant, part_meant};

use crate::code::{Code, code_of};
use crate::counts::{
    action_arity, action_limits, header_subject, limit_subject, proc_limits, refines_count,
    stmt_count, thread_count,
};
use crate::declared::global_subject;
use crate::expr_rule::ExprRule;
use crate::hidden::{action_hidden, invariant_hidden, stmt_hidden, with_hidden};
use crate::kinds::{stmt_misplaced, stmt_pauses};
use crate::layers::{
    proc_signature, range_subject, refines_step, step_subject, stmt_callee, stmt_introduced,
};
use crate::linear::{stmt_assigned, stmt_held_twice, stmt_not_held};
use crate::missing::{refines_absent, stmt_absent, thread_absent};
use crate::part::{Part, part_at};
use crate::statements::{action_subject, proc_subject, stmt_subject, thread_subject};
use crate::strays::{action_stray, any_stray, plain_stray, refines_stray, stmt_stray};
use crate::subject::{Limited, Subject};
use crate::texts::put_subject;
use crate::twice::{action_again, global_again, proc_again, stmt_again};
use crate::uses::{init_subject, invariant_subject};
use crate::writing::put;
use civl_names::walks::statements;
use civl_tree::{
    Action, Expr, Global, Invariant, Memory, Name, Proc, Program, Refusal, Stmt, Thread,
};
use std::alloc::Global as Alloc;

/// A name that is told.
fn name_told<'a>(name: Option<&'a Name>) -> Option<Subject<'a>>
    ensures { all_meant result ≡ name_told (option_copied name.entry) }
{
    match name {
        Some(name) => Some(Subject::Name(name)),
        None => None,
    }
}

/// An expression that is told.
fn expr_told<'a>(expr: Option<&'a Expr>) -> Option<Subject<'a>>
    ensures { all_meant result ≡ expr_told (option_copied expr.entry) }
{
    match expr {
        Some(expr) => Some(Subject::Expr(expr)),
        None => None,
    }
}

/// What is told of a global.
fn in_global<'a>(
    code: Code,
    program: &Program,
    place: usize,
    global: &'a Global,
) -> Option<Subject<'a>>
    ensures { all_meant result ≡ in_global code program.now place global.now }
{
    match code {
        Code::E10 => name_told(global_again(program, place, global)),
        Code::E12 => limit_subject(Limited::Globals, 64, place),
        Code::E20 => global_subject(ExprRule::Width, program, global),
        Code::E22 => global_subject(ExprRule::Index, program, global),
        Code::E24 => Some(Subject::Sorted(&global.name, global.sort)),
        Code::E30 => range_subject(program, global.first, global.last),
        Code::E35 => Some(Subject::Name(&global.name)),
        Code::E11 | Code::E21 | Code::E23 | Code::E31 | Code::E32 | Code::E33 => None,
        Code::E34 | Code::E40 | Code::E41 | Code::E43 | Code::E50 | Code::E51 => None,
        Code::E52 | Code::E53 => None,
    }
}

/// What is told of `init`.
fn in_init(code: Code, program: &Program) -> Option<Subject<'_>>
    ensures { all_meant result ≡ in_init code program.now }
{
    match code {
        Code::E11 => init_subject(ExprRule::Unknown, program),
        Code::E20 => init_subject(ExprRule::Width, program),
        Code::E21 => init_subject(ExprRule::Sorts, program),
        Code::E22 => init_subject(ExprRule::Index, program),
        Code::E53 => expr_told(plain_stray(&program.init)),
        Code::E10 | Code::E12 | Code::E23 | Code::E24 | Code::E30 | Code::E31 => None,
        Code::E32 | Code::E33 | Code::E34 | Code::E35 | Code::E40 | Code::E41 => None,
        Code::E43 | Code::E50 | Code::E51 | Code::E52 => None,
    }
}

/// What is told of an invariant.
fn in_invariant<'a>(
    code: Code,
    program: &'a Program,
    place: usize,
    invariant: &'a Invariant,
) -> Option<Subject<'a>>
    ensures { all_meant result ≡ in_invariant code program.now place invariant.now }
{
    match code {
        Code::E11 => invariant_subject(ExprRule::Unknown, program, invariant),
        Code::E12 => limit_subject(Limited::Invariants, 64, place),
        Code::E20 => invariant_subject(ExprRule::Width, program, invariant),
        Code::E21 => invariant_subject(ExprRule::Sorts, program, invariant),
        Code::E22 => invariant_subject(ExprRule::Index, program, invariant),
        Code::E30 => step_subject(program, invariant.step),
        Code::E31 => name_told(invariant_hidden(program, invariant)),
        Code::E53 => expr_told(plain_stray(&invariant.expr)),
        Code::E10 | Code::E23 | Code::E24 | Code::E32 | Code::E33 | Code::E34 => None,
        Code::E35 | Code::E40 | Code::E41 | Code::E43 | Code::E50 => None,
        Code::E51 | Code::E52 => None,
    }
}

/// What is told of an action.
fn in_action<'a>(
    alloc: Alloc,
    code: Code,
    program: &'a Program,
    place: usize,
    action: &'a Action,
) -> Result<Option<Subject<'a>>, Memory>
    ensures { IfOk result (λ told. all_meant told ≡ in_action code program.now place action.now) }
{
    match code {
        Code::E10 => {
            let name = action_again(alloc, program, place, action)?;
            Ok(name_told(name))
        }
        Code::E11 => Ok(action_subject(ExprRule::Unknown, program, action)),
        Code::E12 => Ok(action_limits(place, action)),
        Code::E20 => Ok(action_subject(ExprRule::Width, program, action)),
        Code::E21 => Ok(action_subject(ExprRule::Sorts, program, action)),
        Code::E22 => Ok(action_subject(ExprRule::Index, program, action)),
        Code::E23 => Ok(action_arity(action)),
        Code::E30 => Ok(range_subject(program, action.first, action.last)),
        Code::E31 => Ok(name_told(action_hidden(program, action))),
        Code::E53 => Ok(expr_told(action_stray(action))),
        Code::E24 | Code::E32 | Code::E33 | Code::E34 | Code::E35 => Ok(None),
        Code::E40 | Code::E41 | Code::E43 | Code::E50 | Code::E51 | Code::E52 => Ok(None),
    }
}

/// What is told of a procedure up to its statements.
fn in_head<'a>(
    alloc: Alloc,
    code: Code,
    program: &'a Program,
    place: usize,
    proc: &'a Proc,
) -> Result<Option<Subject<'a>>, Memory>
    ensures { IfOk result (λ told. all_meant told ≡ in_head code program.now place proc.now) }
{
    match code {
        Code::E10 => {
            let name = proc_again(alloc, program, place, proc)?;
            Ok(name_told(name))
        }
        Code::E11 => Ok(proc_subject(ExprRule::Unknown, program, proc)),
        Code::E12 => Ok(proc_limits(place, proc)),
        Code::E20 => Ok(proc_subject(ExprRule::Width, program, proc)),
        Code::E21 => Ok(proc_subject(ExprRule::Sorts, program, proc)),
        Code::E22 => Ok(proc_subject(ExprRule::Index, program, proc)),
        Code::E23 => Ok(refines_count(program, &proc.refines)),
        Code::E30 => Ok(refines_step(program, &proc.refines)),
        Code::E31 => Ok(name_told(with_hidden(program, &proc.refines))),
        Code::E33 => Ok(name_told(refines_absent(program, &proc.refines))),
        Code::E34 => Ok(proc_signature(program, proc)),
        Code::E53 => Ok(expr_told(refines_stray(&proc.refines))),
        Code::E24 | Code::E32 | Code::E35 | Code::E40 | Code::E41 => Ok(None),
        Code::E43 | Code::E50 | Code::E51 | Code::E52 => Ok(None),
    }
}

/// What is told of the statement of a procedure that has this number.
fn in_statement<'a>(
    alloc: Alloc,
    code: Code,
    program: &'a Program,
    proc: &Proc,
    number: usize,
    stmt: &'a Stmt,
) -> Result<Option<Subject<'a>>, Memory>
    ensures { IfOk result (λ told. all_meant told ≡ in_statement code program.now proc.now number stmt.now) }
{
    match code {
        Code::E10 => {
            let name = stmt_again(alloc, stmt)?;
            Ok(name_told(name))
        }
        Code::E40 => {
            let arg = stmt_not_held(alloc, program, proc, number, stmt)?;
            Ok(expr_told(arg))
        }
        Code::E41 => {
            let name = stmt_held_twice(alloc, program, proc, number, stmt)?;
            Ok(name_told(name))
        }
        Code::E11 => Ok(stmt_subject(ExprRule::Unknown, program, proc, stmt)),
        Code::E20 => Ok(stmt_subject(ExprRule::Width, program, proc, stmt)),
        Code::E21 => Ok(stmt_subject(ExprRule::Sorts, program, proc, stmt)),
        Code::E22 => Ok(stmt_subject(ExprRule::Index, program, proc, stmt)),
        Code::E23 => Ok(stmt_count(program, stmt)),
        Code::E31 => Ok(name_told(stmt_hidden(program, &proc.refines, stmt))),
        Code::E32 => Ok(name_told(stmt_callee(stmt))),
        Code::E33 => Ok(name_told(stmt_absent(program, proc, stmt))),
        Code::E35 => Ok(name_told(stmt_introduced(stmt))),
        Code::E43 => Ok(name_told(stmt_assigned(program, proc, stmt))),
        Code::E50 => Ok(name_told(stmt_callee(stmt))),
        Code::E51 => Ok(stmt_pauses(stmt)),
        Code::E52 => Ok(stmt_misplaced(proc, stmt)),
        Code::E53 => Ok(expr_told(stmt_stray(proc, stmt))),
        Code::E12 | Code::E24 | Code::E30 | Code::E34 => Ok(None),
    }
}

/// The statement of a procedure that has this number.
fn statement(alloc: Alloc, proc: &Proc, number: usize) -> Result<Option<&Stmt>, Memory>
    ensures { IfOk result (λ stmt. option_copied stmt ≡ statement_at proc.now.body number) }
{
    let flat = statements(alloc, &proc.body)?;
    match flat.get(number) {
        Some(stmt) => Ok(Some(*stmt)),
        None => Ok(None),
    }
}

/// What is told of a procedure as a whole, and then of the statement with this number.
fn in_proc<'a>(
    alloc: Alloc,
    code: Code,
    program: &'a Program,
    place: usize,
    proc: &'a Proc,
    number: usize,
) -> Result<Option<Subject<'a>>, Memory>
    ensures { IfOk result (λ told. all_meant told ≡ in_proc code program.now place proc.now number) }
{
    if let Some(subject) = in_head(alloc, code, program, place, proc)? {
        return Ok(Some(subject));
    }
    match statement(alloc, proc, number)? {
        Some(stmt) => in_statement(alloc, code, program, proc, number, stmt),
        None => Ok(None),
    }
}

/// What is told of a declared thread.
fn in_thread<'a>(
    code: Code,
    program: &'a Program,
    place: usize,
    thread: &'a Thread,
) -> Option<Subject<'a>>
    ensures { all_meant result ≡ in_thread code program.now place thread.now }
{
    match code {
        Code::E11 => thread_subject(ExprRule::Unknown, program, thread),
        Code::E12 => limit_subject(Limited::Threads, 64, place),
        Code::E20 => thread_subject(ExprRule::Width, program, thread),
        Code::E21 => thread_subject(ExprRule::Sorts, program, thread),
        Code::E22 => thread_subject(ExprRule::Index, program, thread),
        Code::E23 => thread_count(program, thread),
        Code::E33 => name_told(thread_absent(program, thread)),
        Code::E53 => expr_told(any_stray(thread.args.as_slice())),
        Code::E10 | Code::E24 | Code::E30 | Code::E31 | Code::E32 | Code::E34 => None,
        Code::E35 | Code::E40 | Code::E41 | Code::E43 | Code::E50 => None,
        Code::E51 | Code::E52 => None,
    }
}

/// What is told of a part, or of the statement of a procedure that has this number.
fn in_part<'a>(
    alloc: Alloc,
    code: Code,
    program: &'a Program,
    number: usize,
    part: Part<'a>,
) -> Result<Option<Subject<'a>>, Memory>
    ensures { IfOk result (λ told. all_meant told ≡ in_part code program.now number (part_meant part.entry)) }
{
    match part {
        Part::Global(place, global) => Ok(in_global(code, program, place, global)),
        Part::Init => Ok(in_init(code, program)),
        Part::Invariant(place, invariant) => Ok(in_invariant(code, program, place, invariant)),
        Part::Action(place, action) => in_action(alloc, code, program, place, action),
        Part::Proc(place, proc) => in_proc(alloc, code, program, place, proc, number),
        Part::Thread(place, thread) => Ok(in_thread(code, program, place, thread)),
    }
}

/// What is told of the numbers of the header.
fn in_header(code: Code, program: &Program, item: usize) -> Option<Subject<'_>>
    ensures { all_meant result ≡ in_header code program.now item }
{
    match code {
        Code::E12 => {
            if item == 0 {
                return header_subject(program);
            }
            None
        }
        Code::E10 | Code::E11 | Code::E20 | Code::E21 | Code::E22 | Code::E23 => None,
        Code::E24 | Code::E30 | Code::E31 | Code::E32 | Code::E33 | Code::E34 => None,
        Code::E35 | Code::E40 | Code::E41 | Code::E43 | Code::E50 | Code::E51 => None,
        Code::E52 | Code::E53 => None,
    }
}

/// What is told of a rule at the place of a refusal.
fn subject_of<'a>(
    alloc: Alloc,
    program: &'a Program,
    refusal: Refusal,
    code: Code,
) -> Result<Option<Subject<'a>>, Memory>
    ensures { IfOk result (λ told. all_meant told ≡ subject_of program.now refusal code) }
{
    if let Some(subject) = in_header(code, program, refusal.item as usize) {
        return Ok(Some(subject));
    }
    match part_at(program, refusal.item as usize) {
        Some(part) => in_part(alloc, code, program, refusal.statement as usize, part),
        None => Ok(None),
    }
}

/// What a refusal is about.
fn subject<'a>(
    alloc: Alloc,
    program: &'a Program,
    refusal: Refusal,
) -> Result<Option<Subject<'a>>, Memory>
    ensures { IfOk result (λ told. all_meant told ≡ subject program.now refusal) }
{
    match code_of(refusal.code) {
        Some(code) => subject_of(alloc, program, refusal, code),
        None => Ok(None),
    }
}

/// Puts what a refusal is about behind what is there, with `: ` before it; nothing, where nothing can be told.
///
/// # Errors
///
/// For want of memory.
pub fn push_subject(
    alloc: Alloc,
    out: &mut Vec<u8>,
    program: &Program,
    refusal: Refusal,
) -> Result<(), Memory>
    ensures { OnOk result (out.new.items ≡ out.old.items ++ told_text (subject program.now refusal)) }
{
    match subject(alloc, program, refusal)? {
        Some(subject) => {
            put(out, b": ")?;
            put_subject(out, &subject)
        }
        None => Ok(()),
    }
}
