// Layers, calls and signatures: E30, E32, E34 and E35.
ghost use Rattle.std.specs.Prelude.{◌≡◌, option_copied};
ghost use Rattle.std.specs.Option.{option_or};
ghost use Rattle.civl_tree.specs.rules.Signature.{same_mode};
ghost use Rattle.civl_yields.specs.Movers.{refined_action};
ghost use Rattle.civl_subjects.specs.Layers.{differing, first_differing, proc_signature, range_subject, refines_step, step_subject, stmt_callee, stmt_introduced};
ghost use Rattle.civl_subjects.specs.declared.subject.Counted.TheVariants.{Outputs as OutputCount, Parameters as ParameterCount};
ghost use Rattle.civl_subjects.specs.inner.Meant.{all_meant};

use crate::counts::count_subject;
use crate::subject::{Counted, Subject};
use crate::uses::same_sort;
use civl_tree::{Action, Mode, Name, Param, Proc, Program, Refines, Stmt};
use civl_types::names::action_named;

/// The range of a global or an action.
pub(crate) fn range_subject<'a>(program: &Program, first: u32, last: u32) -> Option<Subject<'a>>
    ensures { all_meant result ≡ range_subject program.now (record { first = first; last = last }) }
{
    Some(Subject::Range(first, last, program.layers))
}

/// A step, or the layer of a procedure.
pub(crate) fn step_subject<'a>(program: &Program, step: u32) -> Option<Subject<'a>>
    ensures { all_meant result ≡ step_subject program.now step }
{
    Some(Subject::Step(step, program.layers))
}

/// The layer of a procedure that refines an action.
pub(crate) fn refines_step<'a>(program: &Program, refines: &Option<Refines>) -> Option<Subject<'a>>
    ensures { all_meant result ≡ refines_step program.now refines.now }
{
    match refines {
        Some(refines) => step_subject(program, refines.layer),
        None => None,
    }
}

/// The callee of a call or a spawn.
pub(crate) fn stmt_callee(stmt: &Stmt) -> Option<&Name>
    ensures { option_copied result ≡ stmt_callee stmt.now }
{
    match stmt {
        Stmt::Call(callee, _, _) => Some(callee),
        Stmt::Spawn(callee, _) => Some(callee),
        Stmt::Assign(_, _) | Stmt::Assert(_) | Stmt::If(_, _, _) | Stmt::While(_, _) => None,
        Stmt::YieldLoop(_, _, _) | Stmt::RankLoop(_, _, _, _) => None,
        Stmt::Yield(_) | Stmt::Commit | Stmt::Intro(_, _) => None,
    }
}

/// The target of an `intro`.
pub(crate) fn stmt_introduced(stmt: &Stmt) -> Option<&Name>
    ensures { option_copied result ≡ stmt_introduced stmt.now }
{
    match stmt {
        Stmt::Intro(target, _) => Some(target),
        Stmt::Assign(_, _) | Stmt::Assert(_) | Stmt::If(_, _, _) | Stmt::While(_, _) => None,
        Stmt::YieldLoop(_, _, _) | Stmt::RankLoop(_, _, _, _) => None,
        Stmt::Yield(_) | Stmt::Commit | Stmt::Call(_, _, _) | Stmt::Spawn(_, _) => None,
    }
}

/// The action that is refined.
pub(crate) fn refined_action<'a>(
    program: &'a Program,
    refines: &Option<Refines>,
) -> Option<&'a Action>
    ensures { option_copied result ≡ refined_action program.now refines.now }
{
    match refines {
        Some(refines) => action_named(program, &refines.action),
        None => None,
    }
}

fn same_mode(first: Mode, second: Mode) -> bool
    ensures { result ≡ same_mode first second }
{
    match first {
        Mode::Val => matches!(second, Mode::Val),
        Mode::Lend => matches!(second, Mode::Lend),
        Mode::Take => matches!(second, Mode::Take),
        Mode::Give => matches!(second, Mode::Give),
    }
}

/// The first of these parameters that differs from that of the action in its place.
fn first_differing<'a>(params: &'a [Param], others: &'a [Param]) -> Option<Subject<'a>>
    ensures { all_meant result ≡ first_differing params.now others.now }
{
    for (at, param) in params.iter().enumerate() {
        if at >= others.len() {
            return None;
        }
        let other = &others[at];
        if !(same_mode(param.mode, other.mode) && same_sort(param.sort, other.sort)) {
            return Some(Subject::Differs(param, other));
        }
    }
    None
}

/// How many there are, where the numbers differ; else the first that differs.
fn differing<'a>(counted: Counted, params: &'a [Param], others: &'a [Param]) -> Option<Subject<'a>>
    ensures { all_meant result ≡ differing counted params.now others.now }
{
    if let Some(subject) = count_subject(counted, params.len(), others.len()) {
        return Some(subject);
    }
    first_differing(params, others)
}

/// The parameters, then the outputs.
fn signature_subject<'a>(proc: &'a Proc, action: &'a Action) -> Option<Subject<'a>>
    ensures { all_meant result
        ≡ option_or (differing ParameterCount proc.now.params action.now.params) (differing OutputCount proc.now.outs action.now.outs) }
{
    let params = differing(
        Counted::Parameters,
        proc.params.as_slice(),
        action.params.as_slice(),
    );
    if let Some(subject) = params {
        return Some(subject);
    }
    differing(
        Counted::Outputs,
        proc.outs.as_slice(),
        action.outs.as_slice(),
    )
}

/// What differs of a procedure and of the action that it refines.
pub(crate) fn proc_signature<'a>(program: &'a Program, proc: &'a Proc) -> Option<Subject<'a>>
    ensures { all_meant result ≡ proc_signature program.now proc.now }
{
    match refined_action(program, &proc.refines) {
        Some(action) => signature_subject(proc, action),
        None => None,
    }
}
