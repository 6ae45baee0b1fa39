// Counts and numbers: E12 and E23.
ghost use Rattle.std.specs.Prelude.{◌≡◌, ◌+◌, length, map, nat_lt, not, option_copied};
ghost use Rattle.std.specs.List.{find};
ghost use Rattle.std.specs.Option.{option_map};
ghost use Rattle.civl_tree.specs.rules.Count.{is_within, name_limit, passes_limit};
ghost use Rattle.civl_tree.specs.rules.Names.{has_name, param_names, targets_of};
ghost use Rattle.civl_types.specs.Views.{signature_of};
ghost use Rattle.civl_subjects.specs.Counts.{action_arity, action_limits, call_count, count_subject, header_subject, limit_subject, proc_limits, refines_count, run_count, stmt_count, thread_count, with_count};
ghost use Rattle.civl_subjects.specs.Subjects.{OfName};
ghost use Rattle.civl_subjects.specs.inner.Meant.{all_meant};

use crate::subject::{Counted, HeaderNumber, Limited, Subject};
use civl_tree::{Action, Expr, List, Name, Param, Proc, Program, Refines, Stmt, Thread};
use civl_types::is_updated;
use civl_types::names::{Signature, action_named, callee_signature, proc_named};

/// How many names a declaration may have.
const NAMES: usize = 32;

fn is_within(least: u32, most: u32, number: u32) -> bool
    ensures { result ≡ is_within least most number }
{
    least <= number && number <= most
}

/// The first number of the header that is out of its range.
pub(crate) fn header_subject(program: &Program) -> Option<Subject<'_>>
    ensures { all_meant result ≡ header_subject program.now }
{
    if !is_within(1, 2, program.version) {
        return Some(Subject::Header(HeaderNumber::Version, program.version));
    }
    if !is_within(1, 8, program.layers) {
        return Some(Subject::Header(HeaderNumber::Layers, program.layers));
    }
    if !is_within(1, 5, program.permissions) {
        return Some(Subject::Header(HeaderNumber::Permissions, program.permissions));
    }
    None
}

/// The declaration at this place, where it is the first past the limit of its kind.
pub(crate) fn limit_subject<'a>(limited: Limited, limit: usize, place: usize) -> Option<Subject<'a>>
    ensures { all_meant result ≡ limit_subject limited limit place }
{
    if place == limit {
        return Some(Subject::TooMany(limited));
    }
    None
}

/// Whether three lists have more names together than one declaration may have.
fn too_many(first: usize, second: usize, third: usize) -> bool
    ensures { result ≡ nat_lt name_limit (first + second + third) }
{
    first > NAMES || second > NAMES || third > NAMES || first + second + third > NAMES
}

/// One action too many, or too many names in it.
pub(crate) fn action_limits<'a>(place: usize, action: &Action) -> Option<Subject<'a>>
    ensures { all_meant result ≡ action_limits place action.now }
{
    if place == 128 {
        return Some(Subject::TooMany(Limited::Actions));
    }
    if too_many(action.params.len(), action.outs.len(), action.choices.len()) {
        return Some(Subject::TooMany(Limited::Names));
    }
    None
}

/// One procedure too many, too many names in it, or too many cut points.
pub(crate) fn proc_limits<'a>(place: usize, proc: &Proc) -> Option<Subject<'a>>
    ensures { all_meant result ≡ proc_limits place proc.now }
{
    if place == 64 {
        return Some(Subject::TooMany(Limited::Procs));
    }
    if too_many(proc.params.len(), proc.outs.len(), proc.locals.len()) {
        return Some(Subject::TooMany(Limited::Names));
    }
    Some(Subject::TooMany(Limited::Cuts))
}

/// Two numbers, where they differ.
pub(crate) fn count_subject<'a>(
    counted: Counted,
    found: usize,
    needed: usize,
) -> Option<Subject<'a>>
    ensures { all_meant result ≡ count_subject counted found needed }
{
    if found == needed {
        return None;
    }
    Some(Subject::Count(counted, found, needed))
}

/// The first of these outputs that has no update.
fn without_update<'a>(action: &Action, outs: &'a [Param]) -> Option<Subject<'a>>
    ensures { all_meant result ≡ option_map OfName (find (λ out. not (has_name (targets_of action.now) out)) (param_names outs.now)) }
{
    for out in outs {
        if !is_updated(action.updates.as_slice(), &out.name) {
            return Some(Subject::Name(&out.name));
        }
    }
    None
}

/// The first output of an action that has no update.
pub(crate) fn action_arity(action: &Action) -> Option<Subject<'_>>
    ensures { all_meant result ≡ action_arity action.now }
{
    without_update(action, action.outs.as_slice())
}

fn with_count<'a>(values: &List<Expr>, action: Option<&Action>) -> Option<Subject<'a>>
    ensures { all_meant result ≡ with_count values.now (option_copied action.entry) }
{
    match action {
        Some(action) => { count_subject(Counted::Arguments, values.len(), action.choices.len()) }
        None => None,
    }
}

/// The values after `with`.
pub(crate) fn refines_count<'a>(program: &Program, refines: &Option<Refines>) -> Option<Subject<'a>>
    ensures { all_meant result ≡ refines_count program.now refines.now }
{
    match refines {
        Some(refines) => with_count(&refines.with, action_named(program, &refines.action)),
        None => None,
    }
}

fn call_count<'a>(
    args: &List<Expr>,
    results: &List<Name>,
    signature: Option<Signature<'_>>,
) -> Option<Subject<'a>>
    ensures { all_meant result ≡ call_count args.now results.now (signature_of signature.entry) }
{
    match signature {
        Some(signature) => {
            let arguments = count_subject(Counted::Arguments, args.len(), signature.params.len());
            if let Some(subject) = arguments {
                return Some(subject);
            }
            count_subject(Counted::Results, results.len(), signature.outs.len())
        }
        None => None,
    }
}

fn run_count<'a>(args: &List<Expr>, proc: Option<&Proc>) -> Option<Subject<'a>>
    ensures { all_meant result ≡ run_count args.now (option_copied proc.entry) }
{
    match proc {
        Some(proc) => {
            let arguments = count_subject(Counted::Arguments, args.len(), proc.params.len());
            if let Some(subject) = arguments {
                return Some(subject);
            }
            count_subject(Counted::Outputs, proc.outs.len(), 0)
        }
        None => None,
    }
}

/// The arguments and results of a statement.
pub(crate) fn stmt_count<'a>(program: &Program, stmt: &Stmt) -> Option<Subject<'a>>
    ensures { all_meant result ≡ stmt_count program.now stmt.now }
{
    match stmt {
        Stmt::Call(callee, args, results) => call_count(
            args,
            results,
            callee_signature(program, callee),
        ),
        Stmt::Spawn(callee, args) => run_count(args, proc_named(program, callee)),
        Stmt::Assign(_, _) | Stmt::Assert(_) | Stmt::If(_, _, _) | Stmt::While(_, _) => None,
        Stmt::YieldLoop(_, _, _) | Stmt::RankLoop(_, _, _, _) => None,
        Stmt::Yield(_) | Stmt::Commit | Stmt::Intro(_, _) => None,
    }
}

/// The arguments of a declared thread, and the outputs of its procedure.
pub(crate) fn thread_count<'a>(program: &Program, thread: &Thread) -> Option<Subject<'a>>
    ensures { all_meant result ≡ thread_count program.now thread.now }
{
    run_count(&thread.args, proc_named(program, &thread.callee))
}
