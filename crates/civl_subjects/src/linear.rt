// Linear names: E40, E41 and E43.
ghost use Rattle.std.specs.Prelude.{◌≡◌, ◌++◌, [], map, option_copied, OnOk, IfOk, if◌then◌else◌};
ghost use Rattle.std.specs.Option.{option_or};
ghost use Rattle.civl_tree.specs.declared.stmt.Stmt.{out-Stmt};
ghost use Rattle.std.specs.List.{find};
ghost use Rattle.civl_tree.specs.rules.Names.{callee_signature, names_in_proc};
ghost use Rattle.civl_linear.specs.Held.{holds, without_names};
ghost use Rattle.civl_linear.specs.Modes.{at_modes, given_names, is_passed, passed_names, plain_name};
ghost use Rattle.civl_linear.specs.Places.{not_held};
ghost use Rattle.civl_types.specs.Views.{signature_of};
ghost use Rattle.civl_subjects.specs.Linear.{call_misgiven, first_misgiven, first_not_held, form_held_twice, form_not_held, given_again, passed_again, stmt_assigned, stmt_held_twice, stmt_not_held};
ghost use Rattle.civl_subjects.specs.inner.Meant.{wants};

use crate::linearity::{Want, holds_without, misgiven, not_held, plain_name, wants};
use crate::naming::first_again;
use civl_linear::{flags_before, is_given, names_in_proc};
use civl_tree::{Expr, Memory, Name, Param, Proc, Program, Stmt};
use civl_types::names::{Signature, callee_signature, proc_signature};
use std::alloc::Global as Alloc;

/// The first of these arguments for linear parameters that isn't a linear name that is held.
fn first_not_held<'a>(
    proc: &Proc,
    names: &[&Name],
    held: &[bool],
    params: &[Param],
    args: &'a [Expr],
) -> Option<&'a Expr>
    ensures { option_copied result
        ≡ find (not_held proc.now (map (λ name. name.now) names.now) held.now) (at_modes is_passed params.now args.now) }
{
    for (at, param) in params.iter().enumerate() {
        match args.get(at) {
            Some(arg) => {
                if wants(Want::Passed, param.mode) && not_held(proc, names, held, arg) {
                    return Some(arg);
                }
            }
            None => return None,
        }
    }
    None
}

/// The plain names that stand for the parameters which are looked at, behind others.
fn push_passed<'a>(
    names: &mut Vec<&'a Name>,
    want: Want,
    params: &[Param],
    args: &'a [Expr],
) -> Result<(), Memory>
    ensures { OnOk result (map (λ name. name.now) names.new.items
        ≡ map (λ name. name.now) names.old.items ++ passed_names (wants want) params.now args.now) }
{
    for (at, param) in params.iter().enumerate() {
        match args.get(at) {
            Some(arg) => push_if(names, wants(want, param.mode), arg)?,
            None => return Ok(()),
        }
    }
    Ok(())
}

/// The name that an argument is, behind others, where it is looked at and is a plain name.
fn push_if<'a>(names: &mut Vec<&'a Name>, wanted: bool, arg: &'a Expr) -> Result<(), Memory>
    ensures { OnOk result (map (λ name. name.now) names.new.items
        ≡ map (λ name. name.now) names.old.items ++ (if wanted then plain_name arg.now else [])) }
{
    if wanted {
        if let Some(name) = plain_name(arg) {
            names.push(name)?;
        }
    }
    Ok(())
}

/// The plain names that stand for the parameters which are looked at.
fn passed_names<'a>(
    alloc: Alloc,
    want: Want,
    params: &[Param],
    args: &'a [Expr],
) -> Result<Vec<&'a Name>, Memory>
    ensures { IfOk result (λ names. map (λ name. name.now) names.items ≡ passed_names (wants want) params.now args.now) }
{
    let mut names = Vec::new(alloc);
    push_passed(&mut names, want, params, args)?;
    Ok(names)
}

/// The first name that stands for a linear parameter again.
fn passed_again<'a>(
    alloc: Alloc,
    signature: Option<Signature<'_>>,
    args: &'a [Expr],
) -> Result<Option<&'a Name>, Memory>
    ensures { IfOk result (λ again. option_copied again ≡ passed_again (signature_of signature.entry) args.now) }
{
    match signature {
        Some(signature) => {
            let names = passed_names(alloc, Want::Passed, signature.params, args)?;
            first_again(Vec::new(alloc), &names)
        }
        None => Ok(None),
    }
}

/// The first result of a `give` output that is held once these are gone.
fn first_given<'a>(
    gone: &[&Name],
    names: &[&Name],
    held: &[bool],
    outs: &[Param],
    results: &'a [Name],
) -> Option<&'a Name>
    ensures { option_copied result
        ≡ find (holds (map (λ name. name.now) names.now) (without_names (map (λ name. name.now) gone.now) (map
        (λ name. name.now) names.now) held.now)) (given_names outs.now results.now) }
{
    for (at, out) in outs.iter().enumerate() {
        match results.get(at) {
            Some(name) => {
                if is_given(out.mode) && holds_without(gone, names, held, name) {
                    return Some(name);
                }
            }
            None => return None,
        }
    }
    None
}

/// The same of a procedure, which holds this.
fn given_without<'a>(
    alloc: Alloc,
    proc: &Proc,
    held: &[bool],
    gone: &[&Name],
    outs: &[Param],
    results: &'a [Name],
) -> Result<Option<&'a Name>, Memory>
    ensures { IfOk result (λ again. option_copied again
        ≡ find (holds (names_in_proc proc.now) (without_names (map (λ name. name.now) gone.now) (names_in_proc proc.now) held.now))
        (given_names outs.now results.now)) }
{
    let names = names_in_proc(alloc, proc)?;
    Ok(first_given(gone, &names, held, outs, results))
}

/// The first result of a `give` output that is held after the takes.
fn given_again<'a>(
    alloc: Alloc,
    proc: &Proc,
    held: &[bool],
    signature: Option<Signature<'_>>,
    args: &[Expr],
    results: &'a [Name],
) -> Result<Option<&'a Name>, Memory>
    ensures { IfOk result (λ again. option_copied again
        ≡ given_again proc.now held.now (signature_of signature.entry) args.now results.now) }
{
    match signature {
        Some(signature) => {
            let gone = passed_names(alloc, Want::Taken, signature.params, args)?;
            given_without(alloc, proc, held, &gone, signature.outs, results)
        }
        None => Ok(None),
    }
}

/// The first argument that isn't held, of a call or a spawn of what has this signature.
fn arguments_not_held<'a>(
    alloc: Alloc,
    proc: &Proc,
    held: &[bool],
    signature: Option<Signature<'_>>,
    args: &'a [Expr],
) -> Result<Option<&'a Expr>, Memory>
    ensures { IfOk result (λ arg. option_copied arg ≡ first_not_held proc.now held.now (signature_of signature.entry) args.now) }
{
    match signature {
        Some(signature) => {
            let names = names_in_proc(alloc, proc)?;
            Ok(first_not_held(proc, &names, held, signature.params, args))
        }
        None => Ok(None),
    }
}

/// The first argument of a statement that isn't held, where this is held before it.
fn form_not_held<'a>(
    alloc: Alloc,
    program: &Program,
    proc: &Proc,
    held: &[bool],
    stmt: &'a Stmt,
) -> Result<Option<&'a Expr>, Memory>
    ensures { IfOk result (λ arg. option_copied arg ≡ form_not_held program.now proc.now (out-Stmt stmt.now) held.now) }
{
    match stmt {
        Stmt::Call(callee, args, _) => arguments_not_held(
            alloc,
            proc,
            held,
            callee_signature(program, callee),
            args.as_slice(),
        ),
        Stmt::Spawn(callee, args) => arguments_not_held(
            alloc,
            proc,
            held,
            proc_signature(program, callee),
            args.as_slice(),
        ),
        Stmt::Assign(_, _) | Stmt::Assert(_) | Stmt::If(_, _, _) | Stmt::While(_, _) => Ok(None),
        Stmt::YieldLoop(_, _, _) | Stmt::RankLoop(_, _, _, _) => Ok(None),
        Stmt::Yield(_) | Stmt::Commit | Stmt::Intro(_, _) => Ok(None),
    }
}

/// The first argument of a statement that isn't held.
pub(crate) fn stmt_not_held<'a>(
    alloc: Alloc,
    program: &Program,
    proc: &Proc,
    number: usize,
    stmt: &'a Stmt,
) -> Result<Option<&'a Expr>, Memory>
    ensures { IfOk result (λ arg. option_copied arg ≡ stmt_not_held program.now proc.now number stmt.now) }
{
    let befores = flags_before(alloc, program, proc)?;
    match befores.get(number) {
        Some(held) => form_not_held(alloc, program, proc, held.as_slice(), stmt),
        None => Ok(None),
    }
}

/// What a call holds twice, where this is held before it.
fn call_held_twice<'a>(
    alloc: Alloc,
    program: &Program,
    proc: &Proc,
    held: &[bool],
    callee: &Name,
    args: &'a [Expr],
    results: &'a [Name],
) -> Result<Option<&'a Name>, Memory>
    ensures { IfOk result (λ again. option_copied again
        ≡ option_or (passed_again (callee_signature program.now callee.now) args.now)
        (given_again proc.now held.now (callee_signature program.now callee.now) args.now results.now)) }
{
    if let Some(name) = passed_again(alloc, callee_signature(program, callee), args)? {
        return Ok(Some(name));
    }
    given_again(
        alloc,
        proc,
        held,
        callee_signature(program, callee),
        args,
        results,
    )
}

/// What a statement holds twice, where this is held before it.
fn form_held_twice<'a>(
    alloc: Alloc,
    program: &Program,
    proc: &Proc,
    held: &[bool],
    stmt: &'a Stmt,
) -> Result<Option<&'a Name>, Memory>
    ensures { IfOk result (λ again. option_copied again ≡ form_held_twice program.now proc.now (out-Stmt stmt.now) held.now) }
{
    match stmt {
        Stmt::Call(callee, args, results) => call_held_twice(
            alloc,
            program,
            proc,
            held,
            callee,
            args.as_slice(),
            results.as_slice(),
        ),
        Stmt::Spawn(callee, args) => {
            passed_again(alloc, proc_signature(program, callee), args.as_slice())
        }
        Stmt::Assign(_, _) | Stmt::Assert(_) | Stmt::If(_, _, _) | Stmt::While(_, _) => Ok(None),
        Stmt::YieldLoop(_, _, _) | Stmt::RankLoop(_, _, _, _) => Ok(None),
        Stmt::Yield(_) | Stmt::Commit | Stmt::Intro(_, _) => Ok(None),
    }
}

/// What a statement holds twice.
pub(crate) fn stmt_held_twice<'a>(
    alloc: Alloc,
    program: &Program,
    proc: &Proc,
    number: usize,
    stmt: &'a Stmt,
) -> Result<Option<&'a Name>, Memory>
    ensures { IfOk result (λ again. option_copied again ≡ stmt_held_twice program.now proc.now number stmt.now) }
{
    let befores = flags_before(alloc, program, proc)?;
    match befores.get(number) {
        Some(held) => form_held_twice(alloc, program, proc, held.as_slice(), stmt),
        None => Ok(None),
    }
}

/// The first result that the output in its place may not go to.
fn first_misgiven<'a>(proc: &Proc, outs: &[Param], results: &'a [Name]) -> Option<&'a Name>
    ensures { option_copied result ≡ first_misgiven proc.now outs.now results.now }
{
    for (at, out) in outs.iter().enumerate() {
        match results.get(at) {
            Some(name) => {
                if misgiven(proc, out.mode, name) {
                    return Some(name);
                }
            }
            None => return None,
        }
    }
    None
}

/// The same of a call of what has this signature.
fn call_misgiven<'a>(
    proc: &Proc,
    signature: Option<Signature<'_>>,
    results: &'a [Name],
) -> Option<&'a Name>
    ensures { option_copied result ≡ call_misgiven proc.now (signature_of signature.entry) results.now }
{
    match signature {
        Some(signature) => first_misgiven(proc, signature.outs, results),
        None => None,
    }
}

/// The target of an assignment, or the first result that may not get what it gets.
pub(crate) fn stmt_assigned<'a>(program: &Program, proc: &Proc, stmt: &'a Stmt) -> Option<&'a Name>
    ensures { option_copied result ≡ stmt_assigned program.now proc.now stmt.now }
{
    match stmt {
        Stmt::Assign(target, _) => Some(target),
        Stmt::Call(callee, _, results) => call_misgiven(
            proc,
            callee_signature(program, callee),
            results.as_slice(),
        ),
        Stmt::Assert(_) | Stmt::If(_, _, _) | Stmt::While(_, _) => None,
        Stmt::YieldLoop(_, _, _) | Stmt::RankLoop(_, _, _, _) => None,
        Stmt::Yield(_) | Stmt::Commit | Stmt::Intro(_, _) | Stmt::Spawn(_, _) => None,
    }
}
