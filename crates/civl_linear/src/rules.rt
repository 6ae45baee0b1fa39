// What the rules ask of one statement.
ghost use Rattle.std.specs.Prelude.{◌≡◌, ◌+◌, map};
ghost use Rattle.std.specs.List.{list_any};
ghost use Rattle.civl_tree.specs.rules.Names.{any_twice, has_name};
ghost use Rattle.civl_types.specs.Views.{signature_of};
ghost use Rattle.civl_linear.specs.Modes.{is_passed, is_taken, at_modes, plain_name, passed_names, given_names};
ghost use Rattle.civl_linear.specs.inner.Wants.{list_of};
ghost use Rattle.civl_linear.specs.Held.{holds, without_names};
ghost use Rattle.civl_linear.specs.LinearRules.{is_lost};
ghost use Rattle.civl_linear.specs.Places.{not_held, any_not_held, passed_twice, given_to_held, stmt_not_held, stmt_held_twice, stmt_assigned, assigned, misgiven, any_misgiven, call_misgiven};

use crate::modes::{Want, is_given, is_passed};
use crate::passing::is_passed_name;
use crate::places::{holds, is_param, may_get, may_pass};
use civl_names::walks::{NoteTest, Test};
use civl_tree::{Expr, List, Mode, Name, Param, Proc, Program, Stmt};
use civl_types::names::{Signature, callee_signature, proc_signature, same_name};

/// Whether the argument isn't the plain name of something held that may stand for a linear parameter.
fn not_held(proc: &Proc, names: &[&Name], held: &List<bool>, arg: &Expr) -> bool
    ensures { result ≡ not_held proc.now (map (λ name. name.now) names.now) held.now arg.now }
{
    match arg {
        Expr::Name(name) => !(may_pass(proc, name) && holds(names, held, name)),
        Expr::Literal(_, _) => true,
        Expr::True => true,
        Expr::False => true,
        Expr::Done => true,
        Expr::Old(_) => true,
        Expr::OldDone => true,
        Expr::One(_, _) => true,
        Expr::Two(_, _, _) => true,
        Expr::Pick(_, _, _) => true,
        Expr::Get(_, _) => true,
        Expr::Set(_, _, _) => true,
        Expr::Fill(_, _) => true,
        Expr::Slice(_, _, _) => true,
        Expr::Widen(_, _) => true,
        Expr::Join(_, _) => true,
    }
}

/// Whether one of the arguments for linear parameters isn't held.
fn args_not_held(
    proc: &Proc,
    names: &[&Name],
    held: &List<bool>,
    params: &[Param],
    args: &[Expr],
) -> bool
    ensures { result ≡ list_any (not_held proc.now (map (λ name. name.now) names.now) held.now) (at_modes is_passed params.now args.now) }
{
    for (at, param) in params.iter().enumerate() {
        match args.get(at) {
            Some(arg) => {
                if is_passed(param.mode) && not_held(proc, names, held, arg) {
                    return true;
                }
            }
            None => return false,
        }
    }
    false
}

/// The same of a call or spawn with this signature.
fn any_not_held(
    proc: &Proc,
    names: &[&Name],
    held: &List<bool>,
    signature: Option<Signature>,
    args: &[Expr],
) -> bool
    ensures { result ≡ any_not_held proc.now (map (λ name. name.now) names.now) held.now (signature_of signature.entry) args.now }
{
    match signature {
        Some(signature) => args_not_held(proc, names, held, signature.params, args),
        None => false,
    }
}

/// The plain name that the expression is.
fn plain_name<'a>(expr: &'a Expr) -> Option<&'a Name>
    ensures { list_of result ≡ plain_name expr.now }
{
    match expr {
        Expr::Name(name) => Some(name),
        Expr::Literal(_, _) => None,
        Expr::True => None,
        Expr::False => None,
        Expr::Done => None,
        Expr::Old(_) => None,
        Expr::OldDone => None,
        Expr::One(_, _) => None,
        Expr::Two(_, _, _) => None,
        Expr::Pick(_, _, _) => None,
        Expr::Get(_, _) => None,
        Expr::Set(_, _, _) => None,
        Expr::Fill(_, _) => None,
        Expr::Slice(_, _, _) => None,
        Expr::Widen(_, _) => None,
        Expr::Join(_, _) => None,
    }
}

/// Whether the argument is a plain name that stands for a linear parameter among these too.
fn stands_again(arg: &Expr, params: &[Param], args: &[Expr]) -> bool
    ensures { result ≡ list_any (has_name (passed_names is_passed params.now args.now)) (plain_name arg.now) }
{
    match plain_name(arg) {
        Some(name) => is_passed_name(Want::Passed, params, args, name),
        None => false,
    }
}

/// Whether one name stands for two linear parameters.
fn args_twice(params: &[Param], args: &[Expr]) -> bool
    ensures { result ≡ any_twice (passed_names is_passed params.now args.now) }
{
    for (at, param) in params.iter().enumerate() {
        match args.get(at) {
            Some(arg) => {
                if is_passed(param.mode) && stands_again(arg, &params[at + 1..], &args[at + 1..]) {
                    return true;
                }
            }
            None => return false,
        }
    }
    false
}

/// The same of a call or spawn with this signature.
fn passed_twice(signature: Option<Signature>, args: &[Expr]) -> bool
    ensures { result ≡ passed_twice (signature_of signature.entry) args.now }
{
    match signature {
        Some(signature) => args_twice(signature.params, args),
        None => false,
    }
}

/// Whether the name is held where those that are taken are not.
fn holds_untaken(
    params: &[Param],
    args: &[Expr],
    names: &[&Name],
    held: &List<bool>,
    name: &Name,
) -> bool
    ensures { result ≡ holds (map (λ name. name.now) names.now) (without_names (passed_names is_taken params.now args.now) (map (λ name. name.now) names.now) held.now) name.now }
{
    let flags = held.as_slice();
    for (at, first) in names.iter().enumerate() {
        match flags.get(at) {
            Some(is_held) => {
                if *is_held
                    && same_name(first, name)
                    && !is_passed_name(Want::Taken, params, args, first)
                {
                    return true;
                }
            }
            None => return false,
        }
    }
    false
}

/// Whether a linear value is given to what is held after the takes.
fn results_held(
    names: &[&Name],
    held: &List<bool>,
    signature: &Signature,
    args: &[Expr],
    results: &[Name],
) -> bool
    ensures { result ≡ list_any (holds (map (λ name. name.now) names.now) (without_names (passed_names is_taken signature.now.params.now args.now) (map (λ name. name.now) names.now) held.now)) (given_names signature.now.outs.now results.now) }
{
    for (at, out) in signature.outs.iter().enumerate() {
        match results.get(at) {
            Some(given) => {
                if is_given(out.mode) && holds_untaken(signature.params, args, names, held, given) {
                    return true;
                }
            }
            None => return false,
        }
    }
    false
}

/// The same of a call with this signature.
fn given_to_held(
    names: &[&Name],
    held: &List<bool>,
    signature: Option<Signature>,
    args: &[Expr],
    results: &[Name],
) -> bool
    ensures { result ≡ given_to_held (map (λ name. name.now) names.now) held.now (signature_of signature.entry) args.now results.now }
{
    match signature {
        Some(signature) => results_held(names, held, &signature, args, results),
        None => false,
    }
}

/// Whether an assign may not go to this target.
fn assigned(proc: &Proc, target: &Name) -> bool
    ensures { result ≡ assigned proc.now target.now }
{
    may_get(proc, target) || is_param(proc, target)
}

/// Whether the result of an output of this mode may not go there.
fn misgiven(proc: &Proc, mode: Mode, given: &Name) -> bool
    ensures { result ≡ misgiven proc.now mode given.now }
{
    if is_param(proc, given) {
        return true;
    }
    if is_given(mode) {
        !may_get(proc, given)
    } else {
        may_get(proc, given)
    }
}

/// Whether one of these results may not go where it goes.
fn any_misgiven(proc: &Proc, outs: &[Param], results: &[Name]) -> bool
    ensures { result ≡ any_misgiven proc.now outs.now results.now }
{
    for (at, out) in outs.iter().enumerate() {
        match results.get(at) {
            Some(given) => {
                if misgiven(proc, out.mode, given) {
                    return true;
                }
            }
            None => return false,
        }
    }
    false
}

/// The same of a call with this signature.
fn call_misgiven(proc: &Proc, signature: Option<Signature>, results: &[Name]) -> bool
    ensures { result ≡ call_misgiven proc.now (signature_of signature.entry) results.now }
{
    match signature {
        Some(signature) => any_misgiven(proc, signature.outs, results),
        None => false,
    }
}

/// An argument that isn't held (E40).
#[derive(Clone, Copy)]
pub(crate) struct Unheld<'a> {
    pub program: &'a Program,
    pub proc: &'a Proc,
    pub names: &'a [&'a Name],
}

impl<'a> NoteTest<List<bool>> for Unheld<'a> {
    ghost breaks_with = { λ rule stmt held. stmt_not_held rule.program.now rule.proc.now (map (λ name. name.now) rule.names.now) stmt held };

    fn breaks_with(&self, stmt: &Stmt, note: &List<bool>) -> bool {
        match stmt {
            Stmt::Call(callee, args, _) => {
                let signature = callee_signature(self.program, callee);
                any_not_held(self.proc, self.names, note, signature, args.as_slice())
            }
            Stmt::Spawn(callee, args) => {
                let signature = proc_signature(self.program, callee);
                any_not_held(self.proc, self.names, note, signature, args.as_slice())
            }
            Stmt::Assign(_, _) => false,
            Stmt::Assert(_) => false,
            Stmt::If(_, _, _) => false,
            Stmt::While(_, _) => false,
            Stmt::YieldLoop(_, _, _) => false,
            Stmt::RankLoop(_, _, _, _) => false,
            Stmt::Yield(_) => false,
            Stmt::Commit => false,
            Stmt::Intro(_, _) => false,
        }
    }
}

/// One local for two linear parameters, or a linear value given to what is held (E41).
#[derive(Clone, Copy)]
pub(crate) struct Doubled<'a> {
    pub program: &'a Program,
    pub names: &'a [&'a Name],
}

impl<'a> NoteTest<List<bool>> for Doubled<'a> {
    ghost breaks_with = { λ rule stmt held. stmt_held_twice rule.program.now (map (λ name. name.now) rule.names.now) stmt held };

    fn breaks_with(&self, stmt: &Stmt, note: &List<bool>) -> bool {
        match stmt {
            Stmt::Call(callee, args, results) => {
                let signature = callee_signature(self.program, callee);
                passed_twice(signature, args.as_slice())
                    || given_to_held(
                        self.names,
                        note,
                        signature,
                        args.as_slice(),
                        results.as_slice(),
                    )
            }
            Stmt::Spawn(callee, args) => {
                let signature = proc_signature(self.program, callee);
                passed_twice(signature, args.as_slice())
            }
            Stmt::Assign(_, _) => false,
            Stmt::Assert(_) => false,
            Stmt::If(_, _, _) => false,
            Stmt::While(_, _) => false,
            Stmt::YieldLoop(_, _, _) => false,
            Stmt::RankLoop(_, _, _, _) => false,
            Stmt::Yield(_) => false,
            Stmt::Commit => false,
            Stmt::Intro(_, _) => false,
        }
    }
}

/// A loop that loses what was held at its head (E42).
#[derive(Clone, Copy)]
pub(crate) struct Losing;

impl NoteTest<bool> for Losing {
    ghost breaks_with = { λ rule stmt lost. is_lost stmt lost };

    fn breaks_with(&self, _stmt: &Stmt, note: &bool) -> bool {
        *note
    }
}

/// An assign or a call with a target that may not be one (E43).
#[derive(Clone, Copy)]
pub(crate) struct Misassigned<'a> {
    pub program: &'a Program,
    pub proc: &'a Proc,
}

impl<'a> Test for Misassigned<'a> {
    ghost breaks = { λ rule stmt. stmt_assigned rule.program.now rule.proc.now stmt };

    fn breaks(&self, stmt: &Stmt) -> bool {
        match stmt {
            Stmt::Assign(target, _) => assigned(self.proc, target),
            Stmt::Call(callee, _, results) => {
                let signature = callee_signature(self.program, callee);
                call_misgiven(self.proc, signature, results.as_slice())
            }
            Stmt::Assert(_) => false,
            Stmt::If(_, _, _) => false,
            Stmt::While(_, _) => false,
            Stmt::YieldLoop(_, _, _) => false,
            Stmt::RankLoop(_, _, _, _) => false,
            Stmt::Yield(_) => false,
            Stmt::Commit => false,
            Stmt::Intro(_, _) => false,
            Stmt::Spawn(_, _) => false,
        }
    }
}
