// What linear names may stand for, and whether they are held.
ghost use Rattle.std.specs.Prelude.{◌≡◌, map, option_copied};
ghost use Rattle.civl_linear.specs.Held.{holds, without_names};
ghost use Rattle.civl_linear.specs.Modes.{plain_name};
ghost use Rattle.civl_linear.specs.Places.{gives_out, is_linear_local, is_param, may_get, may_pass, misgiven, not_held, passes_in};
ghost use Rattle.civl_subjects.specs.inner.Meant.{option_list, wants};

use crate::naming::is_one;
use civl_linear::is_given;
use civl_tree::{Expr, Mode, Name, Param, Proc};
use civl_types::names::same_name;

/// Which parameters are looked at: those for which a linear value is handed in, or those that keep it.
#[derive(Clone, Copy)]
pub(crate) enum Want {
    Passed,
    Taken,
}

/// Whether a parameter of this mode is looked at.
pub(crate) fn wants(want: Want, mode: Mode) -> bool
    ensures { result ≡ wants want mode }
{
    match want {
        Want::Passed => match mode {
            Mode::Lend => true,
            Mode::Take => true,
            Mode::Val => false,
            Mode::Give => false,
        },
        Want::Taken => match mode {
            Mode::Take => true,
            Mode::Lend => false,
            Mode::Val => false,
            Mode::Give => false,
        },
    }
}

/// Whether one of these parameters is this name, and passes linear values in.
fn passes_in(params: &[Param], name: &Name) -> bool
    ensures { result ≡ passes_in params.now name.now }
{
    for param in params {
        if wants(Want::Passed, param.mode) && same_name(&param.name, name) {
            return true;
        }
    }
    false
}

/// Whether one of these outputs is this name, and gives a linear value.
fn gives_out(outs: &[Param], name: &Name) -> bool
    ensures { result ≡ gives_out outs.now name.now }
{
    for out in outs {
        if is_given(out.mode) && same_name(&out.name, name) {
            return true;
        }
    }
    false
}

/// Whether a name is that of a linear local.
fn is_linear_local(proc: &Proc, name: &Name) -> bool
    ensures { result ≡ is_linear_local proc.now name.now }
{
    for local in proc.locals.as_slice() {
        if local.linear && same_name(&local.name, name) {
            return true;
        }
    }
    false
}

/// Whether a name may stand for a linear parameter.
fn may_pass(proc: &Proc, name: &Name) -> bool
    ensures { result ≡ may_pass proc.now name.now }
{
    is_linear_local(proc, name) || passes_in(proc.params.as_slice(), name)
}

/// Whether a name may get a linear value.
fn may_get(proc: &Proc, name: &Name) -> bool
    ensures { result ≡ may_get proc.now name.now }
{
    is_linear_local(proc, name) || gives_out(proc.outs.as_slice(), name)
}

/// Whether a name is that of a parameter.
fn is_param(proc: &Proc, name: &Name) -> bool
    ensures { result ≡ is_param proc.now name.now }
{
    for param in proc.params.as_slice() {
        if same_name(name, &param.name) {
            return true;
        }
    }
    false
}

/// Whether a name is held, where these are the names with their flags.
fn holds(names: &[&Name], held: &[bool], name: &Name) -> bool
    ensures { result ≡ holds (map (λ name. name.now) names.now) held.now name.now }
{
    for (at, first) in names.iter().enumerate() {
        match held.get(at) {
            Some(is_held) => {
                if *is_held && same_name(first, name) {
                    return true;
                }
            }
            None => return false,
        }
    }
    false
}

/// Whether a name is held once these are gone.
pub(crate) fn holds_without(gone: &[&Name], names: &[&Name], held: &[bool], name: &Name) -> bool
    ensures { result ≡ holds (map (λ name. name.now) names.now)
        (without_names (map (λ name. name.now) gone.now) (map (λ name. name.now) names.now) held.now) name.now }
{
    for (at, first) in names.iter().enumerate() {
        match held.get(at) {
            Some(is_held) => {
                if (*is_held && !is_one(gone, first)) && same_name(first, name) {
                    return true;
                }
            }
            None => return false,
        }
    }
    false
}

/// The name that an expression is, if it is a plain name.
pub(crate) fn plain_name(expr: &Expr) -> Option<&Name>
    ensures { plain_name expr.now ≡ option_list (option_copied result) }
{
    match expr {
        Expr::Name(name) => Some(name),
        Expr::Literal(_, _) | Expr::True | Expr::False | Expr::Done => None,
        Expr::Old(_) | Expr::OldDone | Expr::One(_, _) | Expr::Two(_, _, _) => None,
        Expr::Pick(_, _, _) | Expr::Get(_, _) | Expr::Set(_, _, _) | Expr::Fill(_, _) => None,
        Expr::Slice(_, _, _) | Expr::Widen(_, _) | Expr::Join(_, _) => None,
    }
}

/// Whether an argument isn't a linear name that is held.
pub(crate) fn not_held(proc: &Proc, names: &[&Name], held: &[bool], arg: &Expr) -> bool
    ensures { result ≡ not_held proc.now (map (λ name. name.now) names.now) held.now arg.now }
{
    match plain_name(arg) {
        Some(name) => !(may_pass(proc, name) && holds(names, held, name)),
        None => true,
    }
}

/// Whether a result may not get what an output of this mode hands out.
pub(crate) fn misgiven(proc: &Proc, mode: Mode, name: &Name) -> bool
    ensures { result ≡ misgiven proc.now mode name.now }
{
    if is_param(proc, name) {
        return true;
    }
    if is_given(mode) {
        return !may_get(proc, name);
    }
    may_get(proc, name)
}
