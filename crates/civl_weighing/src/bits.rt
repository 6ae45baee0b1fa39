// The bits of variables, and how many are linear.
ghost use Rattle.std.specs.Prelude.{[], filter, length, if◌then◌else◌};
ghost use Rattle.civl_tree.specs.rules.StoreSize.{bits_of};
ghost use Rattle.civl_tree.specs.rules.Width.{is_linear};
ghost use Rattle.civl_linear.specs.Modes.{is_lent, is_given};
ghost use Rattle.civl_conditions.specs.footprints.Agreement.{exists_at};
ghost use Rattle.civl_conditions.specs.paths.Seen.{exists_near};
ghost use Rattle.civl_conditions.specs.Variables.{of_globals};
ghost use Rattle.civl_conditions.specs.Weights.{bits_of_variables, outs_bits, linear_globals, linear_inputs};
ghost use Rattle.civl_weighing.specs.Weighing.{Weighs};
ghost use Rattle.civl_weighing.specs.Bits.{choices_bits, locals_bits};

use crate::exprs::bits_of;
use crate::weight::Weight;
use civl_conditions::{exists_at, exists_near};
use civl_linear::{is_given, is_lent};
use civl_tree::{Choice, Global, Local, Param, Program, Sort};
use civl_types::is_linear;

// ---- modes and layers

// ---- one

/// The bits of a value of this sort, where it is counted.
pub fn bits_where(counted: bool, sort: Sort) -> Weight
    ensures { Weighs result (if counted then bits_of sort else 0) }
{
    if counted {
        bits_of(sort)
    } else {
        Weight::of(0)
    }
}

/// One where it is counted, else nothing.
pub fn one_where(counted: bool) -> Weight
    ensures { Weighs result (if counted then 1 else 0) }
{
    if counted {
        Weight::of(1)
    } else {
        Weight::of(0)
    }
}

// ---- lists

/// The bits of these parameters.
pub fn params_bits(params: &[Param]) -> Weight
    ensures { Weighs result (outs_bits params.now) }
{
    let mut total = Weight::of(0);
    for param in params {
        total = total.plus(bits_of(param.sort));
    }
    total
}

/// The bits of these choices.
pub fn choices_bits(choices: &[Choice]) -> Weight
    ensures { Weighs result (choices_bits choices.now) }
{
    let mut total = Weight::of(0);
    for choice in choices {
        total = total.plus(bits_of(choice.sort));
    }
    total
}

/// The bits of these locals.
pub fn locals_bits(locals: &[Local]) -> Weight
    ensures { Weighs result (locals_bits locals.now) }
{
    let mut total = Weight::of(0);
    for local in locals {
        total = total.plus(bits_of(local.sort));
    }
    total
}

/// How many of these parameters are linear.
pub fn linear_inputs(params: &[Param]) -> Weight
    ensures { Weighs result (linear_inputs params.now) }
{
    let mut total = Weight::of(0);
    for param in params {
        total = total.plus(one_where(is_linear(param.mode)));
    }
    total
}

/// How many of these parameters are lent.
pub fn lent(params: &[Param]) -> Weight
    ensures { Weighs result (length (filter (λ p. is_lent p.mode) params.now)) }
{
    let mut total = Weight::of(0);
    for param in params {
        total = total.plus(one_where(is_lent(param.mode)));
    }
    total
}

/// How many of these outputs are given.
pub fn given(outs: &[Param]) -> Weight
    ensures { Weighs result (length (filter (λ p. is_given p.mode) outs.now)) }
{
    let mut total = Weight::of(0);
    for out in outs {
        total = total.plus(one_where(is_given(out.mode)));
    }
    total
}

// ---- globals

/// The bits of all globals.
pub fn all_globals(globals: &[Global]) -> Weight
    ensures { Weighs result (bits_of_variables (of_globals [] globals.now)) }
{
    let mut total = Weight::of(0);
    for global in globals {
        total = total.plus(bits_of(global.sort));
    }
    total
}

/// The bits of those that exist in a layer.
pub fn globals_at(globals: &[Global], layer: u32) -> Weight
    ensures { Weighs result (bits_of_variables (of_globals [] (filter (exists_at layer) globals.now))) }
{
    let mut total = Weight::of(0);
    for global in globals {
        total = total.plus(bits_where(exists_at(layer, global), global.sort));
    }
    total
}

/// The bits of those that exist in one of the two layers of a step.
pub fn globals_near(globals: &[Global], step: u32) -> Weight
    ensures { Weighs result (bits_of_variables (of_globals [] (filter (exists_near step) globals.now))) }
{
    let mut total = Weight::of(0);
    for global in globals {
        total = total.plus(bits_where(exists_near(step, global), global.sort));
    }
    total
}

fn count_linear(globals: &[Global]) -> Weight
    ensures { Weighs result (length (filter (λ g. g.linear) globals.now)) }
{
    let mut total = Weight::of(0);
    for global in globals {
        total = total.plus(one_where(global.linear));
    }
    total
}

/// How many globals are linear.
pub fn linear_globals(program: &Program) -> Weight
    ensures { Weighs result (linear_globals program.now) }
{
    count_linear(program.globals.as_slice())
}
