// The choices of the calls that a path may pass, as the values of a condition give them.
ghost use Rattle.std.specs.Prelude.{◌≡◌, ◌++◌, ◌∷◌, [], ◌<◌, ◌^◌, length, map, OnOk, IfOk};
ghost use Rattle.civl_tree.specs.declared.stmt.Stmt.{out-Stmt};
ghost use Rattle.civl_tree.specs.Numbering.{sizes_of};
ghost use Rattle.civl_meaning.specs.Layers.{program_at};
ghost use Rattle.civl_conditions.specs.Variables.{layer_choices};
ghost use Rattle.civl_traces.specs.Told.{chosen_at};
ghost use Rattle.civl_losses.specs.inner.Given.{listed, choices_of_number, calls_of, choices_from};

use crate::beginning::From;
use civl_bits::Value;
use civl_conditions::action_called;
use civl_conditions::paths::met_from;
use civl_meaning::slices::{behind, first};
use civl_names::walks::statements;
use civl_traces::Chosen;
use civl_tree::{List, Memory, Program, Stmt};
use std::alloc::Global;

/// The values that are left to read.
#[derive(Clone, Copy)]
struct Rest<'a> {
    values: &'a [Value],
}

/// How many choices a statement has in the program of a layer.
fn choice_count(program: &Program, layer: u32, stmt: &Stmt) -> usize
    ensures { result ≡ length (layer_choices (program_at program.now layer) (out-Stmt stmt.now)) }
{
    match stmt {
        Stmt::Call(callee, _, _) => match action_called(program, layer, callee) {
            Some(action) => action.choices.len(),
            None => 0,
        },
        Stmt::Assign(_, _) => 0,
        Stmt::Assert(_) => 0,
        Stmt::If(_, _, _) => 0,
        Stmt::While(_, _) => 0,
        Stmt::YieldLoop(_, _, _) => 0,
        Stmt::RankLoop(_, _, _, _) => 0,
        Stmt::Yield(_) => 0,
        Stmt::Commit => 0,
        Stmt::Intro(_, _) => 0,
        Stmt::Spawn(_, _) => 0,
    }
}

/// How many choices the statement with this number has.
pub(crate) fn count_at(program: &Program, layer: u32, flat: &[&Stmt], number: usize) -> usize
    ensures { result ≡ length (choices_of_number program.now layer (map (λ s. s.now) flat.now) number) }
{
    match flat.get(number) {
        Some(stmt) => choice_count(program, layer, stmt),
        None => 0,
    }
}

/// Puts the choices of a call behind the others.
fn push_call(
    alloc: Global,
    list: &mut List<Chosen>,
    number: u32,
    choices: &[Value],
) -> Result<(), Memory>
    ensures { OnOk result (list.new ≡ list.old ++ record { statement = number; choices = choices.now } ∷ []) }
{
    let choices = Vec::from_slice(alloc, choices)?;
    list.push(Chosen {
        statement: number as usize,
        choices: List::from_vec(choices),
    })
}

/// Puts the choices of the statements with these numbers behind the others, whose values stand one behind the other.
fn push_calls(
    alloc: Global,
    list: &mut List<Chosen>,
    program: &Program,
    layer: u32,
    flat: &[&Stmt],
    numbers: &[u32],
    values: &[Value],
) -> Result<(), Memory>
    ensures { OnOk result (list.new ≡ list.old ++ listed (calls_of program.now layer (map (λ s. s.now) flat.now) numbers.now) values.now) }
{
    let mut rest = Rest { values };
    for number in numbers {
        let count = count_at(program, layer, flat, *number as usize);
        push_call(alloc, list, *number, first(rest.values, count))?;
        rest = Rest {
            values: behind(rest.values, count),
        };
    }
    Ok(())
}

/// The choices of the calls that some path from a cut passes, whose values these are.
pub(crate) fn choices_of_calls(
    alloc: Global,
    from: &From<'_>,
    values: &[Value],
) -> Result<List<Chosen>, Memory>
    requires { sizes_of from.now.proc.now.body < 2 ^ 32 }
    ensures { IfOk result (λ list. chosen_at list ≡ choices_from from.now.program.now from.now.step from.now.proc.now from.now.cut
        values.now) }
{
    let met = met_from(alloc, from.proc, from.cut)?;
    let flat = statements(alloc, &from.proc.body)?;
    let mut list = List::new(alloc);
    push_calls(
        alloc,
        &mut list,
        from.program,
        from.step.saturating_sub(1),
        flat.as_slice(),
        met.passed.as_slice(),
        values,
    )?;
    Ok(list)
}
