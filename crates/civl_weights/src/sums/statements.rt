// The weights of statements, and the bits of their choices.
ghost use Rattle.std.specs.Prelude.{◌≡◌, ◌+◌, ◌++◌, [], map, flat_map, IfOk, OnOk};
ghost use Rattle.std.specs.Option.{option_map_or};
ghost use Rattle.std.specs.List.{AllZip};
ghost use Rattle.civl_tree.specs.declared.stmt.Stmt.{out-Stmt};
ghost use Rattle.civl_tree.specs.Numbering.{statements_of};
ghost use Rattle.civl_tree.specs.rules.Names.{has_name};
ghost use Rattle.civl_tree.specs.rules.Scopes.{bind_globals, bind_params, bind_locals};
ghost use Rattle.civl_firing.specs.values.ActionWeights.{action_weight};
ghost use Rattle.civl_meaning.specs.Meaning.{called};
ghost use Rattle.civl_meaning.specs.Layers.{program_at};
ghost use Rattle.civl_conditions.specs.paths.Choices.{action_meant};
ghost use Rattle.civl_conditions.specs.Variables.{choices_of, layer_choices};
ghost use Rattle.civl_conditions.specs.Weights.{layer_written, layer_weight, written_bits};
ghost use Rattle.civl_weighing.specs.Weighing.{Weighs, AreWeights};
ghost use Rattle.civl_weighing.specs.Bits.{choices_bits};
ghost use Rattle.civl_weights.specs.sums.Sums.{OfAction, updated_globals, joined};

use crate::sums::actions::{ActionSums, sums_called};
use civl_conditions::action_called;
use civl_names::walks::statements;
use civl_tree::{Global, List, Local, Memory, Name, Param, Proc, Program, Stmt, Update};
use civl_types::names::same_name;
use civl_types::view::View;
use civl_weighing::bits::bits_where;
use civl_weighing::exprs::{weight_of, weights_of};
use civl_weighing::weight::Weight;
use std::alloc::Global as Alloc;

// ---- what statements write

/// Whether a name is one of these.
fn is_any(names: &[&Name], name: &Name) -> bool
    ensures { result ≡ has_name (map (λ n. n.now) names.now) name.now }
{
    for other in names {
        if same_name(name, other) {
            return true;
        }
    }
    false
}

fn is_global(globals: &[Global], name: &Name) -> bool
    ensures { result ≡ has_name (map (λ g. g.name) globals.now) name.now }
{
    for global in globals {
        if same_name(name, &global.name) {
            return true;
        }
    }
    false
}

/// Adds these names.
fn add_names<'a>(names: &mut Vec<&'a Name>, others: &'a [Name]) -> Result<(), Memory>
    ensures { OnOk result (map (λ n. n.now) names.new.items ≡ map (λ n. n.now) names.old.items ++ others.now) }
{
    for other in others {
        names.push(other)?;
    }
    Ok(())
}

/// Adds the globals that an action may update.
fn add_updated<'a>(
    names: &mut Vec<&'a Name>,
    globals: &[Global],
    updates: &'a [Update],
) -> Result<(), Memory>
    ensures { OnOk result (map (λ n. n.now) names.new.items ≡ map (λ n. n.now) names.old.items ++ updated_globals globals.now updates.now) }
{
    for update in updates {
        if is_global(globals, &update.target) {
            names.push(&update.target)?;
        }
    }
    Ok(())
}

/// Adds the globals that the call of this name may update.
fn add_called<'a>(
    names: &mut Vec<&'a Name>,
    program: &'a Program,
    layer: u32,
    callee: &Name,
) -> Result<(), Memory>
    ensures { OnOk result (map (λ n. n.now) names.new.items ≡ map (λ n. n.now) names.old.items ++ option_map_or (λ a. updated_globals program.now.globals a.updates) (action_meant (called (program_at program.now layer) callee.now)) []) }
{
    match action_called(program, layer, callee) {
        Some(action) => {
            add_updated(names, program.globals.as_slice(), action.updates.as_slice())
        }
        None => Ok(()),
    }
}

/// Adds what a statement may write.
fn add_written<'a>(
    names: &mut Vec<&'a Name>,
    program: &'a Program,
    layer: u32,
    stmt: &'a Stmt,
) -> Result<(), Memory>
    ensures { OnOk result (map (λ n. n.now) names.new.items ≡ map (λ n. n.now) names.old.items ++ layer_written (program_at program.now layer) (out-Stmt stmt.now)) }
{
    match stmt {
        Stmt::Assign(name, _) => {
            names.push(name)?;
            Ok(())
        }
        Stmt::Intro(name, _) => {
            names.push(name)?;
            Ok(())
        }
        Stmt::Call(callee, _, results) => {
            add_names(names, results.as_slice())?;
            add_called(names, program, layer, callee)?;
            Ok(())
        }
        Stmt::Assert(_)
        | Stmt::If(_, _, _)
        | Stmt::While(_, _)
        | Stmt::YieldLoop(_, _, _)
        | Stmt::RankLoop(_, _, _, _)
        | Stmt::Yield(_)
        | Stmt::Commit
        | Stmt::Spawn(_, _) => Ok(()),
    }
}

/// Adds what each of these statements may write.
fn add_each<'a>(
    names: &mut Vec<&'a Name>,
    program: &'a Program,
    layer: u32,
    flat: &[&'a Stmt],
) -> Result<(), Memory>
    ensures { OnOk result (map (λ n. n.now) names.new.items ≡ map (λ n. n.now) names.old.items ++ flat_map (λ s. layer_written (program_at program.now layer) (out-Stmt s)) (map (λ s. s.now) flat.now)) }
{
    for stmt in flat {
        add_written(names, program, layer, stmt)?;
    }
    Ok(())
}

/// Adds what these statements and those in them may write.
fn add_all_written<'a>(
    alloc: Alloc,
    names: &mut Vec<&'a Name>,
    program: &'a Program,
    layer: u32,
    stmts: &'a List<Stmt>,
) -> Result<(), Memory>
    ensures { OnOk result (map (λ n. n.now) names.new.items ≡ map (λ n. n.now) names.old.items ++ flat_map (λ s. layer_written (program_at program.now layer) (out-Stmt s)) (statements_of stmts.now)) }
{
    let flat = statements(alloc, stmts)?;
    add_each(names, program, layer, flat.as_slice())
}

// ---- their bits

fn globals_written(names: &[&Name], globals: &[Global]) -> Weight
    ensures { Weighs result (written_bits (map (λ n. n.now) names.now) (bind_globals globals.now)) }
{
    let mut total = Weight::of(0);
    for global in globals {
        total = total.plus(bits_where(is_any(names, &global.name), global.sort));
    }
    total
}

fn outs_written(names: &[&Name], outs: &[Param]) -> Weight
    ensures { Weighs result (written_bits (map (λ n. n.now) names.now) (bind_params outs.now)) }
{
    let mut total = Weight::of(0);
    for out in outs {
        total = total.plus(bits_where(is_any(names, &out.name), out.sort));
    }
    total
}

fn locals_written(names: &[&Name], locals: &[Local]) -> Weight
    ensures { Weighs result (written_bits (map (λ n. n.now) names.now) (bind_locals locals.now)) }
{
    let mut total = Weight::of(0);
    for local in locals {
        total = total.plus(bits_where(is_any(names, &local.name), local.sort));
    }
    total
}

/// The bits of those of these names that are globals, outputs or locals, and 1.
fn all_written(names: &[&Name], program: &Program, proc: &Proc) -> Weight
    ensures { Weighs result (written_bits (map (λ n. n.now) names.now) (bind_globals program.now.globals) + written_bits (map (λ n. n.now) names.now) (bind_params proc.now.outs ++ bind_locals proc.now.locals) + 1) }
{
    let outs = outs_written(names, proc.outs.as_slice());
    let locals = locals_written(names, proc.locals.as_slice());
    globals_written(names, program.globals.as_slice())
        .plus(outs.plus(locals))
        .plus(Weight::of(1))
}

/// What joins the states behind the two branches of an `if`.
fn join_weight(
    alloc: Alloc,
    program: &Program,
    layer: u32,
    proc: &Proc,
    first: &List<Stmt>,
    second: &List<Stmt>,
) -> Result<Weight, Memory>
    ensures { IfOk result (λ weight. Weighs weight (joined program.now layer proc.now (statements_of first.now ++ statements_of second.now))) }
{
    let mut names = Vec::new(alloc);
    add_all_written(alloc, &mut names, program, layer, first)?;
    add_all_written(alloc, &mut names, program, layer, second)?;
    Ok(all_written(&names, program, proc))
}

// ---- statements

/// The weight of the action that a call of this name means in the program of a layer, or nothing where it means none.
pub fn call_weight(program: &Program, actions: &[ActionSums], layer: u32, callee: &Name) -> Weight
    requires { AllZip (OfAction program.now) program.now.actions actions.now }
    ensures { Weighs result (option_map_or (action_weight program.now) (action_meant (called (program_at program.now layer) callee.now)) 0) }
{
    match sums_called(program, actions, layer, callee) {
        Some(sums) => sums.whole(),
        None => Weight::of(0),
    }
}

/// The weight of a statement that is passed.
fn stmt_weight(
    alloc: Alloc,
    program: &Program,
    actions: &[ActionSums],
    layer: u32,
    proc: &Proc,
    stmt: &Stmt,
) -> Result<Weight, Memory>
    requires { AllZip (OfAction program.now) program.now.actions actions.now }
    ensures { IfOk result (λ weight. Weighs weight (layer_weight (program_at program.now layer) proc.now stmt.now (out-Stmt stmt.now))) }
{
    let body = View::Body(program, proc);
    let one = Weight::of(1);
    match stmt {
        Stmt::Assign(_, expr) => Ok(one.plus(weight_of(&body, expr))),
        Stmt::Assert(expr) => Ok(one.plus(weight_of(&body, expr))),
        Stmt::If(test, first, second) => {
            let join = join_weight(alloc, program, layer, proc, first, second)?;
            Ok(
                one.plus(weight_of(&body, test))
                    .plus(Weight::of(2))
                    .plus(join),
            )
        }
        Stmt::While(_, _) => Ok(one),
        Stmt::YieldLoop(test, _, _) => Ok(one.plus(weight_of(&body, test))),
        Stmt::RankLoop(test, _, _, _) => Ok(one.plus(weight_of(&body, test))),
        Stmt::Call(callee, args, _) => {
            let args = weights_of(&body, args.as_slice());
            Ok(
                one.plus(args)
                    .plus(call_weight(program, actions, layer, callee)),
            )
        }
        Stmt::Yield(_) => Ok(one),
        Stmt::Commit => Ok(one),
        Stmt::Intro(_, expr) => Ok(one.plus(weight_of(&View::Note(program, proc), expr))),
        Stmt::Spawn(_, _) => Ok(one),
    }
}

fn called_choices(program: &Program, actions: &[ActionSums], layer: u32, callee: &Name) -> Weight
    requires { AllZip (OfAction program.now) program.now.actions actions.now }
    ensures { Weighs result (choices_bits (choices_of (called (program_at program.now layer) callee.now))) }
{
    match sums_called(program, actions, layer, callee) {
        Some(sums) => sums.choices,
        None => Weight::of(0),
    }
}

/// The bits of the choices of a statement in the program of a layer.
pub fn stmt_choices(program: &Program, actions: &[ActionSums], layer: u32, stmt: &Stmt) -> Weight
    requires { AllZip (OfAction program.now) program.now.actions actions.now }
    ensures { Weighs result (choices_bits (layer_choices (program_at program.now layer) (out-Stmt stmt.now))) }
{
    match stmt {
        Stmt::Call(callee, _, _) => called_choices(program, actions, layer, callee),
        Stmt::Assign(_, _)
        | Stmt::Assert(_)
        | Stmt::If(_, _, _)
        | Stmt::While(_, _)
        | Stmt::YieldLoop(_, _, _)
        | Stmt::RankLoop(_, _, _, _)
        | Stmt::Yield(_)
        | Stmt::Commit
        | Stmt::Intro(_, _)
        | Stmt::Spawn(_, _) => Weight::of(0),
    }
}

/// The weight of each of these statements.
pub(crate) fn stmt_weights(
    alloc: Alloc,
    program: &Program,
    actions: &[ActionSums],
    layer: u32,
    proc: &Proc,
    flat: &[&Stmt],
) -> Result<List<Weight>, Memory>
    requires { AllZip (OfAction program.now) program.now.actions actions.now }
    ensures { IfOk result (λ weights. AreWeights weights (map (λ s. layer_weight (program_at program.now layer) proc.now s (out-Stmt s)) (map (λ s. s.now) flat.now))) }
{
    let mut weights = List::new(alloc);
    for stmt in flat {
        weights.push(stmt_weight(alloc, program, actions, layer, proc, stmt)?)?;
    }
    Ok(weights)
}

/// The bits of the choices of each of these statements.
pub(crate) fn all_choices(
    alloc: Alloc,
    program: &Program,
    actions: &[ActionSums],
    layer: u32,
    flat: &[&Stmt],
) -> Result<List<Weight>, Memory>
    requires { AllZip (OfAction program.now) program.now.actions actions.now }
    ensures { IfOk result (λ weights. AreWeights weights (map (λ s. choices_bits (layer_choices (program_at program.now layer) (out-Stmt s))) (map (λ s. s.now) flat.now))) }
{
    let mut weights = List::new(alloc);
    for stmt in flat {
        weights.push(stmt_choices(program, actions, layer, stmt))?;
    }
    Ok(weights)
}
