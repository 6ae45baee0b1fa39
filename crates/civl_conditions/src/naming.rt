//! The printed names of conditions.
ghost use Rattle.std.specs.Prelude.{◌≡◌, ◌++◌, OnOk, IfOk, codes, decimal};
ghost use Rattle.civl_conditions.specs.Names.{action_text, proc_text, part_text, step_text, cut_text, target_text, name_text};

use crate::condition::{Condition, Part, Target};
use civl_layers::{Layered, program};
use civl_tree::{Memory, Program};
use itoa::Buffer;
use std::alloc::Global;

/// Puts a text behind others.
///
/// # Errors
///
/// For want of memory.
pub fn put(out: &mut Vec<u8>, text: &[u8]) -> Result<(), Memory>
    ensures { OnOk result (out.new.items ≡ out.old.items ++ text.now) }
{
    out.extend_from_slice(text)?;
    Ok(())
}

/// Puts a number behind others, in decimal.
///
/// # Errors
///
/// For want of memory.
pub fn put_number(out: &mut Vec<u8>, number: u32) -> Result<(), Memory>
    ensures { OnOk result (out.new.items ≡ out.old.items ++ decimal number) }
{
    let mut buffer = Buffer::new();
    out.extend_from_slice(buffer.format(number).as_bytes())?;
    Ok(())
}

/// Puts the name of the action with this number behind others, where there is one.
///
/// # Errors
///
/// For want of memory.
pub fn put_action(out: &mut Vec<u8>, program: &Program, action: u32) -> Result<(), Memory>
    ensures { OnOk result (out.new.items ≡ out.old.items ++ action_text program.now action) }
{
    match program.actions.as_slice().get(action as usize) {
        Some(action) => put(out, action.name.as_slice()),
        None => Ok(()),
    }
}

/// Puts the name of the procedure with this number behind others, where there is one.
///
/// # Errors
///
/// For want of memory.
pub fn put_proc(out: &mut Vec<u8>, program: &Program, proc: u32) -> Result<(), Memory>
    ensures { OnOk result (out.new.items ≡ out.old.items ++ proc_text program.now proc) }
{
    match program.procs.as_slice().get(proc as usize) {
        Some(proc) => put(out, proc.name.as_slice()),
        None => Ok(()),
    }
}

/// The word of a part.
fn part_text(part: Part) -> &'static [u8]
    ensures { result.now ≡ part_text part }
{
    match part {
        Part::Gate => b"gate",
        Part::Invariant => b"invariant",
        Part::Once => b"once",
        Part::Stutter => b"stutter",
        Part::Perform => b"perform",
        Part::Rank => b"rank",
    }
}

/// The kind, which is the text, and the step.
fn put_head(out: &mut Vec<u8>, kind: &[u8], step: u32) -> Result<(), Memory>
    ensures { OnOk result (out.new.items ≡ out.old.items ++ kind.now ++ step_text step) }
{
    put(out, kind)?;
    put(out, b" step ")?;
    put_number(out, step)?;
    put(out, b" ")
}

fn put_pair(out: &mut Vec<u8>, program: &Program, first: u32, second: u32) -> Result<(), Memory>
    ensures { OnOk result (out.new.items ≡ out.old.items ++ action_text program.now first ++ codes " " ++ action_text program.now second) }
{
    put_action(out, program, first)?;
    put(out, b" ")?;
    put_action(out, program, second)
}

fn put_cut(out: &mut Vec<u8>, program: &Program, proc: u32, cut: u32) -> Result<(), Memory>
    ensures { OnOk result (out.new.items ≡ out.old.items ++ cut_text program.now proc cut) }
{
    put_proc(out, program, proc)?;
    put(out, b" from ")?;
    put_number(out, cut)
}

fn put_target(out: &mut Vec<u8>, program: &Program, target: Target) -> Result<(), Memory>
    ensures { OnOk result (out.new.items ≡ out.old.items ++ target_text program.now target) }
{
    match target {
        Target::Invariant(invariant) => {
            put(out, b" invariant ")?;
            put_number(out, invariant)
        }
        Target::Yield(proc, cut) => {
            put(out, b" yield ")?;
            put_proc(out, program, proc)?;
            put(out, b" ")?;
            put_number(out, cut)
        }
    }
}

/// Behind what stands there the printed name of a condition.
#[tactic(auto, unfolding(crate::specs::Names::name_text))]
fn put_name(out: &mut Vec<u8>, program: &Program, condition: &Condition) -> Result<(), Memory>
    ensures { OnOk result (out.new.items ≡ out.old.items ++ name_text program.now condition.now) }
{
    match *condition {
        Condition::Start(step, invariant) => {
            put_head(out, b"K1", step)?;
            put(out, b"invariant ")?;
            put_number(out, invariant)?;
        }
        Condition::Keep(step, action) => {
            put_head(out, b"K2", step)?;
            put_action(out, program, action)?;
        }
        Condition::Pair(number, step, first, second) => {
            put(out, b"K")?;
            put_number(out, number)?;
            put_head(out, b"", step)?;
            put_pair(out, program, first, second)?;
        }
        Condition::Fire(step, action) => {
            put_head(out, b"K8", step)?;
            put_action(out, program, action)?;
        }
        Condition::Path(part, step, proc, cut) => {
            put(out, b"K9 ")?;
            put_head(out, part_text(part), step)?;
            put_cut(out, program, proc, cut)?;
        }
        Condition::Block(step, proc, cut, target) => {
            put_head(out, b"K10", step)?;
            put_cut(out, program, proc, cut)?;
            put_target(out, program, target)?;
        }
        Condition::Act(step, action, target) => {
            put_head(out, b"K11", step)?;
            put_action(out, program, action)?;
            put_target(out, program, target)?;
        }
    }
    Ok(())
}

/// The printed name of a condition: `K` with the number of its kind, and for a path the word of its part; the step; then what
/// the condition is about, the actions and procedures by their names, the invariants and cuts by their numbers. An action or
/// a procedure that there is not has no name, and nothing stands in its place.
///
/// # Errors
///
/// For want of memory.
pub fn name(alloc: Global, src: &Layered, condition: &Condition) -> Result<Vec<u8>, Memory>
    ensures { IfOk result (λ name. name.items ≡ name_text src.now condition.now) }
{
    let mut out = Vec::new(alloc);
    put_name(&mut out, program(src), condition)?;
    Ok(out)
}
