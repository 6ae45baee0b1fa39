// The names of what carries permissions.
ghost use Rattle.std.specs.Prelude.{◌≡◌, ◌++◌, ◌-◌, ◌∷◌, [], codes, flat_map, get_or, OnOk, IfOk};
ghost use Rattle.civl_tree.specs.rules.Names.{names_in_proc};
ghost use Rattle.civl_linear.specs.Cuts.{all_held};
ghost use Rattle.civl_firing.specs.Names.{names_of};
ghost use Rattle.civl_conditions.specs.footprints.Agreement.{exists_at};
ghost use Rattle.civl_assumed.specs.Among.{test_of};
ghost use Rattle.civl_assumptions.specs.Names.{at_start, is_among, of_callee, of_globals, of_numbers, of_params, of_target, of_thread};

use civl_assumed::stores::{Among, is_among};
use civl_conditions::Target;
use civl_firing::names::{Names, proc};
use civl_layers::{Held, Layered, program};
use civl_path_stories::naming::name_at;
use civl_tree::{Global, List, Memory, Param, Proc, Program, Thread};
use civl_types::is_linear;
use std::alloc::Global as Alloc;

/// A word with a name behind it.
fn text_of(alloc: Alloc, word: &[u8], name: &[u8]) -> Result<List<u8>, Memory>
    ensures { IfOk result (λ text. text ≡ word.now ++ name.now) }
{
    let mut text = Vec::from_slice(alloc, word)?;
    text.extend_from_slice(name)?;
    Ok(List::from_vec(text))
}

/// The same behind the other texts.
fn push_name(
    alloc: Alloc,
    names: &mut Vec<List<u8>>,
    word: &[u8],
    name: &[u8],
) -> Result<(), Memory>
    ensures { OnOk result (names.new.items ≡ names.old.items ++ (word.now ++ name.now) ∷ []) }
{
    let text = text_of(alloc, word, name)?;
    names.push(text)?;
    Ok(())
}

/// Whether a global is linear and among these.
fn is_carrier(among: Among, global: &Global) -> bool
    ensures { result ≡ is_among (test_of among) global.now }
{
    is_among(among, global) && global.linear
}

/// The names of the linear globals among these.
pub(crate) fn push_globals(
    alloc: Alloc,
    names: &mut Vec<List<u8>>,
    among: Among,
    globals: &[Global],
) -> Result<(), Memory>
    ensures { OnOk result (names.new.items ≡ names.old.items ++ of_globals (test_of among) globals.now) }
{
    for global in globals {
        if is_carrier(among, global) {
            push_name(alloc, names, &[], global.name.as_slice())?;
        }
    }
    Ok(())
}

/// The names of the linear globals of the lower program of a step.
pub(crate) fn push_lower(
    alloc: Alloc,
    names: &mut Vec<List<u8>>,
    program: &Program,
    step: u32,
) -> Result<(), Memory>
    ensures { OnOk result (names.new.items ≡ names.old.items ++ of_globals (exists_at (step - 1)) program.now.globals) }
{
    let among = Among::Layer(step.saturating_sub(1));
    push_globals(alloc, names, among, program.globals.as_slice())
}

/// The names of the linear parameters, each behind a word.
pub(crate) fn push_params(
    alloc: Alloc,
    names: &mut Vec<List<u8>>,
    word: &[u8],
    params: &[Param],
) -> Result<(), Memory>
    ensures { OnOk result (names.new.items ≡ names.old.items ++ of_params word.now params.now) }
{
    for param in params {
        if is_linear(param.mode) {
            push_name(alloc, names, word, param.name.as_slice())?;
        }
    }
    Ok(())
}

/// The names of a procedure's parameters, outputs and locals.
#[tactic(auto, using(civl_firing::proofs::Joining::appending))]
fn names_of<'a>(proc: &'a Proc) -> Names<'a>
    ensures { names_of result ≡ names_in_proc proc.now }
{
    Names {
        globals: &[],
        params: proc.params.as_slice(),
        choices: &[],
        outs: proc.outs.as_slice(),
        locals: proc.locals.as_slice(),
        behind: &[],
    }
}

/// The names of a procedure that have these numbers, each behind a word.
pub(crate) fn push_numbers(
    alloc: Alloc,
    names: &mut Vec<List<u8>>,
    word: &[u8],
    proc: &Proc,
    numbers: &[u32],
) -> Result<(), Memory>
    ensures { OnOk result (names.new.items ≡ names.old.items ++ of_numbers word.now proc.now numbers.now) }
{
    let known = names_of(proc);
    for number in numbers {
        push_name(alloc, names, word, name_at(&known, *number as usize))?;
    }
    Ok(())
}

/// The word before the names of a procedure's parameters.
fn callee_word(alloc: Alloc, proc: &Proc) -> Result<Vec<u8>, Memory>
    ensures { IfOk result (λ word. word.items ≡ proc.now.name.bytes ++ codes ".") }
{
    let mut word = Vec::from_slice(alloc, proc.name.as_slice())?;
    word.extend_from_slice(b".")?;
    Ok(word)
}

/// `PROC.name`, of the linear parameters of a procedure.
fn push_callee(alloc: Alloc, names: &mut Vec<List<u8>>, proc: &Proc) -> Result<(), Memory>
    ensures { OnOk result (names.new.items ≡ names.old.items ++ of_callee proc.now) }
{
    let word = callee_word(alloc, proc)?;
    push_params(alloc, names, word.as_slice(), proc.params.as_slice())
}

/// The same of the procedure that a declared thread calls.
fn push_thread(
    alloc: Alloc,
    names: &mut Vec<List<u8>>,
    program: &Program,
    thread: &Thread,
) -> Result<(), Memory>
    ensures { OnOk result (names.new.items ≡ names.old.items ++ of_thread program.now thread.now) }
{
    let procs = program.procs.as_slice();
    match procs.get(proc(procs, &thread.callee)) {
        Some(callee) => push_callee(alloc, names, callee),
        None => Ok(()),
    }
}

/// The names of all linear globals, and of the linear arguments of the declared threads.
pub(crate) fn push_start(
    alloc: Alloc,
    names: &mut Vec<List<u8>>,
    program: &Program,
) -> Result<(), Memory>
    ensures { OnOk result (names.new.items ≡ names.old.items ++ at_start program.now) }
{
    push_globals(alloc, names, Among::All, program.globals.as_slice())?;
    push_threads(alloc, names, program)
}

/// The names of the linear arguments of the declared threads.
fn push_threads(alloc: Alloc, names: &mut Vec<List<u8>>, program: &Program) -> Result<(), Memory>
    ensures { OnOk result (names.new.items ≡ names.old.items ++ flat_map (of_thread program.now) program.now.threads) }
{
    for thread in program.threads.as_slice() {
        push_thread(alloc, names, program, thread)?;
    }
    Ok(())
}

/// The numbers of the locals that are held at a cut of a procedure.
pub(crate) fn held_at(held: &Held, number: u32, cut: u32) -> &[u32]
    ensures { result.now ≡ get_or (get_or held.now.cuts number []) cut [] }
{
    match held.cuts.as_slice().get(number as usize) {
        Some(cuts) => match cuts.as_slice().get(cut as usize) {
            Some(numbers) => numbers.as_slice(),
            None => &[],
        },
        None => &[],
    }
}

/// `other.name`, of what another thread holds at the target.
pub(crate) fn push_target(
    alloc: Alloc,
    names: &mut Vec<List<u8>>,
    src: &Layered,
    held: &Held,
    target: Target,
) -> Result<(), Memory>
    requires held { held.now.cuts ≡ all_held src.now }
    ensures { OnOk result (names.new.items ≡ names.old.items ++ of_target src.now target) }
{
    match target {
        Target::Invariant(_) => Ok(()),
        Target::Yield(number, cut) => match program(src).procs.as_slice().get(number as usize) {
            Some(proc) => push_numbers(alloc, names, b"other.", proc, held_at(held, number, cut)),
            None => Ok(()),
        },
    }
}
