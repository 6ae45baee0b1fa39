// Lines, and the tokens at which they point.
ghost use Rattle.std.specs.Prelude.{◌≡◌, ◌++◌, ◌∷◌, [], ◌<◌, ◌^◌, if◌then◌else◌, length, codes, unwrap_or, IfOk, OnOk};
ghost use Rattle.civl_tree.specs.Numbering.{item_count, init_item, invariant_item, action_item, proc_item};
ghost use Rattle.civl_tree.specs.SpellingProgram.{spell_program};
ghost use Rattle.civl_places.specs.Starts.{item_start, statement_start};
ghost use Rattle.civl_verdicts.specs.models.Text.{listed};
ghost use Rattle.civl_path_stories.specs.Paths.{info};
ghost use Rattle.civl_assumptions.specs.Lines.{apart_line, gate_lines, item_line};
ghost use Rattle.civl_assumptions.specs.inner.Told.{apart_lines, said_lines};

use civl_action_stories::texts::put_listed;
use civl_conditions::paths::is_entry;
use civl_layers::Cut;
use civl_lines::{Kind, Line, Shown};
use civl_places::{Formula, InAction, formula_at, item_token, statement_token};
use civl_reasons::expr_count;
use civl_tree::{List, Memory, Program};
use std::alloc::Global;

// ---- any line

/// A line that tells what happens.
fn info(at: usize, shown: Shown, text: Vec<u8>) -> Line
    ensures { result ≡ info at shown text.items }
{
    Line {
        token: at,
        shown,
        kind: Kind::Info,
        text: List::from_vec(text),
    }
}

/// Puts a line behind the others.
fn push_info(
    alloc: Global,
    lines: &mut Vec<Line>,
    at: usize,
    shown: Shown,
    text: &[u8],
) -> Result<(), Memory>
    ensures { OnOk result (lines.new.items ≡ lines.old.items ++ info at shown text.now ∷ []) }
{
    let text = Vec::from_slice(alloc, text)?;
    lines.push(info(at, shown, text))?;
    Ok(())
}

// ---- items

/// The number of `init`.
pub(crate) fn init_item(program: &Program) -> usize
    ensures number { result ≡ init_item program.now }
    ensures there { result < item_count program.now }
{
    program.globals.len()
}

/// That of an invariant.
pub(crate) fn invariant_item(program: &Program, place: usize) -> usize
    requires short { length (spell_program program.now) < 2 ^ 64 }
    requires there { place < length program.now.invariants }
    ensures number { result ≡ invariant_item program.now place }
    ensures there { result < item_count program.now }
{
    program.globals.len() + 1 + place
}

/// That of an action.
pub(crate) fn action_item(program: &Program, place: usize) -> usize
    requires short { length (spell_program program.now) < 2 ^ 64 }
    requires there { place < length program.now.actions }
    ensures number { result ≡ action_item program.now place }
    ensures there { result < item_count program.now }
{
    program.globals.len() + 1 + program.invariants.len() + place
}

/// That of a procedure.
pub(crate) fn proc_item(program: &Program, place: usize) -> usize
    requires short { length (spell_program program.now) < 2 ^ 64 }
    requires there { place < length program.now.procs }
    ensures number { result ≡ proc_item program.now place }
    ensures there { result < item_count program.now }
{
    program.globals.len() + 1 + program.invariants.len() + program.actions.len() + place
}

/// The token of an item that there is.
fn token_of(program: &Program, item: usize) -> usize
    requires short { length (spell_program program.now) < 2 ^ 64 }
    requires there { item < item_count program.now }
    ensures { result ≡ item_start program.now item }
{
    match item_token(program, item) {
        Some(at) => at,
        None => unreachable!(),
    }
}

/// Puts the line of a declaration behind the others.
pub(crate) fn push_item(
    alloc: Global,
    lines: &mut Vec<Line>,
    program: &Program,
    item: usize,
) -> Result<(), Memory>
    requires short { length (spell_program program.now) < 2 ^ 64 }
    requires there { item < item_count program.now }
    ensures { OnOk result (lines.new.items ≡ lines.old.items ++ item_line program.now item ∷ []) }
{
    push_info(
        alloc,
        lines,
        token_of(program, item),
        Shown::Head,
        b"is assumed",
    )
}

/// What is said of names whose permissions are apart.
fn apart_text(alloc: Global, names: &[List<u8>]) -> Result<Vec<u8>, Memory>
    ensures { IfOk result (λ text. text.items ≡ codes "is assumed: no permission is carried twice by " ++ listed names.now) }
{
    let mut text = Vec::from_slice(alloc, b"is assumed: no permission is carried twice by ")?;
    put_listed(&mut text, names)?;
    Ok(text)
}

/// Puts the line of these names behind the others, at a declaration.
fn push_names(
    alloc: Global,
    lines: &mut Vec<Line>,
    program: &Program,
    item: usize,
    words: usize,
    names: &[List<u8>],
) -> Result<(), Memory>
    requires short { length (spell_program program.now) < 2 ^ 64 }
    requires there { item < item_count program.now }
    ensures { OnOk result (lines.new.items ≡ lines.old.items ++ apart_line program.now item words names.now ∷ []) }
{
    let text = apart_text(alloc, names)?;
    lines.push(info(token_of(program, item), Shown::Tokens(words), text))?;
    Ok(())
}

/// The same where they are two or more.
pub(crate) fn push_apart(
    alloc: Global,
    lines: &mut Vec<Line>,
    program: &Program,
    item: usize,
    words: usize,
    names: &[List<u8>],
) -> Result<(), Memory>
    requires short { length (spell_program program.now) < 2 ^ 64 }
    requires there { item < item_count program.now }
    ensures { OnOk result (lines.new.items ≡ lines.old.items ++ apart_lines program.now item words names.now) }
{
    if names.len() < 2 {
        Ok(())
    } else {
        push_names(alloc, lines, program, item, words, names)
    }
}

// ---- cuts and gates

/// The token of a statement of the procedure with this number.
fn token(program: &Program, number: usize, statement: usize) -> usize
    requires { length (spell_program program.now) < 2 ^ 64 }
    ensures { result ≡ unwrap_or (statement_start program.now number statement) 0 }
{
    match statement_token(program, number, statement) {
        Some(at) => at,
        None => 0,
    }
}

/// Puts the line of a cut behind the others, if it isn't the entry.
pub(crate) fn push_said(
    alloc: Global,
    lines: &mut Vec<Line>,
    program: &Program,
    number: u32,
    text: &[u8],
    cut: Cut,
) -> Result<(), Memory>
    requires { length (spell_program program.now) < 2 ^ 64 }
    ensures { OnOk result (lines.new.items ≡ lines.old.items ++ said_lines program.now number text.now cut) }
{
    if is_entry(cut.kind) {
        return Ok(());
    }
    let at = token(program, number as usize, cut.statement as usize);
    push_info(alloc, lines, at, Shown::Head, text)
}

/// Puts the line of an action's gate behind the others, if the action is there.
pub(crate) fn push_gate(
    alloc: Global,
    lines: &mut Vec<Line>,
    program: &Program,
    number: usize,
    text: &[u8],
) -> Result<(), Memory>
    requires { length (spell_program program.now) < 2 ^ 64 }
    ensures { OnOk result (lines.new.items ≡ lines.old.items ++ gate_lines program.now number text.now) }
{
    match formula_at(program, &Formula::Action(number, InAction::Gate)) {
        Some(part) => push_info(
            alloc,
            lines,
            part.token,
            Shown::Tokens(expr_count(part.expr)),
            text,
        ),
        None => Ok(()),
    }
}
