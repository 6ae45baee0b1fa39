// The tokens at which the entries and the moves of a script begin.
ghost use Rattle.std.specs.Prelude.{◌≡◌, ◌<◌, ◌^◌, length, map, take};
ghost use Rattle.civl_tree.specs.Spelling.{enclosed, joined};
ghost use Rattle.civl_tree.specs.SpellingScript.{spell_entry, spell_literal, spell_script, spell_step, spell_value};
ghost use Rattle.civl_refusals.specs.Scripts.{entry_start, part_start, spell_row, step_start};

use civl_places::program_count;
use civl_tree::{Entry, Literal, Script, Told};

// ---- counts

/// How many tokens a literal has.
fn literal_count(literal: &Literal) -> usize
    ensures { result ≡ length (spell_literal literal.now) }
{
    match literal {
        Literal::Flag(true) => 1,
        Literal::Flag(false) => 1,
        Literal::Number(_, _) => 3,
    }
}

/// How many these literals have.
fn literals_count(literals: &[Literal]) -> usize
    requires { length (joined (map spell_literal literals.now)) < 2 ^ 64 }
    ensures { result ≡ length (joined (map spell_literal literals.now)) }
{
    let mut sum = 0;
    for literal in literals {
        sum += literal_count(literal);
    }
    sum
}

/// How many tokens a row has.
fn row_count(cells: &[Literal]) -> usize
    requires { length (spell_row cells.now) < 2 ^ 64 }
    ensures { result ≡ length (spell_row cells.now) }
{
    literals_count(cells) + cells.len().saturating_sub(1) + 2
}

/// How many tokens a value has.
fn value_count(value: &Entry) -> usize
    requires { length (spell_value value.now) < 2 ^ 64 }
    ensures { result ≡ length (spell_value value.now) }
{
    let cells = value.cells.as_slice();
    if value.row {
        row_count(cells)
    } else {
        literals_count(cells)
    }
}

/// How many these values have, without the commas between them.
fn values_count(values: &[Entry]) -> usize
    requires { length (joined (map spell_value values.now)) < 2 ^ 64 }
    ensures { result ≡ length (joined (map spell_value values.now)) }
{
    let mut sum = 0;
    for value in values {
        sum += value_count(value);
    }
    sum
}

/// How many tokens an entry has.
#[tactic(auto, using(civl_places::proofs::Counts::counts))]
fn entry_count(entry: &Entry) -> usize
    requires { length (spell_entry entry.now) < 2 ^ 64 }
    ensures { result ≡ length (spell_entry entry.now) }
{
    value_count(entry) + 3
}

/// How many these entries have.
fn entries_count(entries: &[Entry]) -> usize
    requires { length (joined (map spell_entry entries.now)) < 2 ^ 64 }
    ensures { result ≡ length (joined (map spell_entry entries.now)) }
{
    let mut sum = 0;
    for entry in entries {
        sum += entry_count(entry);
    }
    sum
}

/// How many tokens the choices of a move have, with the commas and the parentheses.
fn choices_count(choices: &[Entry]) -> usize
    requires { length (enclosed spell_value choices.now) < 2 ^ 64 }
    ensures { result ≡ length (enclosed spell_value choices.now) }
{
    values_count(choices) + choices.len().saturating_sub(1) + 2
}

/// How many tokens a move has.
#[tactic(auto, using(civl_places::proofs::Counts::counts))]
fn step_count(step: &Told) -> usize
    requires { length (spell_step step.now) < 2 ^ 64 }
    ensures { result ≡ length (spell_step step.now) }
{
    choices_count(step.choices.as_slice()) + 3
}

/// How many these moves have.
fn steps_count(steps: &[Told]) -> usize
    requires { length (joined (map spell_step steps.now)) < 2 ^ 64 }
    ensures { result ≡ length (joined (map spell_step steps.now)) }
{
    let mut sum = 0;
    for step in steps {
        sum += step_count(step);
    }
    sum
}

// ---- starts

/// The token at which the first entry begins, or what stands in its place.
#[tactic(auto, using(civl_places::proofs::Counts::counts))]
fn entries_start(script: &Script) -> usize
    requires { length (spell_script script.now) < 2 ^ 64 }
    ensures { result ≡ entry_start script.now 0 }
{
    program_count(&script.program) + 1
}

/// The token at which an entry begins that there is.
fn entry_start(script: &Script, number: usize) -> usize
    requires short { length (spell_script script.now) < 2 ^ 64 }
    requires there { number < length script.now.store }
    ensures { result ≡ entry_start script.now number }
{
    entries_start(script) + entries_count(&script.store.as_slice()[..number])
}

/// The token at which the first move begins, or the end of the script.
fn steps_start(script: &Script) -> usize
    requires { length (spell_script script.now) < 2 ^ 64 }
    ensures { result ≡ step_start script.now 0 }
{
    entries_start(script) + entries_count(script.store.as_slice())
}

/// The first of these moves, so many or all.
fn first_steps(steps: &[Told], count: usize) -> &[Told]
    ensures { result.now ≡ take count steps.now }
{
    if count >= steps.len() {
        return steps;
    }
    &steps[..count]
}

/// The token at which a move begins, or the end of the script.
fn step_start(script: &Script, number: usize) -> usize
    requires { length (spell_script script.now) < 2 ^ 64 }
    ensures { result ≡ step_start script.now number }
{
    steps_start(script) + steps_count(first_steps(script.moves.as_slice(), number))
}

/// The token, counted from 0, at which the entry with this number begins in the spelling of the script, or the move that has it behind
/// the entries; the end of the script where there are no more.
pub fn part_start(script: &Script, number: usize) -> usize
    requires { length (spell_script script.now) < 2 ^ 64 }
    ensures { result ≡ part_start script.now number }
{
    let entries = script.store.len();
    if number < entries {
        entry_start(script, number)
    } else {
        step_start(script, number - entries)
    }
}
