// Where a program breaks a static rule.
ghost use Rattle.std.specs.Prelude.{◌≡◌, ◌<◌, ◌^◌, ◌++◌, IfOk, OnOk, length};
ghost use Rattle.civl_tree.specs.SpellingProgram.{spell_program};
ghost use Rattle.civl_lines.specs.Tokens.{AreTokens};
ghost use Rattle.civl_refusals.specs.Refusals.{behind, proc_of_item, layers_rule, linear_rule, names_rule, no_initial_told, place_spot, refusal_told, statement_in, rule_text, rule_told, sorts_rule, yields_rule};

use crate::spot::{Spot, item_at, put_at, put_spot};
use civl_lines::{Form, Text};
use civl_places::statement_token;
use civl_subjects::push_subject;
use civl_tree::{Memory, Program, Refusal};
use civl_verdicts::reports::put;
use std::alloc::Global;

/// What the rules on names and counts forbid.
fn names_rule(code: u32) -> &'static [u8]
    ensures { result.now ≡ names_rule code }
{
    if code == 10 {
        return b"a name is declared or named twice";
    }
    if code == 11 {
        return b"a name isn't in scope as what is needed here";
    }
    b"a count or a number of the header is out of its range"
}

/// What the rules on sorts forbid.
fn sorts_rule(code: u32) -> &'static [u8]
    ensures { result.now ≡ sorts_rule code }
{
    if code == 20 {
        return b"a width, a literal or a range of bits doesn't fit";
    }
    if code == 21 {
        return b"an expression hasn't the sort that its place needs";
    }
    if code == 22 {
        return b"a row's index isn't 1 to 6 bits wide";
    }
    if code == 23 {
        return b"there are too few or too many arguments, results or updates";
    }
    b"the globals up to here have more than 4096 bits"
}

/// What the rules on layers forbid.
fn layers_rule(code: u32) -> &'static [u8]
    ensures { result.now ≡ layers_rule code }
{
    if code == 30 {
        return b"a range of layers, a layer or a step is out of place";
    }
    if code == 31 {
        return b"a global is used where it doesn't exist";
    }
    if code == 32 {
        return b"a call goes to the procedure's own layer, to one above, or to a root";
    }
    if code == 33 {
        return b"an action doesn't exist where it is called or refined";
    }
    if code == 34 {
        return b"the parameters or outputs differ from those of the refined action";
    }
    b"the target of an intro or a linear global doesn't exist where it has to"
}

/// What the rules on linear names forbid.
fn linear_rule(code: u32) -> &'static [u8]
    ensures { result.now ≡ linear_rule code }
{
    if code == 40 {
        return b"an argument for a linear parameter isn't a linear name that is held";
    }
    if code == 41 {
        return b"one name stands for two permissions";
    }
    if code == 42 {
        return b"a linear name isn't held that has to be";
    }
    b"a result or a value goes to a name that may not take it"
}

/// What the rules on yields and movers forbid.
fn yields_rule(code: u32) -> &'static [u8]
    ensures { result.now ≡ yields_rule code }
{
    if code == 50 {
        return b"a right or atomic call may stand behind the block's turning point";
    }
    if code == 51 {
        return b"a yield or a loop stands in a rank loop";
    }
    if code == 52 {
        return b"this statement may not stand in this procedure";
    }
    b"done or old(..) stands where it means nothing"
}

/// What the rule with this code forbids.
fn rule_text(code: u32) -> &'static [u8]
    ensures { result.now ≡ rule_text code }
{
    if code < 20 {
        return names_rule(code);
    }
    if code < 30 {
        return sorts_rule(code);
    }
    if code < 40 {
        return layers_rule(code);
    }
    if code < 50 {
        return linear_rule(code);
    }
    yields_rule(code)
}

/// A number behind so many others, if it is.
fn behind(count: usize, number: usize) -> Option<usize>
    ensures { result ≡ behind count number }
{
    if number < count {
        None
    } else {
        Some(number - count)
    }
}

/// The procedure that an item is, if it is one.
pub(crate) fn proc_of_item(program: &Program, item: usize) -> Option<usize>
    ensures { result ≡ proc_of_item program.now item }
{
    let number = behind(program.globals.len(), item)?;
    let number = behind(1, number)?;
    let number = behind(program.invariants.len(), number)?;
    behind(program.actions.len(), number)
}

/// The token of this statement of an item, where it is a procedure.
fn statement_in(program: &Program, item: usize, statement: usize) -> Option<usize>
    requires { length (spell_program program.now) < 2 ^ 64 }
    ensures { result ≡ statement_in program.now item statement }
{
    let proc = proc_of_item(program, item)?;
    statement_token(program, proc, statement)
}

/// An item by its number, and in a procedure a statement.
pub(crate) fn place_spot(program: &Program, item: usize, statement: usize) -> Spot
    requires { length (spell_program program.now) < 2 ^ 64 }
    ensures { result ≡ place_spot program.now item statement }
{
    Spot {
        item,
        inside: statement_in(program, item, statement),
    }
}

/// What the rule forbids, and what the refusal is about.
fn rule_told(alloc: Global, program: &Program, refusal: Refusal) -> Result<Vec<u8>, Memory>
    ensures { IfOk result (λ said. said.items ≡ rule_told program.now refusal) }
{
    let mut said = Vec::new(alloc);
    put(&mut said, rule_text(refusal.code))?;
    push_subject(alloc, &mut said, program, refusal)?;
    Ok(said)
}

/// Puts the item and the statement that a refusal names, what the rule forbids, and what the refusal is about, behind what
/// is there.
///
/// # Errors
///
/// For want of memory.
pub fn put_refusal(
    alloc: Global,
    out: &mut Vec<u8>,
    form: Form,
    text: &Text<'_>,
    program: &Program,
    refusal: Refusal,
) -> Result<(), Memory>
    requires short { length (spell_program program.now) < 2 ^ 64 }
    requires tokens { AreTokens text.now.bytes.now text.now.tokens.now }
    ensures { OnOk result (out.new.items ≡ out.old.items
        ++ refusal_told form text.now.bytes.now text.now.tokens.now program.now refusal) }
{
    let said = rule_told(alloc, program, refusal)?;
    let spot = place_spot(program, refusal.item as usize, refusal.statement as usize);
    put_spot(alloc, out, form, text, program, spot, &said)
}

/// Puts that no store is initial, at the item of `init`, behind what is there.
///
/// # Errors
///
/// For want of memory.
pub fn put_no_initial(
    out: &mut Vec<u8>,
    form: Form,
    text: &Text<'_>,
    program: &Program,
) -> Result<(), Memory>
    requires short { length (spell_program program.now) < 2 ^ 64 }
    requires tokens { AreTokens text.now.bytes.now text.now.tokens.now }
    ensures { OnOk result (out.new.items ≡ out.old.items
        ++ no_initial_told form text.now.bytes.now text.now.tokens.now program.now) }
{
    let token = item_at(program, program.globals.len());
    put_at(out, form, text, token, b"no store is initial")
}
