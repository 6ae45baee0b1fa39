// The terms of a program's formulas, counted at all values of their variables, and what the formulas weigh.
ghost use Rattle.std.specs.Prelude.{◌≡◌, IsTrue, IfOk, IfSome};
ghost use Rattle.std.specs.List.{Contains};
ghost use Rattle.civl_tree.specs.Numbered.{IsNumbered};
ghost use Rattle.civl_tree.specs.SpellingDomain.{allows_program};
ghost use Rattle.civl_tree.specs.rules.Rules.{Keeps};
ghost use Rattle.civl_linear.specs.LinearRules.{linear_rules};
ghost use Rattle.civl_linear.specs.Cuts.{all_held};
ghost use Rattle.civl_bodies.specs.Bodies.{AreBodies};
ghost use Rattle.civl_conditions.specs.Listed.{conditions};
ghost use Rattle.civl_weights.specs.sums.Tables.{OfProgram};

use crate::valuations::{count, valuation};
use civl_bits::Value;
use civl_bodies::{Bodies, bodies_of};
use civl_conditions::{Condition, listed, name};
use civl_layers::{Held, Layered, layered};
use civl_lex::tokens;
use civl_maker::Maker;
use civl_parser::parse;
use civl_terms::value;
use civl_tree::{List, Program};
use civl_types::check;
use civl_verdicts::judging::{Made, Makes};
use civl_weights::sums::steps::{first_sums, sums_at};
use civl_weights::sums::tables::{Tables, work_out};
use civl_weights::{step_of, weigh, weigh_initial};
use civl_yields::verify::{Admitted, admit, locals_held, source};
use std::alloc::Global as Alloc;
use std::test::Fail;

// ---- terms

/// How many terms there are, at how many lists of values they have a truth value, at how many it is true, and the sum of the numbers
/// of these.
#[derive(Clone, Copy)]
struct Tally {
    formulas: u32,
    values: u32,
    trues: u32,
    sum: u64,
}

/// Whether the term is true at these values, where it is one of its graph and has a truth value.
fn truth(alloc: Alloc, made: &Made, given: &List<Value>) -> Result<Option<bool>, Fail> {
    if made.id >= made.terms.len() {
        return Ok(None);
    }
    match value(alloc, &made.terms, made.id, given)? {
        Value::Bool(truth) => Ok(Some(truth)),
        _ => Ok(None),
    }
}

/// Counts the values with this number.
fn tally_at(alloc: Alloc, made: &Made, number: u32, tally: &mut Tally) -> Result<(), Fail> {
    let given = valuation(alloc, made.sorts.as_slice(), number)?;
    let Some(truth) = truth(alloc, made, &given)? else {
        return Ok(());
    };
    tally.values = tally.values.saturating_add(1);
    if truth {
        tally.trues = tally.trues.saturating_add(1);
        tally.sum = tally.sum.saturating_add(u64::from(number));
    }
    Ok(())
}

/// Counts a term and all values of its variables, where these are few.
fn tally_all(alloc: Alloc, made: &Made, tally: &mut Tally) -> Result<(), Fail> {
    let Some(count) = count(made.sorts.as_slice()) else {
        return Ok(());
    };
    tally.formulas = tally.formulas.saturating_add(1);
    for number in 0..count {
        tally_at(alloc, made, number, tally)?;
    }
    Ok(())
}

// ---- programs

/// Counts the term that is made of a condition.
fn tally_condition(
    alloc: Alloc,
    src: &Layered,
    held: &Held,
    bodies: &Bodies<'_>,
    condition: &Condition,
    tally: &mut Tally,
) -> Result<(), Fail>
    requires written { IsTrue (allows_program src.now) }
    requires linear { Keeps linear_rules src.now }
    requires held { held.now.cuts ≡ all_held src.now }
    requires bodies { AreBodies src.now bodies.now }
    requires listed { Contains (conditions src.now) condition.now }
{
    let made = Maker.violation(alloc, src, held, bodies, condition)?;
    tally_all(alloc, &made, tally)
}

/// Counts the term that a store is initial.
fn tally_initial(alloc: Alloc, src: &Layered, tally: &mut Tally) -> Result<(), Fail> {
    let made = Maker.initial(alloc, src)?;
    tally_all(alloc, &made, tally)
}

/// Whether the printed name of a condition begins so.
fn is_named(alloc: Alloc, src: &Layered, condition: &Condition, front: &str) -> Result<bool, Fail> {
    let name = name(alloc, src, condition)?;
    Ok(name.as_slice().starts_with(front.as_bytes()))
}

/// Counts the terms of the conditions whose names begin so.
fn tally_named(
    alloc: Alloc,
    src: &Layered,
    held: &Held,
    bodies: &Bodies<'_>,
    list: &List<Condition>,
    front: &str,
    tally: &mut Tally,
) -> Result<(), Fail>
    requires written { IsTrue (allows_program src.now) }
    requires linear { Keeps linear_rules src.now }
    requires held { held.now.cuts ≡ all_held src.now }
    requires bodies { AreBodies src.now bodies.now }
    requires listed { list.now ≡ conditions src.now }
{
    for condition in list.as_slice() {
        if is_named(alloc, src, condition, front)? {
            tally_condition(alloc, src, held, bodies, condition, tally)?;
        }
    }
    Ok(())
}

// ---- weights

/// The weight of a condition.
fn weight(alloc: Alloc, src: &Layered, tables: &Tables, condition: &Condition) -> Result<u32, Fail>
    requires { OfProgram src.now tables.now }
{
    let first = first_sums(alloc, src)?;
    let step = sums_at(alloc, src, first, step_of(condition))?;
    let weight = weigh(alloc, src, tables, &step, condition)?;
    Ok(weight.number)
}

/// The weights of the conditions whose names begin so, each behind a blank.
fn weights_named(
    alloc: Alloc,
    src: &Layered,
    tables: &Tables,
    list: &List<Condition>,
    front: &str,
) -> Result<String, Fail>
    requires { OfProgram src.now tables.now }
{
    let mut weights = String::new(alloc);
    for condition in list.as_slice() {
        if is_named(alloc, src, condition, front)? {
            let weight = weight(alloc, src, tables, condition)?;
            weights.push_str(format!(in alloc; " {weight}")?.as_str())?;
        }
    }
    Ok(weights)
}

/// The weights of the formulas whose names begin so.
fn weights(
    alloc: Alloc,
    src: &Layered,
    tables: &Tables,
    list: &List<Condition>,
    front: &str,
) -> Result<String, Fail>
    requires { OfProgram src.now tables.now }
{
    if front == "initial" {
        let weight = weigh_initial(tables).number;
        return Ok(format!(in alloc; " {weight}")?);
    }
    weights_named(alloc, src, tables, list, front)
}

// ---- rows

/// What is found of the formulas whose names begin so.
fn line(
    alloc: Alloc,
    src: &Layered,
    held: &Held,
    bodies: &Bodies<'_>,
    tables: &Tables,
    list: &List<Condition>,
    front: &str,
) -> Result<String, Fail>
    requires written { IsTrue (allows_program src.now) }
    requires linear { Keeps linear_rules src.now }
    requires held { held.now.cuts ≡ all_held src.now }
    requires bodies { AreBodies src.now bodies.now }
    requires tables { OfProgram src.now tables.now }
    requires listed { list.now ≡ conditions src.now }
{
    let mut tally = Tally {
        formulas: 0,
        values: 0,
        trues: 0,
        sum: 0,
    };
    if front == "initial" {
        tally_initial(alloc, src, &mut tally)?;
    } else {
        tally_named(alloc, src, held, bodies, list, front, &mut tally)?;
    }
    let Tally {
        formulas,
        values,
        trues,
        sum,
    } = tally;
    let weights = weights(alloc, src, tables, list, front)?;
    let line = format!(in alloc;
        "{front}: {formulas} formulas, {trues} of {values} values, sum {sum}, weights{weights}"
    )?;
    Ok(line)
}

/// What is found of the formulas whose names begin as each of the rows does, up to the colon.
fn lines(
    alloc: Alloc,
    src: &Layered,
    held: &Held,
    bodies: &Bodies<'_>,
    tables: &Tables,
    list: &List<Condition>,
    rows: &str,
) -> Result<String, Fail>
    requires written { IsTrue (allows_program src.now) }
    requires linear { Keeps linear_rules src.now }
    requires held { held.now.cuts ≡ all_held src.now }
    requires bodies { AreBodies src.now bodies.now }
    requires tables { OfProgram src.now tables.now }
    requires listed { list.now ≡ conditions src.now }
{
    let mut lines = String::new(alloc);
    for row in rows.split("\n") {
        if let Some((front, _)) = row.split_once(":") {
            let line = line(alloc, src, held, bodies, tables, list, front)?;
            lines.push_str("\n")?;
            lines.push_str(line.as_str())?;
        }
    }
    Ok(lines)
}

/// The same of a program that keeps the static rules.
fn lines_of(alloc: Alloc, admitted: &Admitted, rows: &str) -> Result<String, Fail>
    requires written { IsTrue (allows_program admitted.now) }
{
    let src = source(admitted);
    let list = listed(alloc, src)?;
    let bodies = bodies_of(alloc, src)?;
    let held = locals_held(admitted);
    let tables = work_out(alloc, src, held)?;
    lines(alloc, src, held, &bodies, &tables, &list, rows)
}

/// The program that a text spells.
fn read(alloc: Alloc, text: &str) -> Result<Option<Program>, Fail>
    ensures written { IfOk result (λ found. IfSome found (λ p. IsTrue (allows_program p))) }
    ensures numbered { IfOk result (λ found. IfSome found IsNumbered) }
{
    let bytes = text.as_bytes();
    if bytes.len() > 1_048_576 {
        return Ok(None);
    }
    let tokens = tokens(alloc, bytes)?;
    let program = parse(alloc, tokens.as_slice())?;
    Ok(Some(program))
}

/// A program that keeps the static rules.
fn admitted(alloc: Alloc, program: Program) -> Result<Admitted, Fail>
    requires { IsNumbered program }
    ensures { IfOk result (λ admitted. admitted ≡ program) }
{
    let typed = check(alloc, program)?;
    let src = layered(typed)?;
    let admitted = admit(alloc, src)?;
    Ok(admitted)
}

/// The same of the program that a text spells.
pub(crate) fn found_in(alloc: Alloc, text: &str, rows: &str) -> Result<String, Fail> {
    let Some(program) = read(alloc, text)? else {
        return Ok(String::new(alloc));
    };
    let admitted = admitted(alloc, program)?;
    lines_of(alloc, &admitted, rows)
}
