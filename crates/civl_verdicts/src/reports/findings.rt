// What is found of each condition, line by line.
ghost use Rattle.std.specs.Prelude.{◌≡◌, ◌++◌, OnOk, IfOk};
ghost use Rattle.civl_verdicts.specs.reports.Findings.{initial_line, undecided_line, found_lines, findings_lines, count_line, survey_text};

use crate::reports::counting::{Kind, count};
use crate::reports::refusals::put_no_initial;
use crate::reports::values::put_values;
use crate::reports::writing::{put, put_number};
use crate::{Found, Survey};
use civl_cnf::Log;
use civl_conditions::{Condition, listed, name};
use civl_layers::Layered;
use civl_tree::{List, Memory};
use std::alloc::Global;

/// A line that says what the search for an initial store came to.
fn put_initial(out: &mut Vec<u8>, budget: u32, initial: &Option<Log>) -> Result<(), Memory>
    ensures { OnOk result (out.new.items ≡ out.old.items ++ initial_line budget initial.now) }
{
    match initial {
        None => put(out, b"initial: found\n"),
        Some(_) => {
            put(out, b"initial")?;
            put_undecided(out, budget)
        }
    }
}

/// The end of a line that names what isn't decided.
fn put_undecided(out: &mut Vec<u8>, budget: u32) -> Result<(), Memory>
    ensures { OnOk result (out.new.items ≡ out.old.items ++ undecided_line budget) }
{
    put(out, b": undecided after ")?;
    put_number(out, budget as usize)?;
    put(out, b"\n")
}

/// The lines of a condition: what is found of it, and the values where it fails.
fn put_found(
    alloc: Global,
    out: &mut Vec<u8>,
    src: &Layered,
    budget: u32,
    condition: &Condition,
    found: &Found,
) -> Result<(), Memory>
    ensures { OnOk result (out.new.items ≡ out.old.items ++ found_lines src.now budget condition.now found.now) }
{
    let name = name(alloc, src, condition)?;
    put(out, name.as_slice())?;
    match found {
        Found::Holds => put(out, b": holds\n"),
        Found::Fails(counter) => {
            put(out, b": fails\n")?;
            put_values(alloc, out, src, b"  ", condition, &counter.values)
        }
        Found::Undecided(_) => put_undecided(out, budget),
    }
}

/// The lines of all conditions, in their order.
fn put_findings(
    alloc: Global,
    out: &mut Vec<u8>,
    src: &Layered,
    budget: u32,
    conditions: &List<Condition>,
    findings: &List<Found>,
) -> Result<(), Memory>
    ensures { OnOk result (out.new.items ≡ out.old.items ++ findings_lines src.now budget conditions.now findings.now) }
{
    for at in 0..conditions.len().min(findings.len()) {
        put_found(
            alloc,
            out,
            src,
            budget,
            conditions.get(at),
            findings.get(at),
        )?;
    }
    Ok(())
}

/// The last line: how many conditions hold, how many fail, and how many are undecided.
fn put_count(out: &mut Vec<u8>, findings: &List<Found>) -> Result<(), Memory>
    ensures { OnOk result (out.new.items ≡ out.old.items ++ count_line findings.now) }
{
    put_number(out, count(Kind::Holds, findings.as_slice()))?;
    put(out, b" hold, ")?;
    put_number(out, count(Kind::Fails, findings.as_slice()))?;
    put(out, b" fail, ")?;
    put_number(out, count(Kind::Undecided, findings.as_slice()))?;
    put(out, b" undecided\n")
}

/// What is reported of a program and a survey of its conditions under a budget: what the search for an initial store came to; then
/// for each condition, in the order of the list, what is found of it, and under a condition that fails a line for each of its
/// variables; and last how many conditions hold, fail and are undecided. Where no store is initial, it is the refusal that says so.
///
/// # Errors
///
/// For want of memory.
pub fn report_survey(
    alloc: Global,
    src: &Layered,
    budget: u32,
    survey: &Survey,
) -> Result<Vec<u8>, Memory>
    ensures { IfOk result (λ out. out.items ≡ survey_text src.now budget survey.now) }
{
    let mut out = Vec::new(alloc);
    match survey {
        Survey::NoInitial => {
            put_no_initial(&mut out, src)?;
            Ok(out)
        }
        Survey::Findings(initial, findings) => {
            let conditions = listed(alloc, src)?;
            put_initial(&mut out, budget, initial)?;
            put_findings(alloc, &mut out, src, budget, &conditions, findings)?;
            put_count(&mut out, findings)?;
            Ok(out)
        }
    }
}
