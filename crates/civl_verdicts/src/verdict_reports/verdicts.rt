// The text of a verdict.
ghost use Rattle.std.specs.Prelude.{◌≡◌, ◌++◌, OnOk, IfOk};
ghost use Rattle.civl_verdicts.specs.verdict_reports.Verdicts.{accepted_text, rejected_text, undecided_text, verdict_text};

use crate::reports::{put, put_formula, put_no_initial, put_number, put_values};
use crate::{Counter, Verdict};
use civl_conditions::{Condition, name};
use civl_layers::Layered;
use civl_tree::Memory;
use std::alloc::Global;

/// How many conditions hold, all of them.
fn put_accepted(out: &mut Vec<u8>, count: usize) -> Result<(), Memory>
    ensures { OnOk result (out.new.items ≡ out.old.items ++ accepted_text count) }
{
    put(out, b"accepted ")?;
    put_number(out, count)?;
    put(out, b" conditions\n")?;
    Ok(())
}

/// A condition that doesn't hold, and values that violate it.
fn put_rejected(
    alloc: Global,
    out: &mut Vec<u8>,
    src: &Layered,
    counter: &Counter,
) -> Result<(), Memory>
    ensures { OnOk result (out.new.items ≡ out.old.items ++ rejected_text src.now counter.now) }
{
    let name = name(alloc, src, &counter.condition)?;
    put(out, b"rejected ")?;
    put(out, name.as_slice())?;
    put(out, b"\n")?;
    put_values(alloc, out, src, b"", &counter.condition, &counter.values)
}

/// What isn't decided, and the budget of its search.
fn put_undecided(
    alloc: Global,
    out: &mut Vec<u8>,
    src: &Layered,
    formula: Option<Condition>,
    budget: u32,
) -> Result<(), Memory>
    ensures { OnOk result (out.new.items ≡ out.old.items ++ undecided_text src.now formula budget) }
{
    put(out, b"undecided ")?;
    put_formula(alloc, out, src, formula)?;
    put(out, b" after ")?;
    put_number(out, budget as usize)?;
    put(out, b"\n")
}

fn put_verdict(
    alloc: Global,
    out: &mut Vec<u8>,
    src: &Layered,
    budget: u32,
    verdict: &Verdict,
) -> Result<(), Memory>
    ensures { OnOk result (out.new.items ≡ out.old.items ++ verdict_text src.now budget verdict.now) }
{
    match verdict {
        Verdict::Accepted(count) => put_accepted(out, *count),
        Verdict::Rejected(counter) => put_rejected(alloc, out, src, counter),
        Verdict::Undecided(formula, _) => put_undecided(alloc, out, src, *formula, budget),
        Verdict::NoInitial => put_no_initial(out, src),
    }
}

/// What is reported of a program and the verdict on it under a budget: how many conditions hold, all of them; the first condition
/// that doesn't hold, with a line for each of its variables; the search that was given up, for an initial store or for values that
/// violate a condition; or that no store is initial.
///
/// # Errors
///
/// For want of memory.
pub fn report_verdict(
    alloc: Global,
    src: &Layered,
    budget: u32,
    verdict: &Verdict,
) -> Result<Vec<u8>, Memory>
    ensures { IfOk result (λ out. out.items ≡ verdict_text src.now budget verdict.now) }
{
    let mut out = Vec::new(alloc);
    put_verdict(alloc, &mut out, src, budget, verdict)?;
    Ok(out)
}
