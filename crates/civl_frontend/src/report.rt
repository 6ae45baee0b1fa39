// Parts of reports that commands have in common.
ghost use Rattle.std.specs.Prelude.{◌≡◌, ◌++◌, OnOk, IfOk, decimal};
ghost use Rattle.civl_verdicts.specs.reports.Lines.{line};
ghost use Rattle.civl_frontend.specs.Report.{too_long_text, fault_text, refusal_text, misfit_text, failing_text};

use crate::reader::Fault;
use civl_tree::{Memory, Refusal};
use civl_verdicts::reports::{put, put_number};
use std::alloc::Global;

/// Puts a line that ends with a number behind what is there.
///
/// # Errors
///
/// For want of memory.
pub fn put_place(out: &mut Vec<u8>, text: &[u8], place: usize) -> Result<(), Memory>
    ensures { OnOk result (out.new.items ≡ out.old.items ++ line (text.now ++ decimal place)) }
{
    put(out, text)?;
    put_number(out, place)?;
    put(out, b"\n")
}

/// A line with the code, the place and the number of a fault.
fn put_fault(out: &mut Vec<u8>, fault: Fault) -> Result<(), Memory>
    ensures { OnOk result (out.new.items ≡ out.old.items ++ fault_text fault) }
{
    match fault {
        Fault::NoToken(place) => put_place(out, b"refused E02 at byte ", place),
        Fault::NotHere(place) => put_place(out, b"refused E03 at token ", place),
        Fault::Deep(place) => put_place(out, b"refused E04 at token ", place),
    }
}

/// What is reported of a text that is longer than it may be, which is so many bytes (E01).
///
/// # Errors
///
/// For want of memory.
pub fn report_long(alloc: Global, most: usize) -> Result<Vec<u8>, Memory>
    ensures { IfOk result (λ out. out.items ≡ too_long_text most) }
{
    let mut out = Vec::new(alloc);
    put(&mut out, b"refused E01 over ")?;
    put_number(&mut out, most)?;
    put(&mut out, b" bytes\n")?;
    Ok(out)
}

/// What is reported of a text that is no program, script or outline (E02 to E04).
///
/// # Errors
///
/// For want of memory.
pub fn report_fault(alloc: Global, fault: Fault) -> Result<Vec<u8>, Memory>
    ensures { IfOk result (λ out. out.items ≡ fault_text fault) }
{
    let mut out = Vec::new(alloc);
    put_fault(&mut out, fault)?;
    Ok(out)
}

fn put_refusal(out: &mut Vec<u8>, refusal: Refusal) -> Result<(), Memory>
    ensures { OnOk result (out.new.items ≡ out.old.items ++ refusal_text refusal) }
{
    put(out, b"refused E")?;
    put_number(out, refusal.code as usize)?;
    put(out, b" at item ")?;
    put_number(out, refusal.item as usize)?;
    put(out, b" statement ")?;
    put_number(out, refusal.statement as usize)?;
    put(out, b"\n")
}

/// What is reported of a program that breaks a static rule.
///
/// # Errors
///
/// For want of memory.
pub fn report_refusal(alloc: Global, refusal: Refusal) -> Result<Vec<u8>, Memory>
    ensures { IfOk result (λ out. out.items ≡ refusal_text refusal) }
{
    let mut out = Vec::new(alloc);
    put_refusal(&mut out, refusal)?;
    Ok(out)
}

/// What is reported of a script whose store or moves don't fit (E80).
///
/// # Errors
///
/// For want of memory.
pub fn report_misfit(alloc: Global, number: usize) -> Result<Vec<u8>, Memory>
    ensures { IfOk result (λ out. out.items ≡ misfit_text number) }
{
    let mut out = Vec::new(alloc);
    put_place(&mut out, b"refused E80 at entry ", number)?;
    Ok(out)
}

/// Puts a line that says which thread fails behind what is there.
///
/// # Errors
///
/// For want of memory.
pub fn put_failing(out: &mut Vec<u8>, failing: Option<u32>) -> Result<(), Memory>
    ensures { OnOk result (out.new.items ≡ out.old.items ++ failing_text failing) }
{
    match failing {
        Some(thread) => put_place(out, b"failing ", thread as usize),
        None => put(out, b"not failing\n"),
    }
}
