// Why a formula is false.
ghost use Rattle.std.specs.Prelude.{◌≡◌, ◌++◌, ◌+◌, ◌<◌, ◌^◌, true, IfOk, OnOk, length, map, codes};
ghost use Rattle.civl_reasons.specs.Reads.{read_names};
ghost use Rattle.civl_tree.specs.Spelling.{spell_expr};
ghost use Rattle.civl_reasons.specs.inner.Told.{read_name, subformula};
ghost use Rattle.civl_lines.specs.Pieces.{named_part_lines, part_line, part_lines, read_text, reads_text};
ghost use Rattle.civl_lines.specs.inner.Named.{told};

use crate::line::{Kind, Line, Shown};
use crate::naming::{Naming, as_written, put_name};
use civl_firing::setting::Bindings;
use civl_reasons::{Part, Reading, expr_count, false_parts, read_names};
use civl_tree::{Expr, List, Memory};
use civl_verdicts::models::put_value_text;
use civl_verdicts::reports::put;
use std::alloc::Global;

/// Puts `, old(name) = value` behind what is there.
fn put_old<B: Bindings>(
    out: &mut Vec<u8>,
    naming: &Naming<'_>,
    bindings: &B,
    read: &Reading<'_>,
) -> Result<(), Memory>
    requires { read.now.is_old ≡ true }
    ensures { OnOk result (out.new.items ≡ out.old.items ++ read_text (told naming.now) (B.scope bindings.now) (read_name read.now)) }
{
    put(out, b", old(")?;
    put_name(out, naming, read.name)?;
    put(out, b") = ")?;
    put_value_text(out, &bindings.old_value(read.name))
}

/// Puts `, name = value` behind what is there, or the same of an old value.
fn put_read<B: Bindings>(
    out: &mut Vec<u8>,
    naming: &Naming<'_>,
    bindings: &B,
    read: &Reading<'_>,
) -> Result<(), Memory>
    ensures { OnOk result (out.new.items ≡ out.old.items ++ read_text (told naming.now) (B.scope bindings.now) (read_name read.now)) }
{
    if read.is_old {
        return put_old(out, naming, bindings, read);
    }
    put(out, b", ")?;
    put_name(out, naming, read.name)?;
    put(out, b" = ")?;
    put_value_text(out, &bindings.value(read.name))
}

/// The same of each of these names.
fn put_reads<B: Bindings>(
    out: &mut Vec<u8>,
    naming: &Naming<'_>,
    bindings: &B,
    reads: &[Reading<'_>],
) -> Result<(), Memory>
    ensures { OnOk result (out.new.items ≡ out.old.items ++ reads_text (told naming.now) (B.scope bindings.now) (map read_name reads.now)) }
{
    for read in reads {
        put_read(out, naming, bindings, read)?;
    }
    Ok(())
}

/// What is said of a part.
fn part_text<B: Bindings>(
    alloc: Global,
    naming: &Naming<'_>,
    bindings: &B,
    expr: &Expr,
) -> Result<List<u8>, Memory>
    ensures { IfOk result (λ text. text ≡ codes "is false"
        ++ reads_text (told naming.now) (B.scope bindings.now) (read_names expr.now)) }
{
    let reads = read_names(alloc, expr)?;
    let mut text = Vec::from_slice(alloc, b"is false")?;
    put_reads(&mut text, naming, bindings, reads.as_slice())?;
    Ok(List::from_vec(text))
}

/// A part of a formula that begins at this token.
fn part_line<B: Bindings>(
    alloc: Global,
    naming: &Naming<'_>,
    bindings: &B,
    token: usize,
    part: &Part<'_>,
) -> Result<Line, Memory>
    requires { token + part.now.token + length (spell_expr part.now.expr.now) < 2 ^ 64 }
    ensures { IfOk result (λ line. line ≡ part_line (told naming.now) (B.scope bindings.now) token (subformula part.now)) }
{
    let text = part_text(alloc, naming, bindings, part.expr)?;
    Ok(Line {
        token: token + part.token,
        shown: Shown::Tokens(expr_count(part.expr)),
        kind: Kind::Info,
        text,
    })
}

/// Tells why a formula is false, behind the lines that are there: its innermost parts that are false under `&&`, `||` and `=>`, each
/// with the values of the names that it reads, which are told so. A formula that is true adds nothing. The token is that at which the
/// formula begins.
///
/// # Errors
///
/// For want of memory.
pub fn push_named_parts<B: Bindings>(
    alloc: Global,
    lines: &mut Vec<Line>,
    naming: &Naming<'_>,
    bindings: &B,
    formula: &Part<'_>,
) -> Result<(), Memory>
    requires { formula.now.token + length (spell_expr formula.now.expr.now) < 2 ^ 64 }
    ensures { OnOk result (lines.new.items ≡ lines.old.items
        ++ named_part_lines (told naming.now) (B.scope bindings.now) (subformula formula.now)) }
{
    let parts = false_parts(alloc, bindings, formula.expr)?;
    for part in parts.as_slice() {
        let line = part_line(alloc, naming, bindings, formula.token, part)?;
        lines.push(line)?;
    }
    Ok(())
}

/// The same with the names as they are.
///
/// # Errors
///
/// For want of memory.
pub fn push_parts<B: Bindings>(
    alloc: Global,
    lines: &mut Vec<Line>,
    bindings: &B,
    formula: &Part<'_>,
) -> Result<(), Memory>
    requires { formula.now.token + length (spell_expr formula.now.expr.now) < 2 ^ 64 }
    ensures { OnOk result (lines.new.items ≡ lines.old.items ++ part_lines (B.scope bindings.now) (subformula formula.now)) }
{
    push_named_parts(alloc, lines, &as_written(), bindings, formula)
}
