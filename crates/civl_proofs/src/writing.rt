// Certificates that are written.
ghost use Rattle.std.specs.Prelude.{◌≡◌, ◌+◌, ◌++◌, codes, decimal, IfOk, OnOk};
ghost use Rattle.civl_proofs.specs.Text.{IsCertificate, MayBeHeld, canonical, clause_line, clause_lines, literal_word, sign_of};

use crate::Memory;
use civl_cnf::{Clause, Cnf, Lit, Log};
use itoa::Buffer;
use std::alloc::Global;

fn put(out: &mut Vec<u8>, text: &[u8]) -> Result<(), Memory>
    ensures { OnOk result (out.new.items ≡ out.old.items ++ text.now) }
{
    out.extend_from_slice(text)?;
    Ok(())
}

fn put_number(out: &mut Vec<u8>, number: usize) -> Result<(), Memory>
    ensures { OnOk result (out.new.items ≡ out.old.items ++ decimal number) }
{
    let mut buffer = Buffer::new();
    out.extend_from_slice(buffer.format(number).as_bytes())?;
    Ok(())
}

/// A literal's sign, `-` where it is negative.
fn put_sign(out: &mut Vec<u8>, positive: bool) -> Result<(), Memory>
    ensures { OnOk result (out.new.items ≡ out.old.items ++ sign_of positive) }
{
    if positive { Ok(()) } else { put(out, b"-") }
}

/// A literal, and a blank.
fn put_lit(out: &mut Vec<u8>, lit: Lit) -> Result<(), Memory>
    ensures { OnOk result (out.new.items ≡ out.old.items ++ (literal_word lit ++ codes " ")) }
{
    put_sign(out, lit.positive())?;
    put_number(out, lit.variable() as usize + 1)?;
    put(out, b" ")
}

/// The line of a clause.
fn put_clause(out: &mut Vec<u8>, clause: &[Lit]) -> Result<(), Memory>
    ensures { OnOk result (out.new.items ≡ out.old.items ++ clause_line clause.now) }
{
    for lit in clause {
        put_lit(out, *lit)?;
    }
    put(out, b"0\n")
}

/// The lines of clauses.
fn put_clauses(out: &mut Vec<u8>, clauses: &[Clause]) -> Result<(), Memory>
    ensures { OnOk result (out.new.items ≡ out.old.items ++ clause_lines clauses.now) }
{
    for clause in clauses {
        put_clause(out, clause.lits())?;
    }
    Ok(())
}

/// The text, piece by piece.
fn written(alloc: Global, cnf: &Cnf, log: &Log) -> Result<Vec<u8>, Memory>
    ensures { IfOk result (λ out. out.items ≡ canonical cnf.now log.now) }
{
    let mut out = Vec::new(alloc);
    put(&mut out, b"p cnf ")?;
    put_number(&mut out, cnf.variables() as usize)?;
    put(&mut out, b" ")?;
    put_number(&mut out, cnf.len())?;
    put(&mut out, b"\n")?;
    put_clauses(&mut out, cnf.clauses())?;
    put(&mut out, b"log\n")?;
    put_clauses(&mut out, log.clauses())?;
    Ok(out)
}

/// The canonical text of a certificate: the line `p cnf V C` with the numbers of variables and of clauses, a line for each clause of the clause set, the line `log`, and a line for each clause of the log. In a clause's line stand its literals' numbers, counted from 1 and negative for a negation, and `0`, with one blank between them.
///
/// Where there are at most 10,000,000 variables and 100,000,000 clauses, and the log's variables are the clause set's, `read_certificate` reads just this clause set and this log from it.
///
/// # Errors
///
/// For want of memory.
pub fn certificate(alloc: Global, cnf: &Cnf, log: &Log) -> Result<Vec<u8>, Memory>
    ensures text { IfOk result (λ out. out.items ≡ canonical cnf.now log.now) }
    ensures certificate { MayBeHeld cnf.now log.now → IfOk result (λ out. IsCertificate out.items cnf.now log.now) }
{
    let out = written(alloc, cnf, log)?;
    Ok(out)
}
