// The names that an expression reads.
ghost use Rattle.std.specs.Prelude.{◌≡◌, IfOk, OnOk, map};
ghost use Rattle.civl_reasons.specs.Reads.{same_read, reads_of, read_names};
ghost use Rattle.civl_reasons.specs.inner.Told.{read_name, is_among, with_read, with_reads};

use civl_tree::{Expr, Memory, Name};
use std::alloc::Global;

/// A name as it is read.
#[derive(Clone, Copy)]
pub struct Reading<'e> {
    pub name: &'e Name,
    /// Whether it is read as `old(name)`.
    pub is_old: bool,
}

/// Whether two readings are the same.
fn is_same(one: &Reading<'_>, other: &Reading<'_>) -> bool
    ensures { result ≡ same_read (read_name one.now) (read_name other.now) }
{
    one.name.is_same(other.name) && one.is_old == other.is_old
}

/// Whether a reading is among these.
fn is_among(found: &[Reading<'_>], read: &Reading<'_>) -> bool
    ensures { result ≡ is_among (map read_name found.now) (read_name read.now) }
{
    for other in found {
        if is_same(other, read) {
            return true;
        }
    }
    false
}

/// Adds a reading, unless it is there.
fn add_read<'e>(found: &mut Vec<Reading<'e>>, read: Reading<'e>) -> Result<(), Memory>
    ensures { OnOk result (map read_name found.new.items ≡ with_read (map read_name found.old.items) (read_name read.entry)) }
{
    if !is_among(found.as_slice(), &read) {
        found.push(read)?;
    }
    Ok(())
}

/// Adds the readings of an expression.
#[tactic(auto, using(crate::proofs::Once::reading))]
fn add_reads<'e>(expr: &'e Expr, found: &mut Vec<Reading<'e>>) -> Result<(), Memory>
    ensures { OnOk result (map read_name found.new.items ≡ with_reads (map read_name found.old.items) (reads_of expr.now)) }
{
    match expr {
        Expr::Name(name) => add_read(
            found,
            Reading {
                name,
                is_old: false,
            },
        ),
        Expr::Old(name) => add_read(found, Reading { name, is_old: true }),
        Expr::One(_, a) => add_reads(a.get(), found),
        Expr::Fill(_, a) => add_reads(a.get(), found),
        Expr::Slice(a, _, _) => add_reads(a.get(), found),
        Expr::Widen(a, _) => add_reads(a.get(), found),
        Expr::Two(_, a, b) => {
            add_reads(a.get(), found)?;
            add_reads(b.get(), found)
        }
        Expr::Get(a, b) => {
            add_reads(a.get(), found)?;
            add_reads(b.get(), found)
        }
        Expr::Join(a, b) => {
            add_reads(a.get(), found)?;
            add_reads(b.get(), found)
        }
        Expr::Pick(a, b, c) => {
            add_reads(a.get(), found)?;
            add_reads(b.get(), found)?;
            add_reads(c.get(), found)
        }
        Expr::Set(a, b, c) => {
            add_reads(a.get(), found)?;
            add_reads(b.get(), found)?;
            add_reads(c.get(), found)
        }
        _ => Ok(()),
    }
}

/// The names that an expression reads, each once, in the order of the text; a name that is read both as `name` and as
/// `old(name)` is there in both ways. `done` and `old(done)` are no names.
///
/// # Errors
///
/// For want of memory.
#[tactic(auto, using(crate::proofs::Once::from_none))]
pub fn read_names<'e>(alloc: Global, expr: &'e Expr) -> Result<Vec<Reading<'e>>, Memory>
    ensures { IfOk result (λ found. map read_name found.items ≡ read_names expr.now) }
{
    let mut found = Vec::new(alloc);
    add_reads(expr, &mut found)?;
    Ok(found)
}
