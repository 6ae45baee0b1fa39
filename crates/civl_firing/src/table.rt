// The values of an expression of bools in all stores.
ghost use Rattle.std.specs.Prelude.{◌≡◌, ◌<◌, ◌≤◌, ◌^◌, ℕ, length, slice_index_or, false, IfOk};
ghost use Rattle.civl_firing.specs.Truth.{place_of, truth_of, one_truth, two_truth};
ghost use Rattle.civl_firing.specs.Table.{IsTabled, EachStoreNumbered, bit_of};

use crate::truth::{one, place, two};
use civl_tree::{Expr, List, Memory, Name, One, Two};
use std::alloc::Global;

/// So many copies of a value.
fn constant(alloc: Global, size: usize, value: bool) -> Result<Vec<bool>, Memory>
    ensures { IfOk result (λ t. (length t.items ≡ size) × ((j : ℕ) → j < size → slice_index_or t.items j false ≡ value)) }
{
    let mut values = Vec::new(alloc);
    while values.len() < size {
        values.push(value)?;
    }
    Ok(values)
}

/// The bits at this place of the numbers below the size.
fn bits(alloc: Global, size: usize, place: usize) -> Result<Vec<bool>, Memory>
    requires { place < 32 }
    ensures { IfOk result (λ t. (length t.items ≡ size) × ((j : ℕ) → j < size → slice_index_or t.items j false ≡ bit_of place j)) }
{
    let mut values = Vec::new(alloc);
    for number in 0..size {
        values.push((number / (1 << place)) % 2 == 1)?;
    }
    Ok(values)
}

/// The values of a name in all stores.
#[tactic(auto, using(crate::proofs::Places::stored))]
fn named(alloc: Global, names: &List<Name>, name: &Name, size: usize) -> Result<Vec<bool>, Memory>
    requires few { length names.now ≤ 10 }
    requires size { size ≡ 2 ^ length names.now }
    ensures { IfOk result (λ t. IsTabled (length names.now) (λ store. slice_index_or store (place_of names.now name.now) false) t.items) }
{
    let at = place(names, name);
    if at < names.len() {
        bits(alloc, size, at)
    } else {
        constant(alloc, size, false)
    }
}

fn apply_one(op: One, a: &mut Vec<bool>)
    ensures length { length a.new.items ≡ length a.old.items }
    ensures values { (j : ℕ) → j < length a.old.items → slice_index_or a.new.items j false ≡ one_truth op (slice_index_or a.old.items j false) }
{
    for at in 0..a.len() {
        a[at] = one(op, a[at]);
    }
}

fn apply_two(op: Two, a: &mut Vec<bool>, b: &Vec<bool>)
    requires { length a.old.items ≡ length b.now.items }
    ensures length { length a.new.items ≡ length a.old.items }
    ensures values { (j : ℕ) → j < length a.old.items → slice_index_or a.new.items j false ≡ two_truth op (slice_index_or a.old.items j false) (slice_index_or b.now.items j false) }
{
    for at in 0..a.len() {
        a[at] = two(op, a[at], b[at]);
    }
}

fn table(alloc: Global, expr: &Expr, names: &List<Name>, size: usize) -> Result<Vec<bool>, Memory>
    requires few { length names.now ≤ 10 }
    requires size { size ≡ 2 ^ length names.now }
    ensures { IfOk result (λ t. IsTabled (length names.now) (λ store. truth_of names.now store expr.now) t.items) }
{
    match expr {
        Expr::Name(name) => named(alloc, names, name, size),
        Expr::True => constant(alloc, size, true),
        Expr::One(op, a) => {
            let mut a = table(alloc, a.get(), names, size)?;
            apply_one(*op, &mut a);
            Ok(a)
        }
        Expr::Two(op, a, b) => {
            let mut a = table(alloc, a.get(), names, size)?;
            let b = table(alloc, b.get(), names, size)?;
            apply_two(*op, &mut a, &b);
            Ok(a)
        }
        _ => constant(alloc, size, false),
    }
}

/// The values of an expression in all stores of the names, the store with the number j at place j: its first name has
/// the lowest bit of j. There are at most 10 names, so at most 1,024 stores.
///
/// # Errors
///
/// For want of memory.
pub fn truth_table(alloc: Global, expr: &Expr, names: &List<Name>) -> Result<Vec<bool>, Memory>
    requires { length names.now ≤ 10 }
    ensures { IfOk result (λ t. IsTabled (length names.now) (λ store. truth_of names.now store expr.now) t.items) }
{
    table(alloc, expr, names, 1 << names.len())
}

/// Every store has a number, so a table has a value for each.
pub fn each_store_is_numbered()
    ensures { EachStoreNumbered }
{}
