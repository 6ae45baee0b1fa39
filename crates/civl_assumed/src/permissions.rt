// The permissions that linear values carry, and whether some are in two of them.
ghost use Rattle.std.specs.Prelude.{◌≡◌, ◌++◌, ◌∷◌, [], ◌<◌, ◌≤◌, drop, length, nat_eq, OnOk, IfOk, if◌then◌else◌};
ghost use Rattle.std.specs.Int.{bit_at};
ghost use Rattle.std.specs.List.{list_any, list_all};
ghost use Rattle.civl_tree.specs.rules.Width.{is_linear};
ghost use Rattle.civl_meaning.specs.Permissions.{set_bits, permissions_of_word, permissions_of_global, disjoint, pairwise_disjoint, of_globals, of_params};

use civl_bits::Value;
use civl_tree::{Global as GlobalVar, List, Memory, Mode, Param};
use std::alloc::Global;

/// Whether the bit at this place is set.
fn is_set(number: u32, at: u32) -> bool
    requires { at < 32 }
    ensures { result ≡ nat_eq (bit_at number at) 1 }
{
    (number >> at) & 1 == 1
}

/// The places of the set bits among the lowest ones, as many as the width says, which is at most 32.
fn set_bits(alloc: Global, width: u32, number: u32) -> Result<Vec<u32>, Memory>
    requires { width < 33 }
    ensures { IfOk result (λ bits. bits.items ≡ set_bits width number) }
{
    let mut bits = Vec::new(alloc);
    for at in 0..width {
        if is_set(number, at) {
            bits.push(at)?;
        }
    }
    Ok(bits)
}

/// The permissions that a global carries, if it is linear.
///
/// # Errors
///
/// For want of memory.
pub fn of_global(alloc: Global, value: &Value) -> Result<List<u32>, Memory>
    ensures { IfOk result (λ list. list ≡ permissions_of_global value.now) }
{
    match value {
        Value::Word(word) => {
            let bits = set_bits(alloc, word.width(), word.value())?;
            Ok(List::from_vec(bits))
        }
        Value::Bool(_) => Ok(List::new(alloc)),
        Value::Row(_) => Ok(List::new(alloc)),
    }
}

/// The permission that a linear word carries.
///
/// # Errors
///
/// For want of memory.
pub fn of_word(alloc: Global, value: &Value) -> Result<List<u32>, Memory>
    ensures { IfOk result (λ list. list ≡ permissions_of_word value.now) }
{
    let mut list = List::new(alloc);
    if let Value::Word(word) = value {
        list.push(word.value())?;
    }
    Ok(list)
}

/// Puts the permission that a linear word carries behind the others.
///
/// # Errors
///
/// For want of memory.
pub fn push_word(alloc: Global, lists: &mut Vec<List<u32>>, value: &Value) -> Result<(), Memory>
    ensures { OnOk result (lists.new.items ≡ lists.old.items ++ permissions_of_word value.now ∷ []) }
{
    let list = of_word(alloc, value)?;
    lists.push(list)?;
    Ok(())
}

/// Whether a name of this mode is linear.
fn is_linear(mode: Mode) -> bool
    ensures { result ≡ is_linear mode }
{
    match mode {
        Mode::Val => false,
        Mode::Lend => true,
        Mode::Take => true,
        Mode::Give => true,
    }
}

/// The permissions of a global, if it is linear.
fn push_global(
    alloc: Global,
    lists: &mut Vec<List<u32>>,
    global: &GlobalVar,
    value: &Value,
) -> Result<(), Memory>
    ensures { OnOk result (lists.new.items ≡ lists.old.items ++ (if global.now.linear then permissions_of_global value.now ∷ [] else [])) }
{
    if global.linear {
        let list = of_global(alloc, value)?;
        lists.push(list)?;
    }
    Ok(())
}

/// The permissions of each linear global.
pub fn push_globals(
    alloc: Global,
    lists: &mut Vec<List<u32>>,
    globals: &[GlobalVar],
    values: &[Value],
) -> Result<(), Memory>
    ensures { OnOk result (lists.new.items ≡ lists.old.items ++ of_globals globals.now values.now) }
{
    for at in 0..globals.len().min(values.len()) {
        push_global(alloc, lists, &globals[at], &values[at])?;
    }
    Ok(())
}

/// The permission of a parameter, if it is linear.
fn push_param(
    alloc: Global,
    lists: &mut Vec<List<u32>>,
    param: &Param,
    value: &Value,
) -> Result<(), Memory>
    ensures { OnOk result (lists.new.items ≡ lists.old.items ++ (if is_linear param.now.mode then permissions_of_word value.now ∷ [] else [])) }
{
    if is_linear(param.mode) {
        let list = of_word(alloc, value)?;
        lists.push(list)?;
    }
    Ok(())
}

/// The permissions of each linear parameter with these values.
pub fn push_params(
    alloc: Global,
    lists: &mut Vec<List<u32>>,
    params: &[Param],
    values: &[Value],
) -> Result<(), Memory>
    ensures { OnOk result (lists.new.items ≡ lists.old.items ++ of_params params.now values.now) }
{
    for at in 0..params.len().min(values.len()) {
        push_param(alloc, lists, &params[at], &values[at])?;
    }
    Ok(())
}

/// Whether a permission is in a list.
fn is_in(list: &[u32], permission: u32) -> bool
    ensures { result ≡ list_any (nat_eq permission) list.now }
{
    for at in 0..list.len() {
        if permission == list[at] {
            return true;
        }
    }
    false
}

/// Whether no permission is in both lists.
fn are_disjoint(first: &[u32], second: &[u32]) -> bool
    ensures { result ≡ disjoint first.now second.now }
{
    for at in 0..first.len() {
        if is_in(second, first[at]) {
            return false;
        }
    }
    true
}

/// Whether a list is disjoint from each of these, from a place on.
fn is_apart(list: &[u32], lists: &[List<u32>], from: usize) -> bool
    requires { from ≤ length lists.now }
    ensures { result ≡ list_all (disjoint list.now) (drop from lists.now) }
{
    for at in from..lists.len() {
        if !are_disjoint(list, lists[at].as_slice()) {
            return false;
        }
    }
    true
}

/// Whether no permission is in two of the lists.
pub fn are_apart(lists: &[List<u32>]) -> bool
    ensures { result ≡ pairwise_disjoint lists.now }
{
    for at in 0..lists.len() {
        if !is_apart(lists[at].as_slice(), lists, at + 1) {
            return false;
        }
    }
    true
}
