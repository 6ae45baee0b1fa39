// What carries permissions out of an action, and the one that comes out twice or from nowhere.
ghost use Rattle.std.specs.Prelude.{◌≡◌, ◌++◌, ◌∷◌, [], ◌<◌, ◌≤◌, ℕ, List as ListOf};
ghost use Rattle.std.specs.Prelude.{drop, length, nat_eq, option_copied, OnOk, IfOk, if◌then◌else◌};
ghost use Rattle.std.specs.List.{list_any};
ghost use Rattle.civl_tree.specs.rules.Width.{is_linear};
ghost use Rattle.civl_meaning.specs.Permissions.{permissions_of_word, permissions_of_global};
ghost use Rattle.civl_linear.specs.Modes.{is_lent};
ghost use Rattle.civl_clashes.specs.Losses.{carrier_of, shared, twice, made, nowhere, loss_among};
ghost use Rattle.civl_clashes.specs.declared.violations.Carried.{Carried as Carrying};

use crate::violations::{Carried, Carrier, Loss};

/// Whether a permission is in a list.
fn is_in(list: &[u32], permission: u32) -> bool
    ensures { result ≡ list_any (nat_eq permission) list.now }
{
    for at in 0..list.len() {
        if permission == list[at] {
            return true;
        }
    }
    false
}

/// The first carrier from a place on that carries a permission.
fn carrier_of(carried: &[Carried], from: usize, permission: u32) -> Option<Carrier>
    requires { from ≤ length carried.now }
    ensures { result ≡ carrier_of permission (drop from carried.now) }
{
    for at in from..carried.len() {
        if is_in(carried[at].permissions.as_slice(), permission) {
            return Some(carried[at].carrier);
        }
    }
    None
}

/// The first of these permissions that a carrier from a place on carries too.
fn shared(carrier: Carrier, permissions: &[u32], carried: &[Carried], from: usize) -> Option<Loss>
    requires { from ≤ length carried.now }
    ensures { result ≡ shared carrier permissions.now (drop from carried.now) }
{
    for at in 0..permissions.len() {
        if let Some(other) = carrier_of(carried, from, permissions[at]) {
            return Some(Loss::Twice(permissions[at], carrier, other));
        }
    }
    None
}

/// The first permission that two of these carry.
fn twice(carried: &[Carried]) -> Option<Loss>
    ensures { result ≡ twice carried.now }
{
    for at in 0..carried.len() {
        let held = carried[at].permissions.as_slice();
        if let Some(loss) = shared(carried[at].carrier, held, carried, at + 1) {
            return Some(loss);
        }
    }
    None
}

/// The first of these permissions that isn't among those that go in.
fn made(carrier: Carrier, permissions: &[u32], incoming: &[u32]) -> Option<Loss>
    ensures { result ≡ made carrier permissions.now incoming.now }
{
    for at in 0..permissions.len() {
        if !is_in(incoming, permissions[at]) {
            return Some(Loss::Nowhere(permissions[at], carrier));
        }
    }
    None
}

/// The first permission of these that isn't among those that go in.
fn nowhere(carried: &[Carried], incoming: &[u32]) -> Option<Loss>
    ensures { result ≡ nowhere carried.now incoming.now }
{
    for at in 0..carried.len() {
        let held = carried[at].permissions.as_slice();
        if let Some(loss) = made(carried[at].carrier, held, incoming) {
            return Some(loss);
        }
    }
    None
}

/// The first permission that comes out twice; where none does, the first that didn't go in.
pub(crate) fn loss_among(carried: &[Carried], incoming: &[u32]) -> Option<Loss>
    ensures { result ≡ loss_among carried.now incoming.now }
{
    match twice(carried) {
        Some(loss) => Some(loss),
        None => nowhere(carried, incoming),
    }
}
