// The table of gates that were built.
ghost use Rattle.std.specs.Prelude.{◌≡◌, ◌<◌, ◌≤◌, ◌+◌, IfSome};
ghost use Rattle.civl_cnf.specs.ClauseSet.{ClauseSet};
ghost use Rattle.indexmap.specs.IndexMap.{spare, get, insert_entry};
ghost use Rattle.civl_circuits.specs.Hashing.{AreOutputs, IsOutput};

use crate::gate::{Gate, Operand};
use civl_cnf::Lit;
use indexmap::IndexMap;
use std::hash::Hash;

/// The value at a key.
fn value_at<K: Eq + Hash>(outputs: &IndexMap<K, Lit>, key: &K) -> Option<Lit>
    ensures { result ≡ get K.eq outputs.now key.now }
{
    outputs.get(key).copied()
}

/// Puts a value at a key, where there is room.
fn put<K: Eq + Hash + Drop>(outputs: &mut IndexMap<K, Lit>, key: K, output: Lit)
    requires room { 0 < spare outputs.old }
    ensures entries { outputs.new.entries ≡ insert_entry K.eq outputs.old.entries key output }
    ensures spare { spare outputs.old ≤ spare outputs.new + 1 }
{
    outputs.insert(key, output).unwrap();
}

/// The output of a gate, if it was built.
pub(crate) fn find(outputs: &IndexMap<Gate, Lit>, gate: &Gate) -> Option<Lit>
    ensures { IfSome result (λ output. (set : ClauseSet) → AreOutputs set outputs.now.entries → IsOutput set gate.now output) }
{
    let _operand: Option<Operand> = None;
    value_at(outputs, gate)
}

/// Keeps the output of a gate, where there is room.
pub(crate) fn keep(outputs: &mut IndexMap<Gate, Lit>, gate: Gate, output: Lit)
    requires room { 0 < spare outputs.old }
    ensures kept { (set : ClauseSet) → AreOutputs set outputs.old.entries → IsOutput set gate output → AreOutputs set outputs.new.entries }
    ensures spare { spare outputs.old ≤ spare outputs.new + 1 }
{
    let _operand: Option<Operand> = None;
    put(outputs, gate, output);
}
