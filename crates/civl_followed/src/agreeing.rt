// Values of globals that are the same in a layer.
ghost use Rattle.std.specs.Prelude.{◌≡◌, true, false, IsTrue};
ghost use Rattle.civl_conditions.specs.footprints.Agreement.{AgreeOn, exists_at};

use civl_bits::Value;
use civl_conditions::exists_at;
use civl_tree::Global;

/// Whether two values are the same where the global exists in the layer.
fn agrees(layer: u32, global: &Global, before: Value, after: Value) -> bool
    ensures yes { result ≡ true → IsTrue (exists_at layer global.now) → before ≡ after }
    ensures no { result ≡ false → (IsTrue (exists_at layer global.now) → before ≡ after) → ⊥ }
{
    if exists_at(layer, global) {
        before.same(&after)
    } else {
        true
    }
}

/// Whether both lists have one value for each global, and the same one for those that exist in the layer.
pub fn agree(globals: &[Global], layer: u32, before: &[Value], after: &[Value]) -> bool
    ensures yes { result ≡ true → AgreeOn (exists_at layer) globals.now before.now after.now }
    ensures no { result ≡ false → AgreeOn (exists_at layer) globals.now before.now after.now → ⊥ }
{
    if before.len() != globals.len() {
        return false;
    }
    if after.len() != globals.len() {
        return false;
    }
    for at in 0..globals.len() {
        if !agrees(layer, &globals[at], before[at], after[at]) {
            return false;
        }
    }
    true
}

/// Whether two lists of values are the same.
pub fn are_same(before: &[Value], after: &[Value]) -> bool
    ensures yes { result ≡ true → before.now ≡ after.now }
    ensures no { result ≡ false → before.now ≡ after.now → ⊥ }
{
    if before.len() != after.len() {
        return false;
    }
    for at in 0..before.len() {
        if !before[at].same(&after[at]) {
            return false;
        }
    }
    true
}
