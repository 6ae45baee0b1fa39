//! Parts of lists of values, where these may be short.
ghost use Rattle.std.specs.Prelude.{◌≡◌, take, drop};

use civl_bits::Value;

/// The values from a place on.
pub fn behind(values: &[Value], from: usize) -> &[Value]
    ensures { result.now ≡ drop from values.now }
{
    if from < values.len() {
        &values[from..]
    } else {
        &[]
    }
}

/// So many values, or all where there are fewer.
pub fn first(values: &[Value], count: usize) -> &[Value]
    ensures { result.now ≡ take count values.now }
{
    if count < values.len() {
        &values[..count]
    } else {
        values
    }
}
