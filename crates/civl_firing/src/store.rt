// Stores.

use civl_bits::Value;
use civl_tree::List;

/// A store: one value for each global of the source, of all layers, in text order.
#[derive(Drop)]
pub struct Store {
    pub values: List<Value>,
}
