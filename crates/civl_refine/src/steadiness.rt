//! What blocks and actions have to keep under other threads, as terms: K1, K10 and K11. The term of a condition's violation is true
//! exactly at the values of its variables that violate it ([`violation`]).

mod acting;
mod apart;
mod blocks;
mod kept;
mod makers;
mod violations;
mod yielding;

pub use violations::violation;
