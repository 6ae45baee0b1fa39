// What is decided of a formula.

use civl_bits::Value;
use civl_cnf::Log;
use civl_tree::List;

/// What is decided of a formula.
#[derive(Drop)]
pub enum Decision {
    /// No values of its variables make it true.
    Never,
    /// These make it true: one for each of its variables, in their order.
    At(List<Value>),
    /// The search learned as many clauses as were allowed; here they are.
    Spent(Log),
}
