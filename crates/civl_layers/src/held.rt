// Which locals are held at cuts.

use civl_tree::List;

/// For each procedure, and each of its cuts, the numbers of the locals that are held there, rising. A root's list is
/// empty. A number counts the procedure's parameters, outputs and locals, in this order, from 0.
#[derive(Drop)]
pub struct Held {
    pub cuts: List<List<List<u32>>>,
}
