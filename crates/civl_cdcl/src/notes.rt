// What a search notes.
ghost use Rattle.std.specs.Prelude.{IfOk};
ghost use Rattle.civl_cdcl.specs.inner.Notes.{IsClear};

use crate::Memory;
use crate::hints::Hints;
use crate::order::Order;
use crate::restarts::Restarts;
use std::alloc::Global;

/// What a search keeps beside the engine: the order of decisions, when it begins anew, hints for the log, and, for the analysis of a conflict, which variables are seen, and a list of them. Between conflicts none is seen.
#[derive(Drop)]
pub struct Notes {
    pub order: Order,
    pub restarts: Restarts,
    pub hints: Hints,
    pub seen: Vec<bool>,
    pub found: Vec<u32>,
}

impl Notes {
    /// For so many variables, before any conflict.
    pub fn new(alloc: Global, variables: u32) -> Result<Notes, Memory>
        ensures { IfOk result (λ notes. IsClear notes.seen.items variables) }
    {
        let order = Order::new(alloc, variables)?;
        let seen = Vec::from_elem(alloc, false, variables as usize)?;
        Ok(Notes {
            order,
            restarts: Restarts::new(),
            hints: Hints::new(alloc),
            seen,
            found: Vec::new(alloc),
        })
    }
}
