//! The laws. Each function computes nothing; its clauses are theorems.
ghost use Rattle.civl_reduction.specs.exchanges.Exchange.{StepsExchange};

/// Two steps of different threads that are there before both, and don't both spawn, may be exchanged where the calls of actions in
/// them may be, or something fails before.
pub fn steps_exchange()
    ensures { StepsExchange }
{}
