//! The laws. Each function computes nothing; its clauses are theorems.
ghost use Rattle.civl_reduction.specs.mover_laws.Movers.{RightMoversMove, LeftMoversMove, LeftMoversFire};
ghost use Rattle.civl_reduction.specs.mover_laws.Neighbours.{NeighboursExchange};

/// Where the conditions on movers hold, right movers go behind other actions, and left movers before them and never wait.
pub fn movers_move()
    ensures right { RightMoversMove }
    ensures left { LeftMoversMove }
    ensures fire { LeftMoversFire }
{}

/// Two neighbouring steps of a layer's program are exchanged, where the first is a right mover or the second a left one.
pub fn neighbours_exchange()
    ensures { NeighboursExchange }
{}
