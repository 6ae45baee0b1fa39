//! Initial stores, permissions and the programs of the layers.
ghost use Rattle.civl_meaning.specs.examples.Pool.{EmptyPoolIsInitial, OtherPoolsAreNot, PoolCarriesItsBits, ThirteenIsInitial, TwoIsNot, DropRuns, PlainValuesCarryNothing, DisjointSets};
ghost use Rattle.civl_meaning.specs.examples.Spinlock.{TwoThreadsAreInitial, OneNumberTwice, BodiesByLayer, NamesByLayer};

/// A linear global carries its set bits, a linear argument its value.
pub fn pool()
    ensures empty { EmptyPoolIsInitial }
    ensures others { OtherPoolsAreNot }
    ensures bits { PoolCarriesItsBits }
    ensures thirteen { ThirteenIsInitial }
    ensures two { TwoIsNot }
    ensures drop { DropRuns }
    ensures plain { PlainValuesCarryNothing }
    ensures disjoint { DisjointSets }
{}

/// Two threads with permissions of their own, and with the same one.
pub fn spinlock()
    ensures two { TwoThreadsAreInitial }
    ensures twice { OneNumberTwice }
{}

/// Which calls mean bodies in the programs of the layers.
pub fn layers()
    ensures bodies { BodiesByLayer }
    ensures names { NamesByLayer }
{}
