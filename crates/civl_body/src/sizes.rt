//! How many statements there are, where 32 bits say it.
ghost use Rattle.std.specs.Prelude.{◌≡◌, ◌<◌, ◌^◌};
ghost use Rattle.civl_tree.specs.Numbering.{size_of, sizes_of};

use civl_tree::{List, Stmt};

/// How many statements a statement is, with those inside it.
pub fn size(stmt: &Stmt) -> u32
    requires { size_of stmt.now < 2 ^ 32 }
    ensures { result ≡ size_of stmt.now }
{
    civl_meaning::sizes::size(stmt) as u32
}

/// How many statements these are, with those inside them.
pub fn sizes(stmts: &List<Stmt>) -> u32
    requires { sizes_of stmts.now < 2 ^ 32 }
    ensures { result ≡ sizes_of stmts.now }
{
    civl_meaning::sizes::sizes(stmts) as u32
}
