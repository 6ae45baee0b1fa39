// The bodies of procedures.
ghost use Rattle.std.specs.Prelude.{◌≡◌, ◌<◌, ◌^◌, Some, length, slice_get, IfOk, IfSome};
ghost use Rattle.std.specs.List.{AllZip};
ghost use Rattle.civl_tree.specs.Numbered.{IsNumbered};
ghost use Rattle.civl_tree.specs.Numbering.{sizes_of};
ghost use Rattle.civl_tree.specs.declared.program.Proc.{Proc};
ghost use Rattle.civl_layers.specs.declared.cut.Cut.{Cut};
ghost use Rattle.civl_bodies.specs.Bodies.{AreBodies, ArePassed, IsBody};

use crate::numbers::Numbers;
use civl_conditions::paths::met_from;
use civl_layers::{Cut, Layered, cuts, program};
use civl_names::walks::statements;
use civl_tree::{List, Memory, Proc, Stmt};
use std::alloc::Global;

/// What belongs to a procedure: all its statements in text order, each before those in it, so that the number of a statement is its
/// place; its cuts in their order, which are none for a root; and for each cut the numbers of the statements that some path from
/// there passes.
#[derive(Drop)]
pub struct Body<'a> {
    pub statements: Vec<&'a Stmt>,
    pub cuts: List<Cut>,
    pub passed: Vec<Numbers>,
}

/// The bodies of all procedures of a program, in the order of the procedures.
#[derive(Drop)]
pub struct Bodies<'a> {
    pub procs: Vec<Body<'a>>,
}

/// The numbers of the statements that some path from a cut passes.
fn passed_from(alloc: Global, proc: &Proc, cut: Cut) -> Result<Numbers, Memory>
    requires { sizes_of proc.now.body < 2 ^ 32 }
    ensures { IfOk result (ArePassed proc.now cut) }
{
    let met = met_from(alloc, proc, cut)?;
    let numbers = Numbers::from_slice(alloc, met.passed.as_slice())?;
    Ok(numbers)
}

/// The same of each of these cuts.
fn passed_of(alloc: Global, proc: &Proc, cuts: &[Cut]) -> Result<Vec<Numbers>, Memory>
    requires { sizes_of proc.now.body < 2 ^ 32 }
    ensures { IfOk result (λ passed. AllZip (ArePassed proc.now) cuts.now passed.items) }
{
    let mut passed = Vec::new(alloc);
    for cut in cuts {
        let numbers = passed_from(alloc, proc, *cut)?;
        passed.push(numbers)?;
    }
    Ok(passed)
}

/// The body of the procedure with this number.
fn body_of<'a>(
    alloc: Global,
    src: &'a Layered,
    number: u32,
    proc: &'a Proc,
) -> Result<Body<'a>, Memory>
    requires numbered { IsNumbered src.now }
    requires found { slice_get src.now.procs number ≡ Some proc.now }
    ensures { IfOk result (IsBody proc.now) }
{
    let cuts = cuts(alloc, src, number)?;
    let statements = statements(alloc, &proc.body)?;
    let passed = passed_of(alloc, proc, cuts.as_slice())?;
    Ok(Body {
        statements,
        cuts,
        passed,
    })
}

/// The table of the bodies of a program.
///
/// # Errors
///
/// For want of memory.
pub fn bodies_of(alloc: Global, src: &Layered) -> Result<Bodies<'_>, Memory>
    ensures { IfOk result (AreBodies src.now) }
{
    let items = program(src).procs.as_slice();
    let mut procs = Vec::new(alloc);
    for number in 0..items.len() {
        let body = body_of(alloc, src, number as u32, &items[number])?;
        procs.push(body)?;
    }
    Ok(Bodies { procs })
}

/// The body of the procedure with this number, which exists, in the table of its program.
pub fn body_at<'a, 'b>(bodies: &'b Bodies<'a>, src: &Layered, number: u32) -> &'b Body<'a>
    requires bodies { AreBodies src.now bodies.now }
    requires there { number < length src.now.procs }
    ensures { IfSome (slice_get src.now.procs number) (λ proc. IsBody proc result.now) }
{
    &bodies.procs[number as usize]
}

/// The numbers of the statements that some path from the cut with this number passes, which is one of the body's.
///
/// # Errors
///
/// For want of memory.
pub fn passed_at(alloc: Global, body: &Body<'_>, place: u32) -> Result<Vec<u32>, Memory>
    requires { place < length body.now.passed.items }
    ensures { IfOk result (λ list. (proc : Proc) (cut : Cut) → IsBody proc body.now → slice_get body.now.cuts place ≡ Some cut → ArePassed proc cut list.items) }
{
    let list = body.passed[place as usize].list(alloc)?;
    Ok(list)
}
