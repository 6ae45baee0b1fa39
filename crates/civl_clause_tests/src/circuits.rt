// The circuit of each operator, over bools and words of 1 and of 3 bits, is made where memory is there.
ghost use Rattle.std.specs.Prelude.{◌≡◌, ◌≤◌, ◌+◌, ◌^◌, Some, IsSome, IsTrue};
ghost use Rattle.civl_tree.specs.rules.Sorts.{one_sort, two_sort, slice_sort, widen_sort, join_sort};
ghost use Rattle.civl_tree.specs.rules.StoreSize.{bits_of};
ghost use Rattle.civl_firing.specs.values.Values.{is_sort};
ghost use Rattle.civl_circuits.specs.Circuits.{IsOne};
ghost use Rattle.civl_symbolic.specs.Symbolic.{sort_of, is_flat, IsIn};

use civl_circuits::{Circuit, start};
use civl_cnf::{Lit, Memory};
use civl_symbolic::{Symbolic, binary, join, pick, slice, unary, variable, widen};
use civl_tree::{One, Sort, Two};
use std::alloc::Global;
use std::test::Fail;

/// An operator, with operands of one sort.
#[derive(Clone, Copy)]
enum Operator {
    One(One),
    Two(Two),
    Pick,
    Slice(u32, u32),
    Widen(u32),
    Join,
}

const ON_BOOLS: [Operator; 7] = [
    Operator::One(One::Not),
    Operator::Two(Two::And),
    Operator::Two(Two::Or),
    Operator::Two(Two::Implies),
    Operator::Two(Two::Eq),
    Operator::Two(Two::Ne),
    Operator::Pick,
];

const ON_WORDS: [Operator; 24] = [
    Operator::One(One::Flip),
    Operator::One(One::Minus),
    Operator::Two(Two::Add),
    Operator::Two(Two::Sub),
    Operator::Two(Two::Mul),
    Operator::Two(Two::Udiv),
    Operator::Two(Two::Urem),
    Operator::Two(Two::BitAnd),
    Operator::Two(Two::BitOr),
    Operator::Two(Two::BitXor),
    Operator::Two(Two::Shl),
    Operator::Two(Two::Shr),
    Operator::Two(Two::Sar),
    Operator::Two(Two::Lt),
    Operator::Two(Two::Le),
    Operator::Two(Two::Slt),
    Operator::Two(Two::Sle),
    Operator::Two(Two::Eq),
    Operator::Two(Two::Ne),
    Operator::Pick,
    Operator::Slice(0, 0),
    Operator::Widen(3),
    Operator::Widen(32),
    Operator::Join,
];

const ON_THREE_BITS: [Operator; 4] = [
    Operator::Slice(2, 0),
    Operator::Slice(2, 1),
    Operator::Slice(1, 1),
    Operator::Slice(1, 0),
];

fn one_fits(op: One, sort: Sort) -> bool
    ensures { IsTrue result → IsSome (one_sort op (Some sort)) }
{
    match sort {
        Sort::Bool => matches!(op, One::Not),
        Sort::Word(_) => matches!(op, One::Flip | One::Minus),
        Sort::Row(_, _) => false,
    }
}

fn two_fits(op: Two, sort: Sort) -> bool
    ensures { IsTrue result → IsSome (two_sort op (Some sort) (Some sort)) }
{
    match sort {
        Sort::Bool => matches!(op, Two::And | Two::Or | Two::Implies | Two::Eq | Two::Ne),
        Sort::Word(_) => !matches!(op, Two::And | Two::Or | Two::Implies),
        Sort::Row(_, _) => false,
    }
}

fn slice_fits(sort: Sort, high: u32, low: u32) -> bool
    ensures { IsTrue result → IsSome (slice_sort (Some sort) high low) }
{
    match sort {
        Sort::Word(width) => low <= high && high < width,
        _ => false,
    }
}

fn widen_fits(sort: Sort, wider: u32) -> bool
    ensures { IsTrue result → IsSome (widen_sort (Some sort) wider) }
{
    match sort {
        Sort::Word(width) => width <= wider && wider <= 32,
        _ => false,
    }
}

fn join_fits(sort: Sort) -> bool
    ensures { IsTrue result → IsSome (join_sort (Some sort) (Some sort)) }
{
    match sort {
        Sort::Word(width) => width <= 16,
        _ => false,
    }
}

/// The operator's circuit; `None` where the sort doesn't fit.
fn circuit(
    gates: &mut Circuit,
    alloc: Global,
    one: Lit,
    operator: Operator,
    sort: Sort,
    c: &Symbolic,
    a: &Symbolic,
    b: &Symbolic,
) -> Result<Option<Symbolic>, Memory>
    requires room { gates.old.variables ≤ 2 ^ 20 }
    requires one { IsOne gates.old one }
    requires c { IsIn gates.old c.now }
    requires a { IsIn gates.old a.now }
    requires b { IsIn gates.old b.now }
    requires bool { sort_of c.now ≡ Sort.Bool }
    requires first { sort_of a.now ≡ sort }
    requires second { sort_of b.now ≡ sort }
{
    match operator {
        Operator::One(op) if one_fits(op, sort) => Ok(Some(unary(gates, alloc, one, op, a)?)),
        Operator::Two(op) if two_fits(op, sort) => Ok(Some(binary(gates, alloc, one, op, a, b)?)),
        Operator::Pick => Ok(Some(pick(gates, alloc, c, a, b)?)),
        Operator::Slice(high, low) if slice_fits(sort, high, low) => {
            Ok(Some(slice(alloc, a, high, low)?))
        }
        Operator::Widen(wider) if widen_fits(sort, wider) => {
            Ok(Some(widen(alloc, one, a, wider)?))
        }
        Operator::Join if join_fits(sort) => Ok(Some(join(alloc, a, b)?)),
        _ => Ok(None),
    }
}

/// Whether the operator has a circuit over variables of this sort.
fn is_made(alloc: Global, operator: Operator, sort: Sort, bits: u32) -> Result<bool, Memory>
    requires flat { IsTrue (is_flat sort) }
    requires limits { IsTrue (is_sort sort) }
    requires bits { bits_of sort ≡ bits }
    requires few { bits ≤ 3 }
{
    let c = variable(alloc, 0, Sort::Bool)?;
    let a = variable(alloc, 1, sort)?;
    let b = variable(alloc, 1 + bits, sort)?;
    let (mut gates, one) = start(alloc, 1 + 2 * bits)?;
    let made = circuit(&mut gates, alloc, one, operator, sort, &c, &a, &b)?;
    Ok(made.is_some())
}

/// The place of the first of the operators that has none.
fn first_unmade(
    alloc: Global,
    operators: &[Operator],
    sort: Sort,
    bits: u32,
) -> Result<Option<usize>, Memory>
    requires flat { IsTrue (is_flat sort) }
    requires limits { IsTrue (is_sort sort) }
    requires bits { bits_of sort ≡ bits }
    requires few { bits ≤ 3 }
{
    for at in 0..operators.len() {
        if !is_made(alloc, operators[at], sort, bits)? {
            return Ok(Some(at));
        }
    }
    Ok(None)
}

#[test]
fn operators_have_circuits(rt: HostRuntime) -> Result<(), Fail> {
    let alloc = rt.alloc();
    assert_eq!(rt;
        first_unmade(alloc, ON_BOOLS.as_slice(), Sort::Bool, 1)?,
        None
    );
    assert_eq!(rt;
        first_unmade(alloc, ON_WORDS.as_slice(), Sort::Word(1), 1)?,
        None
    );
    assert_eq!(rt;
        first_unmade(alloc, ON_WORDS.as_slice(), Sort::Word(3), 3)?,
        None
    );
    assert_eq!(rt;
        first_unmade(alloc, ON_THREE_BITS.as_slice(), Sort::Word(3), 3)?,
        None
    );
    Ok(())
}
