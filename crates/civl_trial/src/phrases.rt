// Phrases of a program's tree: names, expressions, parameters, lists.
ghost use Rattle.std.specs.Prelude.{◌≡◌, List as ListOf, [], ◌∷◌, ◌++◌, IfOk, OnOk, codes, decimal, false};
ghost use Rattle.civl_tree.specs.declared.name.Name.{Name as OfName};
ghost use Rattle.civl_tree.specs.declared.action.Param.{Param as OfParam};
ghost use Rattle.civl_tree.specs.declared.action.Mode.TheVariants as mode;
ghost use Rattle.civl_tree.specs.declared.expr.Expr as expr;
ghost use Rattle.civl_tree.specs.declared.expr.Expr.{Expr as OfExpr};
ghost use Rattle.civl_tree.specs.declared.expr.One.TheVariants.{Not};
ghost use Rattle.civl_trial.specs.Phrases.{Makes};

use civl_tree::{Boxed, Expr, List, Local, Memory, Mode, Name, One, Param, Sort, Two, both};
use itoa::Buffer;
use std::alloc::Global as Alloc;

/// Both parts.
pub fn together<A: Drop, B: Drop>(
    first: Result<A, Memory>,
    second: Result<B, Memory>,
) -> Result<(A, B), Memory>
    ensures { (a : A) (b : B) → Makes first a → Makes second b → Makes result (a, b) }
{
    both(first, second)
}

/// The part in a box.
fn boxed<T: Drop>(alloc: Alloc, part: Result<T, Memory>) -> Result<Boxed<T>, Memory>
    ensures { (a : T) → Makes part a → Makes result a }
{
    Boxed::new(alloc, part?)
}

/// Puts a part behind all others.
pub fn pushed<T: Drop>(parts: &mut List<T>, part: Result<T, Memory>) -> Result<(), Memory>
    ensures { (a : T) → Makes part a → OnOk result (parts.new ≡ parts.old ++ a ∷ []) }
{
    parts.push(part?)
}

/// The list of one part.
pub fn one<T: Drop>(alloc: Alloc, part: Result<T, Memory>) -> Result<List<T>, Memory>
    ensures { (a : T) → Makes part a → Makes result (a ∷ []) }
{
    let mut parts = List::new(alloc);
    parts.push(part?)?;
    Ok(parts)
}

/// The list of two parts.
pub fn pair<T: Drop>(
    alloc: Alloc,
    first: Result<T, Memory>,
    second: Result<T, Memory>,
) -> Result<List<T>, Memory>
    ensures { (a : T) (b : T) → Makes first a → Makes second b → Makes result (a ∷ b ∷ []) }
{
    let mut parts = one(alloc, first)?;
    parts.push(second?)?;
    Ok(parts)
}

/// The list with a part behind it.
pub fn followed<T: Drop>(
    parts: Result<List<T>, Memory>,
    last: Result<T, Memory>,
) -> Result<List<T>, Memory>
    ensures { (a : ListOf T) (b : T) → Makes parts a → Makes last b → Makes result (a ++ b ∷ []) }
{
    let mut parts = parts?;
    parts.push(last?)?;
    Ok(parts)
}

/// The name of a parameter, an output or a local.
pub fn named(alloc: Alloc, text: &[u8]) -> Result<Name, Memory>
    ensures { IfOk result (λ it. it ≡ record { bytes = text.now }) }
{
    Name::from_slice(alloc, text)
}

/// The name of a global, an action or a procedure in a copy: `_` and the copy's number stand behind it.
pub fn of_copy(alloc: Alloc, text: &[u8], copy: u32) -> Result<Name, Memory>
    ensures { IfOk result (λ it. it ≡ record { bytes = text.now ++ codes "_" ++ decimal copy }) }
{
    let mut buffer = Buffer::new();
    let mut bytes = Vec::from_slice(alloc, text)?;
    bytes.extend_from_slice(b"_")?;
    bytes.extend_from_slice(buffer.format(copy).as_bytes())?;
    Ok(Name {
        bytes: List::from_vec(bytes),
    })
}

/// The value of a parameter, an output or a local.
pub fn local(alloc: Alloc, text: &[u8]) -> Result<Expr, Memory>
    ensures { IfOk result (λ it. it ≡ expr.Name (record { bytes = text.now })) }
{
    let name = named(alloc, text)?;
    Ok(Expr::Name(name))
}

/// The value of a global of a copy.
pub fn global(alloc: Alloc, text: &[u8], copy: u32) -> Result<Expr, Memory>
    ensures { IfOk result (λ it. it ≡ expr.Name (record { bytes = text.now ++ codes "_" ++ decimal copy })) }
{
    let name = of_copy(alloc, text, copy)?;
    Ok(Expr::Name(name))
}

/// `( ! part )`
pub fn not(alloc: Alloc, part: Result<Expr, Memory>) -> Result<Expr, Memory>
    ensures { (a : OfExpr) → Makes part a → Makes result (expr.One Not a) }
{
    let part = boxed(alloc, part)?;
    Ok(Expr::One(One::Not, part))
}

/// `( first op second )`
pub fn two(
    alloc: Alloc,
    op: Two,
    first: Result<Expr, Memory>,
    second: Result<Expr, Memory>,
) -> Result<Expr, Memory>
    ensures { (a : OfExpr) (b : OfExpr) → Makes first a → Makes second b → Makes result (expr.Two op a b) }
{
    let parts = together(boxed(alloc, first), boxed(alloc, second))?;
    Ok(Expr::Two(op, parts.0, parts.1))
}

/// `val name : sort`
pub fn val(alloc: Alloc, text: &[u8], sort: Sort) -> Result<Param, Memory>
    ensures { IfOk result (λ it. it ≡ record { mode = mode.Val; name = record { bytes = text.now }; sort = sort }) }
{
    let name = named(alloc, text)?;
    Ok(Param {
        mode: Mode::Val,
        name,
        sort,
    })
}

/// `lend name : sort`
pub fn lend(alloc: Alloc, text: &[u8], sort: Sort) -> Result<Param, Memory>
    ensures { IfOk result (λ it. it ≡ record { mode = mode.Lend; name = record { bytes = text.now }; sort = sort }) }
{
    let name = named(alloc, text)?;
    Ok(Param {
        mode: Mode::Lend,
        name,
        sort,
    })
}

/// `var name : sort ;`
pub fn var(alloc: Alloc, text: &[u8], sort: Sort) -> Result<Local, Memory>
    ensures { IfOk result (λ it. it ≡ record { linear = false; name = record { bytes = text.now }; sort = sort }) }
{
    let name = named(alloc, text)?;
    Ok(Local {
        linear: false,
        name,
        sort,
    })
}

/// What the heading of an action or a procedure says: its name, its parameters and its outputs.
#[derive(Drop)]
pub struct Heading {
    pub name: Name,
    pub params: List<Param>,
    pub outs: List<Param>,
}

/// `name(params) -> (outs)`
pub fn headed(
    name: Result<Name, Memory>,
    params: Result<List<Param>, Memory>,
    outs: Result<List<Param>, Memory>,
) -> Result<Heading, Memory>
    ensures { (n : OfName) (p : ListOf OfParam) (o : ListOf OfParam) → Makes name n → Makes params p → Makes outs o → Makes result (record { name = n; params = p; outs = o }) }
{
    let parts = together(name, together(params, outs))?;
    let (name, (params, outs)) = parts;
    Ok(Heading { name, params, outs })
}
