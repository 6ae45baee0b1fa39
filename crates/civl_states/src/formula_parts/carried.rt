// The permissions of linear values, as bits.
ghost use Rattle.std.specs.Prelude.{◌≡◌, ◌+◌, ◌*◌, ◌≤◌, ◌^◌, ℕ, List, [], ◌∷◌, ◌++◌, flat_map, None, Some, IsSome, IfOk, OnOk};
ghost use Rattle.civl_bits.specs.declared.value.Value.{Value};
ghost use Rattle.civl_tree.specs.declared.expr.Sort.TheVariants.{Bool as Truth, Word};
ghost use Rattle.civl_tree.specs.rules.Count.{permission_limit};
ghost use Rattle.civl_meaning.specs.Permissions.{permissions_of_word, permissions_of_global, disjoint};
ghost use Rattle.civl_terms.specs.Graphs.{sort_at};
ghost use Rattle.civl_terms.specs.Building.{Grows};
ghost use Rattle.civl_terms.specs.Weights.{graph_weight};
ghost use Rattle.civl_conditions.specs.Permissions.{included};
ghost use Rattle.civl_states.specs.formula_parts.Said.{Env, IsSaid, IsTest};
ghost use Rattle.civl_states.specs.formula_parts.Masks.{Masks, AreCarried, CanCarry, joining_weight};

use crate::formula_parts::tests::both;
use civl_bits::Value as Constant;
use civl_firing::values::literal;
use civl_terms::{Id, Memory, Terms};
use civl_tree::Two;

/// What some items carry, each a linear word or a linear global: a word whose bits are 1 at their permissions, unless there
/// are no items; and whether no permission is in two of them.
#[derive(Clone, Copy)]
pub struct Carried {
    pub mask: Option<Id>,
    pub apart: Id,
}

/// Whether no permission is in both of two masks.
#[tactic(auto, using(civl_terms::proofs::Growing::growth))]
fn are_disjoint(terms: &mut Terms, bits: u32, a: Id, b: Id) -> Result<Id, Memory>
    requires a { sort_at terms.old a ≡ Some (Word bits) }
    requires b { sort_at terms.old b ≡ Some (Word bits) }
    ensures test { IfOk result (λ id. (f g : Env → List ℕ) → Masks terms.old bits a f → Masks terms.old bits b g → IsTest terms.new id (λ env. disjoint (f env) (g env))) }
    ensures sorted { IfOk result (λ id. sort_at terms.new id ≡ Some Truth) }
    ensures grows { Grows terms.old terms.new }
    ensures weighs { OnOk result (graph_weight terms.new ≤ graph_weight terms.old + 2 * bits) }
{
    let _count = terms.len();
    let shared = terms.two(Two::BitAnd, a, b)?;
    let none = terms.constant(literal(0, bits))?;
    let test = terms.two(Two::Eq, shared, none)?;
    Ok(test)
}

/// One more item, with this mask, behind others.
#[tactic(auto, using(civl_terms::proofs::Growing::growth))]
fn with_more(terms: &mut Terms, bits: u32, mask: Id, apart: Id, item: Id) -> Result<Carried, Memory>
    requires mask { sort_at terms.old mask ≡ Some (Word bits) }
    requires apart { sort_at terms.old apart ≡ Some Truth }
    requires item { sort_at terms.old item ≡ Some (Word bits) }
    ensures carried { IfOk result (λ c. (f : Env → List (List ℕ)) (g : Env → List ℕ) → AreCarried terms.old bits (record { mask = Some mask; apart = apart }) f → Masks terms.old bits item g → AreCarried terms.new bits c (λ env. f env ++ g env ∷ [])) }
    ensures sorted { IfOk result (λ c. CanCarry terms.new bits c) }
    ensures some { IfOk result (λ c. IsSome c.mask) }
    ensures grows { Grows terms.old terms.new }
    ensures weighs { OnOk result (graph_weight terms.new ≤ graph_weight terms.old + (3 * bits + 1)) }
{
    let test = are_disjoint(terms, bits, mask, item)?;
    let apart = both(terms, apart, test)?;
    let mask = terms.two(Two::BitOr, mask, item)?;
    Ok(Carried {
        mask: Some(mask),
        apart,
    })
}

/// One more item, with this mask.
#[tactic(auto, using(civl_terms::proofs::Growing::growth))]
fn with_item(terms: &mut Terms, bits: u32, carried: Carried, item: Id) -> Result<Carried, Memory>
    requires item { sort_at terms.old item ≡ Some (Word bits) }
    requires carried { CanCarry terms.old bits carried }
    ensures carried { IfOk result (λ c. (f : Env → List (List ℕ)) (g : Env → List ℕ) → AreCarried terms.old bits carried f → Masks terms.old bits item g → AreCarried terms.new bits c (λ env. f env ++ g env ∷ [])) }
    ensures sorted { IfOk result (λ c. CanCarry terms.new bits c) }
    ensures some { IfOk result (λ c. IsSome c.mask) }
    ensures grows { Grows terms.old terms.new }
    ensures weighs { OnOk result (graph_weight terms.new ≤ graph_weight terms.old + joining_weight bits carried.mask) }
{
    match carried.mask {
        None => Ok(Carried {
            mask: Some(item),
            apart: carried.apart,
        }),
        Some(mask) => {
            let more = with_more(terms, bits, mask, carried.apart, item)?;
            Ok(more)
        }
    }
}

/// The bits of a mask: one for each permission.
fn bits_of(permissions: u32) -> u32
    requires { permissions ≤ permission_limit }
    ensures { result ≡ 2 ^ permissions }
{
    1 << permissions
}

/// The mask of a linear word: 1 shifted left by it.
#[tactic(auto, using(civl_terms::proofs::Growing::growth))]
fn mask_of(terms: &mut Terms, permissions: u32, id: Id) -> Result<Id, Memory>
    requires permissions { permissions ≤ permission_limit }
    requires item { sort_at terms.old id ≡ Some (Word permissions) }
    ensures masks { IfOk result (λ mask. (g : Env → Value) → IsSaid terms.old id (Word permissions) g → Masks terms.new (2 ^ permissions) mask (λ env. permissions_of_word (g env))) }
    ensures sorted { IfOk result (λ mask. sort_at terms.new mask ≡ Some (Word (2 ^ permissions))) }
    ensures grows { Grows terms.old terms.new }
    ensures weighs { OnOk result (graph_weight terms.new ≤ graph_weight terms.old + (6 * 2 ^ permissions + 1)) }
{
    let _count = terms.len();
    let bits = bits_of(permissions);
    let one = terms.constant(literal(1, bits))?;
    let wide = terms.widen(id, bits)?;
    let mask = terms.two(Two::Shl, one, wide)?;
    Ok(mask)
}

/// What no items carry. The graph's weight doesn't rise.
///
/// # Errors
///
/// For want of memory; the nodes before stay.
#[tactic(auto, using(civl_terms::proofs::Growing::growth))]
pub fn no_items(terms: &mut Terms) -> Result<Carried, Memory>
    ensures carried { IfOk result (λ c. (bits : ℕ) → AreCarried terms.new bits c (λ env. [])) }
    ensures sorted { IfOk result (λ c. (bits : ℕ) → CanCarry terms.new bits c) }
    ensures none { IfOk result (λ c. c.mask ≡ None) }
    ensures grows { Grows terms.old terms.new }
    ensures weighs { OnOk result (graph_weight terms.new ≤ graph_weight terms.old) }
{
    let apart = terms.constant(Constant::Bool(true))?;
    Ok(Carried { mask: None, apart })
}

/// What items carry and one linear global more, where permissions have so many bits. The graph's weight rises by at most
/// three times the bits of a mask and 1, and not at all where it is the first item.
///
/// # Errors
///
/// For want of memory; the nodes before stay.
#[tactic(auto, using(civl_terms::proofs::Growing::growth))]
pub fn with_global(
    terms: &mut Terms,
    permissions: u32,
    carried: Carried,
    id: Id,
) -> Result<Carried, Memory>
    requires item { sort_at terms.old id ≡ Some (Word (2 ^ permissions)) }
    requires carried { CanCarry terms.old (2 ^ permissions) carried }
    ensures carried { IfOk result (λ c. (f : Env → List (List ℕ)) (g : Env → Value) → AreCarried terms.old (2 ^ permissions) carried f → IsSaid terms.old id (Word (2 ^ permissions)) g → AreCarried terms.new (2 ^ permissions) c (λ env. f env ++ permissions_of_global (g env) ∷ [])) }
    ensures sorted { IfOk result (λ c. CanCarry terms.new (2 ^ permissions) c) }
    ensures some { IfOk result (λ c. IsSome c.mask) }
    ensures grows { Grows terms.old terms.new }
    ensures weighs { OnOk result (graph_weight terms.new ≤ graph_weight terms.old + joining_weight (2 ^ permissions) carried.mask) }
{
    let _count = terms.len();
    let bits = bits_of(permissions);
    let more = with_item(terms, bits, carried, id)?;
    Ok(more)
}

/// What items carry and one linear word more, where permissions have so many bits. The graph's weight rises by at most six
/// times the bits of a mask and 1, and where it isn't the first item by three times the bits and 1 more.
///
/// # Errors
///
/// For want of memory; the nodes before stay.
#[tactic(auto, using(civl_terms::proofs::Growing::growth))]
pub fn with_word(
    terms: &mut Terms,
    permissions: u32,
    carried: Carried,
    id: Id,
) -> Result<Carried, Memory>
    requires permissions { permissions ≤ permission_limit }
    requires item { sort_at terms.old id ≡ Some (Word permissions) }
    requires carried { CanCarry terms.old (2 ^ permissions) carried }
    ensures carried { IfOk result (λ c. (f : Env → List (List ℕ)) (g : Env → Value) → AreCarried terms.old (2 ^ permissions) carried f → IsSaid terms.old id (Word permissions) g → AreCarried terms.new (2 ^ permissions) c (λ env. f env ++ permissions_of_word (g env) ∷ [])) }
    ensures sorted { IfOk result (λ c. CanCarry terms.new (2 ^ permissions) c) }
    ensures some { IfOk result (λ c. IsSome c.mask) }
    ensures grows { Grows terms.old terms.new }
    ensures weighs { OnOk result (graph_weight terms.new ≤ graph_weight terms.old + (6 * 2 ^ permissions + 1) + joining_weight (2 ^ permissions) carried.mask) }
{
    let mask = mask_of(terms, permissions, id)?;
    let bits = bits_of(permissions);
    let more = with_item(terms, bits, carried, mask)?;
    Ok(more)
}

/// The mask of all items: no bit is 1 where there are none.
#[tactic(auto, using(civl_terms::proofs::Growing::growth))]
fn mask_or_none(terms: &mut Terms, bits: u32, carried: Carried) -> Result<Id, Memory>
    requires bits { 1 ≤ bits }
    requires few { bits ≤ 32 }
    requires carried { CanCarry terms.old bits carried }
    ensures masks { IfOk result (λ id. (f : Env → List (List ℕ)) → AreCarried terms.old bits carried f → Masks terms.new bits id (λ env. flat_map (λ ps. ps) (f env))) }
    ensures sorted { IfOk result (λ id. sort_at terms.new id ≡ Some (Word bits)) }
    ensures grows { Grows terms.old terms.new }
    ensures weighs { OnOk result (graph_weight terms.new ≤ graph_weight terms.old) }
{
    match carried.mask {
        None => {
            let none = terms.constant(literal(0, bits))?;
            Ok(none)
        }
        Some(mask) => Ok(mask),
    }
}

/// Whether each permission of the one items is one of the others, where permissions have so many bits. The graph's weight
/// rises by at most twice the bits of a mask.
///
/// # Errors
///
/// For want of memory; the nodes before stay.
#[tactic(auto, using(civl_terms::proofs::Growing::growth))]
pub fn are_included(
    terms: &mut Terms,
    permissions: u32,
    outgoing: Carried,
    incoming: Carried,
) -> Result<Id, Memory>
    requires outgoing { CanCarry terms.old (2 ^ permissions) outgoing }
    requires incoming { CanCarry terms.old (2 ^ permissions) incoming }
    ensures test { IfOk result (λ id. (f g : Env → List (List ℕ)) → AreCarried terms.old (2 ^ permissions) outgoing f → AreCarried terms.old (2 ^ permissions) incoming g → IsTest terms.new id (λ env. included (f env) (g env))) }
    ensures sorted { IfOk result (λ id. sort_at terms.new id ≡ Some Truth) }
    ensures grows { Grows terms.old terms.new }
    ensures weighs { OnOk result (graph_weight terms.new ≤ graph_weight terms.old + 2 * 2 ^ permissions) }
{
    let _count = terms.len();
    match outgoing.mask {
        None => {
            let truth = terms.constant(Constant::Bool(true))?;
            Ok(truth)
        }
        Some(mask) => {
            let bits = bits_of(permissions);
            let all = mask_or_none(terms, bits, incoming)?;
            let shared = terms.two(Two::BitAnd, mask, all)?;
            let test = terms.two(Two::Eq, shared, mask)?;
            Ok(test)
        }
    }
}
