// The terms that the names in an action stand for.
ghost use Rattle.std.specs.Prelude.{◌≡◌, ◌++◌, All, IsTrue, IfOk};
ghost use Rattle.civl_tree.specs.rules.Names.{global_names, param_names};
ghost use Rattle.civl_firing.specs.values.Values.{is_sort};
ghost use Rattle.civl_firing.specs.Scope.{choice_names};
ghost use Rattle.civl_terms.specs.Building.{Grows};
ghost use Rattle.civl_actions.specs.Scopes.{names_in};
ghost use Rattle.civl_actions.specs.inner.Steps.{AreZeros, IsNamed};

use crate::scope::Scope;
use civl_bits::Value;
use civl_firing::names::Names;
use civl_firing::values::zero;
use civl_terms::{Id, Memory, Terms};
use civl_tree::{Action, Choice, List, Param, Program};
use std::alloc::Global as Alloc;

/// The terms of all the names in an action, behind one another; of them the zeros that its outputs are before its updates; and
/// the term of `done`, which is false in an action.
#[derive(Drop)]
pub struct Named {
    pub values: Vec<Id>,
    pub zeros: Vec<Id>,
    pub no: Id,
}

/// The terms of the zeros that an action's outputs are before its updates.
fn zeros(alloc: Alloc, terms: &mut Terms, outs: &[Param]) -> Result<Vec<Id>, Memory>
    requires { All (λ p. IsTrue (is_sort p.sort)) outs.now }
    ensures zeros { IfOk result (λ ids. AreZeros terms.old terms.new outs.now ids.items) }
    ensures grows { Grows terms.old terms.new }
{
    let mut ids = Vec::new(alloc);
    for out in outs {
        let id = terms.constant(zero(out.sort))?;
        ids.push(id)?;
    }
    Ok(ids)
}

/// The terms of the globals, the parameters, the choices and the outputs, behind one another.
#[tactic(auto, using(std::proofs::lemmas::List::append_assoc))]
fn joined(
    alloc: Alloc,
    globals: &[Id],
    inputs: &[Id],
    choices: &[Id],
    outs: &[Id],
) -> Result<Vec<Id>, Memory>
    ensures { IfOk result (λ ids. ids.items ≡ globals.now ++ (inputs.now ++ (choices.now ++ outs.now))) }
{
    let mut ids = Vec::from_slice(alloc, globals)?;
    ids.extend_from_slice(inputs)?;
    ids.extend_from_slice(choices)?;
    ids.extend_from_slice(outs)?;
    Ok(ids)
}

/// The terms that the names in an action with these outputs stand for, at these terms for the globals, its parameters and
/// those of its choices that are seen.
#[tactic(auto, using(civl_terms::proofs::Growing::growth))]
pub fn named_terms(
    alloc: Alloc,
    terms: &mut Terms,
    outs: &List<Param>,
    globals: &[Id],
    inputs: &[Id],
    choices: &[Id],
) -> Result<Named, Memory>
    requires { All (λ p. IsTrue (is_sort p.sort)) outs.now }
    ensures named { IfOk result (λ n. IsNamed terms.old terms.new outs.now globals.now inputs.now choices.now n) }
    ensures grows { Grows terms.old terms.new }
{
    let no = terms.constant(Value::Bool(false))?;
    let zeros = zeros(alloc, terms, outs.as_slice())?;
    let values = joined(alloc, globals, inputs, choices, zeros.as_slice())?;
    Ok(Named { values, zeros, no })
}

/// The scope of an action's expressions, with these of its choices.
#[tactic(auto, using(civl_firing::proofs::Joining::appending))]
pub fn scope_of<'a>(
    program: &'a Program,
    action: &'a Action,
    choices: &'a [Choice],
    named: &'a Named,
) -> Scope<'a>
    ensures names { names_in result ≡ global_names program.now.globals ++ (param_names action.now.params ++ (choice_names choices.now ++ param_names action.now.outs)) }
    ensures values { result.values.now ≡ named.now.values.items }
    ensures old { result.old.now ≡ named.now.values.items }
    ensures done { result.done ≡ named.now.no }
    ensures old_done { result.old_done ≡ named.now.no }
{
    Scope {
        names: Names {
            globals: program.globals.as_slice(),
            params: action.params.as_slice(),
            choices,
            outs: action.outs.as_slice(),
            locals: &[],
            behind: &[],
        },
        values: named.values.as_slice(),
        old: named.values.as_slice(),
        done: named.no,
        old_done: named.no,
    }
}
