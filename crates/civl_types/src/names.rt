// Names, and what a name stands for.
ghost use Rattle.std.specs.Prelude.{◌≡◌, option_copied};
ghost use Rattle.civl_tree.specs.rules.Names.{same_name, action_named, proc_named, proc_signature_of, callee_signature};
ghost use Rattle.civl_types.specs.Views.{signature_of};

use civl_tree::{Action, Name, Param, Proc, Program};

/// Whether two names have the same bytes.
pub fn same_name(first: &Name, second: &Name) -> bool
    ensures { result ≡ same_name first.now second.now }
{
    first.as_slice() == second.as_slice()
}

/// The action of this name.
pub fn action_named<'a>(program: &'a Program, name: &Name) -> Option<&'a Action>
    ensures { option_copied result ≡ action_named program.now name.now }
{
    program
        .actions
        .as_slice()
        .iter()
        .find(|action| same_name(name, &action.name))
}

/// The procedure of this name.
pub fn proc_named<'a>(program: &'a Program, name: &Name) -> Option<&'a Proc>
    ensures { option_copied result ≡ proc_named program.now name.now }
{
    program
        .procs
        .as_slice()
        .iter()
        .find(|proc| same_name(name, &proc.name))
}

/// The parameters and outputs of an action or a procedure.
#[derive(Clone, Copy)]
pub struct Signature<'a> {
    pub params: &'a [Param],
    pub outs: &'a [Param],
}

/// The signature of the procedure of this name.
pub fn proc_signature<'a>(program: &'a Program, name: &Name) -> Option<Signature<'a>>
    ensures { signature_of result ≡ proc_signature_of (proc_named program.now name.now) }
{
    match proc_named(program, name) {
        Some(proc) => Some(Signature {
            params: proc.params.as_slice(),
            outs: proc.outs.as_slice(),
        }),
        None => None,
    }
}

/// The signature of the action or procedure that a call of this name means.
pub fn callee_signature<'a>(program: &'a Program, name: &Name) -> Option<Signature<'a>>
    ensures { signature_of result ≡ callee_signature program.now name.now }
{
    match action_named(program, name) {
        Some(action) => Some(Signature {
            params: action.params.as_slice(),
            outs: action.outs.as_slice(),
        }),
        None => proc_signature(program, name),
    }
}
