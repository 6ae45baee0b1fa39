// What one clause says under marks.
ghost use Rattle.std.specs.Prelude.{length};
ghost use Rattle.civl_cnf.specs.ClauseSet.{IsBelow};
ghost use Rattle.civl_units.specs.Marks.{RuleSays};

use civl_cnf::Lit;

/// What a clause says under marks.
#[derive(Clone, Copy, Drop)]
pub enum Rule {
    Falsified,
    Forces(Lit),
    Quiet,
}

/// What the clause says, read as the set of its literals: no literal is left, one is, or it says nothing.
pub fn rule_of(marks: &[Option<bool>], clause: &[Lit]) -> Rule
    requires { IsBelow (length marks.now) clause.now }
    ensures { RuleSays marks.now clause.now result }
{
    let mut open: Option<Lit> = None;
    for lit in clause {
        match marks[lit.variable() as usize] {
            Some(value) => {
                if value == lit.positive() {
                    return Rule::Quiet;
                }
            }
            None => match open {
                None => open = Some(*lit),
                Some(first) => {
                    if first != *lit {
                        return Rule::Quiet;
                    }
                }
            },
        }
    }
    match open {
        None => Rule::Falsified,
        Some(lit) => Rule::Forces(lit),
    }
}
