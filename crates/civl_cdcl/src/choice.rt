// Variables without a value.
ghost use Rattle.std.specs.Prelude.{◌≤◌, length, IsTrue};
ghost use Rattle.civl_cdcl.specs.inner.Order.{IsFree, ScanSays, OpenSays};

/// Whether a number is that of a variable without a value.
pub fn is_open(marks: &[Option<bool>], variable: usize) -> bool
    ensures { IsTrue result → IsFree marks.now variable }
{
    if variable >= marks.len() {
        return false;
    }
    match marks[variable] {
        None => true,
        Some(_) => false,
    }
}

/// A variable without a value, from one number to another.
fn scan(marks: &[Option<bool>], from: usize, to: usize) -> Option<usize>
    requires { to ≤ length marks.now }
    ensures { ScanSays marks.now from to result }
{
    for variable in from..to {
        if marks[variable].is_none() {
            return Some(variable);
        }
    }
    None
}

/// A variable without a value, if there is one. Those from a number on are looked at first.
pub fn next_open(marks: &[Option<bool>], from: usize) -> Option<usize>
    ensures { OpenSays marks.now result }
{
    let middle = from.min(marks.len());
    match scan(marks, middle, marks.len()) {
        Some(variable) => Some(variable),
        None => scan(marks, 0, middle),
    }
}
