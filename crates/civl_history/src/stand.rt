// Where a thread stands.

/// Where a thread stands. Procedures are named by their numbers, their places among the program's procedures from 0.
#[derive(Clone, Copy, Debug, PartialEq, Eq)]
pub enum Stand {
    /// Before its first call, which calls the procedure with this number. The call may mean an action.
    Begins(usize),
    /// Before a statement: the number of the procedure, and the statement's own number in it. No `yield`, `commit` or
    /// `intro` is named: a plain program passes over them.
    Before(usize, usize),
    /// At the end of the body of the procedure with this number, from which it returns.
    Leaves(usize),
    /// Behind its first call, which was one of the procedure with this number: nothing is left to run.
    Ended(usize),
}
