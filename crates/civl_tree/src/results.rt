// Values that are made side by side: none of them is held while the next is made, which keeps what the borrow checker has to follow small.
ghost use Rattle.std.specs.Prelude.{◌≡◌};
ghost use Rattle.civl_tree.specs.Results.{both_of, three_of, beside_of};

/// Two values, where both were made.
///
/// # Errors
///
/// The first error of the two.
pub fn both<A: Drop, B: Drop, E: Drop>(
    first: Result<A, E>,
    second: Result<B, E>,
) -> Result<(A, B), E>
    ensures { result ≡ both_of first second }
{
    match first {
        Ok(first) => match second {
            Ok(second) => Ok((first, second)),
            Err(error) => Err(error),
        },
        Err(error) => Err(error),
    }
}

/// Three values, where all were made.
///
/// # Errors
///
/// The first error of the three.
pub fn three<A: Drop, B: Drop, C: Drop, E: Drop>(
    first: Result<A, E>,
    second: Result<B, E>,
    third: Result<C, E>,
) -> Result<(A, B, C), E>
    ensures { result ≡ three_of first second third }
{
    match both(first, second) {
        Ok((first, second)) => match third {
            Ok(third) => Ok((first, second, third)),
            Err(error) => Err(error),
        },
        Err(error) => Err(error),
    }
}

/// A value that is there, and beside it one that was made.
///
/// # Errors
///
/// The error of the one that was to be made.
pub fn beside<A: Drop, B: Drop, E: Drop>(held: A, next: Result<B, E>) -> Result<(A, B), E>
    ensures { result ≡ beside_of held next }
{
    match next {
        Ok(next) => Ok((held, next)),
        Err(error) => Err(error),
    }
}
