// Why reading stops.
ghost use Rattle.std.specs.Prelude.{◌≡◌};
ghost use Rattle.civl_phrases.specs.declared.halt.Halt.TheVariants.{Memory as NoMemory};

/// Why the tokens are not read, with the number of the tokens from the fault to the end.
#[derive(Clone, Copy, Debug, PartialEq, Eq)]
pub enum Stop {
    /// The token here, or the end here, can't stand here.
    NotHere(usize),
    /// The token here may stand here, but opens a bracket too many.
    Deep(usize),
}

/// Why the code stops: where its reader does, or for want of memory.
#[derive(Clone, Copy, Debug, PartialEq, Eq)]
pub enum Halt {
    Stop(Stop),
    /// Memory is wanting.
    Memory,
}

impl From<civl_tree::Memory> for Halt {
    ghost from_gives = { λ _ halt. halt ≡ NoMemory };

    fn from(_memory: civl_tree::Memory) -> Halt {
        Halt::Memory
    }
}
