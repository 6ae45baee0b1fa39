// When a search begins anew.

/// So many conflicts come before the first restart.
const UNIT: u64 = 100;

/// Restarts after 1, 1, 2, 1, 1, 2, 4, .. times a number of conflicts (Luby, Sinclair and Zuckerman, "Optimal speedup of Las Vegas algorithms", 1993).
#[derive(Drop)]
pub struct Restarts {
    round: u64,
    power: u64,
    left: u64,
}

impl Restarts {
    /// Before the first conflict.
    pub fn new() -> Restarts {
        Restarts {
            round: 1,
            power: 1,
            left: UNIT,
        }
    }

    /// Notes a conflict. Whether the search is to begin anew.
    pub fn is_due(&mut self) -> bool {
        if self.left > 1 {
            self.left -= 1;
            return false;
        }
        let lowest = self.round & (!self.round).wrapping_add(1);
        if lowest == self.power {
            self.round = self.round.saturating_add(1);
            self.power = 1;
        } else {
            self.power = self.power.saturating_mul(2);
        }
        self.left = self.power.saturating_mul(UNIT);
        true
    }
}
