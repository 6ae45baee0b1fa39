// Weights, as far as the limit tells them apart.
ghost use Rattle.std.specs.Prelude.{◌≡◌, ◌^◌, nat_lt};
ghost use Rattle.civl_conditions.specs.Weights.{weight_limit};
ghost use Rattle.civl_weighing.specs.Weighing.{Weighs, IsSum, IsProduct, ArePairs, IsWhere, IsLinear};

use civl_tree::Program;

/// The most that a formula may weigh.
const LIMIT: u32 = 400_000;

/// A weight, as far as the limit tells weights apart: all above it are the number behind it.
#[derive(Clone, Copy)]
pub struct Weight {
    pub number: u32,
}

impl Weight {
    #[tactic(auto, unfolding(crate::specs::Weighing::capped))]
    fn capped(number: u64) -> Weight
        ensures { Weighs result number }
    {
        if number <= u64::from(LIMIT) {
            Weight {
                number: number as u32,
            }
        } else {
            Weight { number: LIMIT + 1 }
        }
    }

    /// The weight with this number, or the one behind the limit.
    pub fn of(number: u32) -> Weight
        ensures { Weighs result number }
    {
        Weight::capped(u64::from(number))
    }

    /// The same of a count.
    pub fn of_count(count: usize) -> Weight
        ensures { Weighs result count }
    {
        Weight::capped(count as u64)
    }

    /// 2 to this number.
    pub fn power(exponent: u32) -> Weight
        ensures { Weighs result (2 ^ exponent) }
    {
        if exponent < 19 {
            Weight::of(1 << exponent)
        } else {
            Weight::of(LIMIT + 1)
        }
    }

    /// Both together.
    pub fn plus(self, other: Weight) -> Weight
        ensures { IsSum self other result }
    {
        Weight::capped(u64::from(self.number) + u64::from(other.number))
    }

    /// The one as many times as the other says.
    pub fn times(self, other: Weight) -> Weight
        ensures { IsProduct self other result }
    {
        Weight::capped(u64::from(self.number) * u64::from(other.number))
    }

    /// It where this is so, else nothing.
    pub fn if_so(self, counted: bool) -> Weight
        ensures { IsWhere counted self result }
    {
        if counted { self } else { Weight::of(0) }
    }

    /// The number of pairs of so many.
    fn pairs(self) -> Weight
        ensures { ArePairs self result }
    {
        let count = u64::from(self.number);
        Weight::capped(count * count.saturating_sub(1) / 2)
    }

    /// Whether it is above the limit.
    pub fn is_heavy(self) -> bool
        ensures { result ≡ nat_lt weight_limit self.number }
    {
        self.number > LIMIT
    }
}

/// The weight of so many linear items, which are pairwise disjoint.
pub fn linear(program: &Program, items: Weight) -> Weight
    ensures { IsLinear program.now items result }
{
    let permissions = program.permissions;
    let values = Weight::power(permissions);
    let single = items
        .times(Weight::of(permissions).plus(Weight::of(1)))
        .times(values);
    let pairs = items.pairs().times(values);
    single.plus(pairs)
}
