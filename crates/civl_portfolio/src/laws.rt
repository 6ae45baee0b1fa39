// Laws of asking. Each function does nothing, and its contract is the law.
ghost use Rattle.civl_portfolio.specs.Laws.{HonestFirstStays, HonestFirstStaysInCut, CertificatesStandOrNot, RoundsOverSamples};

/// Where the first prover of the list is honest, a round leaves it the first and asks it once, also a round that want of memory cuts short. `B` stands for the provers.
pub fn honest_first_stays<B>()
    ensures whole { HonestFirstStays B }
    ensures cut { HonestFirstStaysInCut B }
{}

/// Which certificates stand, on small clause sets.
pub fn certificates_stand_or_not()
    ensures { CertificatesStandOrNot }
{}

/// Which rounds over provers that give up, lie or are right follow the rules.
pub fn rounds_over_samples()
    ensures { RoundsOverSamples }
{}
