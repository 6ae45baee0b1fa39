// Laws of certificates. Each function does nothing, and its contract is the law.
ghost use Rattle.civl_proofs.specs.Laws.{OneReading, OneAnswer, CanonicalIsRead};
ghost use Rattle.civl_proofs.specs.examples.Certificates.{Examples};

/// A text is a certificate of one clause set and one log at most.
pub fn one_reading()
    ensures { OneReading }
{}

/// A text is a certificate, or has one first fault, and not both.
pub fn one_answer()
    ensures { OneAnswer }
{}

/// The canonical text of a clause set and a log that a certificate may hold is a certificate of them.
pub fn canonical_is_read()
    ensures { CanonicalIsRead }
{}

/// What some short texts are.
pub fn examples()
    ensures { Examples }
{}
