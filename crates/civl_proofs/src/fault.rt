// Why a text is no certificate.
use std::alloc::{AllocError, AllocFailed};

/// Why nothing is read.
#[derive(Clone, Copy, Debug, PartialEq, Eq)]
pub enum CertificateFault {
    /// The bytes before this place begin a certificate, and with the byte there, or with the end, they don't.
    At(usize),
    /// Memory is wanting.
    Memory,
}

impl From<AllocError> for CertificateFault {
    ghost use Rattle.std.specs.Prelude.{◌≡◌};
    ghost use Rattle.civl_proofs.specs.declared.fault.CertificateFault.TheVariants.{Memory};

    ghost from_gives = { λ _ e. e ≡ Memory };

    fn from(_error: AllocError) -> CertificateFault {
        CertificateFault::Memory
    }
}

impl<T: Drop> From<AllocFailed<T>> for CertificateFault {
    ghost use Rattle.std.specs.Prelude.{◌≡◌};
    ghost use Rattle.civl_proofs.specs.declared.fault.CertificateFault.TheVariants.{Memory};

    ghost from_gives = { λ _ e. e ≡ Memory };

    fn from(_error: AllocFailed<T>) -> CertificateFault {
        CertificateFault::Memory
    }
}

impl From<civl_cnf::Memory> for CertificateFault {
    ghost use Rattle.std.specs.Prelude.{◌≡◌};
    ghost use Rattle.civl_proofs.specs.declared.fault.CertificateFault.TheVariants.{Memory};

    ghost from_gives = { λ _ e. e ≡ Memory };

    fn from(_error: civl_cnf::Memory) -> CertificateFault {
        CertificateFault::Memory
    }
}
