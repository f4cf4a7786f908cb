//! Why bytes give no invariants.

use memory::NoMemory;
use thiserror::Error;

/// Why bytes give no invariants.
#[derive(Clone, Copy, Debug, PartialEq, Eq, Error)]
pub enum CertFault {
    /// They are the text of no invariants with these dimensions.
    #[error("the bytes are no certificate")]
    BadCertificate,
    #[error("out of memory")]
    NoMemory,
}

impl From<NoMemory> for CertFault {
    ghost use Rattle.std.specs.Prelude.{◌≡◌};
    ghost use Rattle.inv_text.specs.declared.fault.CertFault.{CertFault};

    ghost from_gives = { λ _ fault. fault ≡ CertFault.NoMemory };

    fn from(_failed: NoMemory) -> CertFault {
        CertFault::NoMemory
    }
}
