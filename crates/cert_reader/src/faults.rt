//! Why a text is no certificate.

use num_ends::NoMemory;

/// Why a text isn't read as a certificate. Lines are numbered from 1.
#[derive(Clone, Copy, Debug, PartialEq, Eq)]
pub enum CertFault {
    /// This line may not stand where it stands.
    BadLine(u32),
    /// The text ends before the line feed of its end. The number is one more than that of its line feeds.
    EndsEarly(u32),
    /// This line has the 40,001st box or the 500,001st state.
    TooMany(u32),
    /// There was no memory for the certificate.
    NoMemory,
}

impl From<NoMemory> for CertFault {
    ghost use Rattle.std.specs.Prelude.{◌≡◌};
    ghost use Rattle.cert_reader.specs.declared.faults.CertFault.TheVariants as faults;

    ghost from_gives = { λ _ fault. fault ≡ faults.NoMemory };

    fn from(_fault: NoMemory) -> CertFault {
        CertFault::NoMemory
    }
}
