// Why there is no certificate.

use crate::effect::CertCause;
use forth_program::DefId;

/// A definition that the rounds refuse.
#[derive(Clone, Copy, Debug, PartialEq, Eq)]
pub struct Refused {
    pub definition: DefId,
    pub cause: CertCause,
}

/// Why a program gets no certificate.
#[derive(Clone, Copy, Debug, PartialEq, Eq)]
pub enum CertError {
    /// The rounds that look for a certificate refuse this definition first, and no certificate is valid.
    NotCertified(DefId, CertCause),
    /// There is no memory for the certificate.
    OutOfMemory,
}
