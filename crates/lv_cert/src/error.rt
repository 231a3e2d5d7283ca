use thiserror::Error;

/// Why bytes are no certificate.
#[derive(Clone, Copy, Debug, PartialEq, Eq, Error)]
pub enum CertError {
    /// This line, from 1, is the first that doesn't fit or is missing.
    #[error("line {0} of the certificate doesn't fit or is missing")]
    Line(u64),
    #[error("out of memory")]
    NoMemory,
}
