//! Certificates: their text, written and read.
#![tactic(auto)]

mod cert;
mod error;
mod number;
mod queries;
mod read;
mod words;
mod write;

pub use cert::{Cert, Shape};
pub use error::CertError;
pub use read::read_cert;
pub use write::write_cert;
