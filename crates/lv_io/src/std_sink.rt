ghost use Rattle.std.specs.Prelude.{◌≡◌, None};

use crate::{Failed, Sink};
use std::io;
use std::io::Write;

/// Standard output. It tells no bytes.
#[derive(Drop)]
pub struct StdSink<R> {
    runtime: R,
    faults: u64,
}

impl<R: Print> StdSink<R> {
    /// A sink with no fault.
    pub fn new(runtime: R) -> StdSink<R>
        ensures { ⟦<StdSink<R> as Sink>⟧.state result ≡ record { given = None; faults = 0 } }
    {
        StdSink { runtime, faults: 0 }
    }
}

impl<R: Print> Sink for StdSink<R> {
    ghost state = { λ sink. record { given = None; faults = sink.faults } };

    fn write(&mut self, piece: &[u8]) -> Result<usize, Failed> {
        match io::writer(&self.runtime).write(piece) {
            Ok(count) if count > 0 || piece.is_empty() => Ok(count),
            _ => {
                self.faults = self.faults.saturating_add(1);
                Err(Failed)
            }
        }
    }
}
