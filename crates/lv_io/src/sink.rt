ghost use Rattle.std.specs.Prelude.{◌≡◌, ◌<◌, ◌≤◌, [], length, take, IfOk, IsOk, OnOk, OnErr};
ghost use Rattle.lv_io.specs.Causes.{Rose};
ghost use Rattle.lv_io.specs.Given.{Gains, GainsPart};
ghost use Rattle.lv_io.specs.Outside.{SinkState};

/// The output failed.
#[derive(Clone, Copy, Debug, PartialEq, Eq)]
pub struct Failed;

/// An output. A count that stands at its last value, 2^64 - 1, is said to have risen.
pub trait Sink {
    /// What is seen of it: the bytes that it was given, where it tells them, and its count.
    ghost state: { Self → SinkState };

    /// Takes the first bytes of the piece, at least one where it isn't empty, and answers how many. It takes none
    /// where it answers `Failed`, which comes where the output fails.
    fn write(&mut self, piece: &[u8]) -> Result<usize, Failed>
        ensures within { IfOk result (λ count. count ≤ length piece.now) }
        ensures some { IfOk result (λ count. 0 < length piece.now → 0 < count) }
        ensures takes { IfOk result (λ count. Gains (state self.old).given (state self.new).given (take count piece.now)) }

        ensures refused { OnErr result ((state self.new).given ≡ (state self.old).given) }
        ensures failed { OnErr result (Rose (state self.old).faults (state self.new).faults) }
        ensures faults_stay { (state self.old).faults ≤ (state self.new).faults };
}

/// Gives the sink the whole piece. After `Failed`, which comes where the output fails, it was given the first of its
/// bytes. An empty piece makes no call.
pub fn put_all<S: Sink>(sink: &mut S, piece: &[u8]) -> Result<(), Failed>
    ensures whole { OnOk result (Gains (S.state sink.old).given (S.state sink.new).given piece.now) }
    ensures part { OnErr result (GainsPart (S.state sink.old).given (S.state sink.new).given piece.now) }
    ensures failed { OnErr result (Rose (S.state sink.old).faults (S.state sink.new).faults) }
    ensures faults_stay { (S.state sink.old).faults ≤ (S.state sink.new).faults }
    ensures empty_ok { piece.now ≡ [] → IsOk result }
    ensures empty_stays { piece.now ≡ [] → sink.new ≡ sink.old }
{
    let mut rest = piece;
    while !rest.is_empty() {
        let count = sink.write(rest)?;
        rest = &rest[count..];
    }
    Ok(())
}
