// A sink for bytes.
ghost use Rattle.std.specs.Prelude.{◌≡◌, ◌≤◌, List, ℕ, Option, OnOk, OnErr};
ghost use Rattle.xa_io.specs.Sink.{appended};
ghost use Rattle.xa_io.specs.Causes.{Rose};
ghost use Rattle.xa_io.specs.Sink.{GaveFirst};

/// The sink failed.
#[derive(Clone, Copy, Debug, PartialEq, Eq)]
pub struct SinkFailed;

/// Takes bytes.
///
/// Its count of faults never falls, and stands still at the last value of a `u64`.
pub trait Sink {
    /// What it was given, where it tells.
    ghost given: { Self → Option (List ℕ) };

    /// How often it failed.
    ghost faults: { Self → ℕ };

    /// Takes the piece. After `SinkFailed` it took a first part of it, which may be empty.
    fn put(&mut self, piece: &[u8]) -> Result<(), SinkFailed>
        ensures ok { OnOk result (given self.new ≡ appended (given self.old) piece.now) }
        ensures part { OnErr result (GaveFirst piece.now (given self.old) (given self.new)) }
        ensures failed { OnErr result (Rose (faults self.old) (faults self.new)) }
        ensures faults_stay { faults self.old ≤ faults self.new };
}
