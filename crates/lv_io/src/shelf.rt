ghost use Rattle.std.specs.Prelude.{◌≡◌, ◌≢◌, ◌≤◌, length, IfOk, OnOk, OnErr, IsErrOf};
ghost use Rattle.lv_io.specs.declared.shelf.ShelfError.TheVariants.{Missing, Failed, TooLong, NoMemory};
ghost use Rattle.lv_io.specs.Causes.{Rose};
ghost use Rattle.lv_io.specs.Outside.{ShelfState};
ghost use Rattle.lv_io.specs.Files.{HoldsFile, IsAbsent, IsLonger, ChangesOnly, StaysOrHoldsPart};

use lv_bits::{Bytes, Text};
use std::alloc::{AllocError, Global};

/// Why a file wasn't read or written.
#[derive(Clone, Copy, Debug, PartialEq, Eq)]
pub enum ShelfError {
    /// No file has the name.
    Missing,
    /// The outside failed.
    Failed,
    /// The file has more bytes than the limit.
    TooLong,
    /// An allocation failed.
    NoMemory,
}

impl From<lv_bits::NoMemory> for ShelfError {
    ghost from_gives = { λ _ e. e ≡ NoMemory };

    fn from(_: lv_bits::NoMemory) -> ShelfError {
        ShelfError::NoMemory
    }
}

impl From<AllocError> for ShelfError {
    ghost from_gives = { λ _ e. e ≡ NoMemory };

    fn from(_: AllocError) -> ShelfError {
        ShelfError::NoMemory
    }
}

/// Named files. A count that stands at its last value, 2^64 - 1, is said to have risen.
pub trait Shelf {
    /// What is seen of it: its files, where it tells them, and its counts.
    ghost state: { Self → ShelfState };

    /// The bytes of the file, at most `limit`. `Missing` comes where no file has the name, `TooLong` where the
    /// file has more than `limit` bytes, `Failed` where the outside fails, `NoMemory` where an allocation does.
    fn read(&mut self, alloc: Global, name: &Text, limit: u64) -> Result<Bytes, ShelfError>
        ensures within { IfOk result (λ bytes. length bytes ≤ limit) }
        ensures found { IfOk result (λ bytes. HoldsFile name.now bytes (state self.old).files) }

        ensures missing { IsErrOf result Missing → Rose (state self.old).misses (state self.new).misses }
        ensures absent { IsErrOf result Missing → IsAbsent name.now (state self.old).files }
        ensures too_long { IsErrOf result TooLong → Rose (state self.old).overlong (state self.new).overlong }
        ensures longer { IsErrOf result TooLong → IsLonger name.now limit (state self.old).files }
        ensures failed { IsErrOf result Failed → Rose (state self.old).faults (state self.new).faults }

        ensures files_stay { (state self.new).files ≡ (state self.old).files }
        ensures faults_stay { (state self.old).faults ≤ (state self.new).faults }
        ensures misses_stay { (state self.old).misses ≤ (state self.new).misses }
        ensures overlong_stay { (state self.old).overlong ≤ (state self.new).overlong };

    /// Makes the file these bytes. After a refusal, `Failed` or `NoMemory`, it is as before or holds the first of
    /// them.
    fn write(&mut self, alloc: Global, name: &Text, bytes: &[u8]) -> Result<(), ShelfError>
        ensures written { OnOk result (HoldsFile name.now bytes.now (state self.new).files) }

        ensures failed { IsErrOf result Failed → Rose (state self.old).faults (state self.new).faults }
        ensures never_missing { result ≢ Err Missing }
        ensures never_too_long { result ≢ Err TooLong }
        ensures refused { OnErr result (StaysOrHoldsPart name.now bytes.now (state self.old).files (state self.new).files) }

        ensures others { ChangesOnly name.now (state self.old).files (state self.new).files }
        ensures faults_stay { (state self.old).faults ≤ (state self.new).faults }
        ensures misses_stay { (state self.old).misses ≤ (state self.new).misses }
        ensures overlong_stay { (state self.old).overlong ≤ (state self.new).overlong };
}
