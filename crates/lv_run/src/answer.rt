//! What a run answers.

use lv_bits::Text;
use lv_first::Verdict;
use lv_steps::Ended;

/// What a run answers. An answer of a step is the step's own.
#[derive(Drop)]
pub(crate) enum Answer {
    /// The verdict on the design, to `verify`.
    Judged(Verdict),
    /// The canonical text of the design, to `print`.
    Printed(Text),
    /// The run ended at a step.
    Ended(Ended),
    /// The words are no command line.
    Usage,
    NoMemory,
}
