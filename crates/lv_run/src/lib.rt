//! One run of the program: from the words of the command line and the files to the answer, its text and its status.
#![tactic(auto)]

mod answer;
mod decide;
mod told;
mod whole_run;

pub use whole_run::{Status, run};
