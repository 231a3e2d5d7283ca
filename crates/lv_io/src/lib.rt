//! Files and outputs as the program sees them, with the counts of what failed outside.
#![tactic(auto)]

mod fs_shelf;
mod mem_shelf;
mod mem_sink;
mod shelf;
mod sink;
mod std_sink;

pub use fs_shelf::FsShelf;
pub use mem_shelf::MemShelf;
pub use mem_sink::MemSink;
pub use shelf::{Shelf, ShelfError};
pub use sink::{Failed, Sink, put_all};
pub use std_sink::StdSink;
