// The outside as two traits: a shelf that files are taken from and a sink that bytes are put to, each with
// a count of its faults. Memory implementations tell their bytes; the adapters to real files and to the
// standard streams tell nothing of content, and are the trusted edge.
#![tactic(auto)]

mod disk;
mod examples;
mod failed;
mod kept_name;
mod limits;
mod memory_shelf;
mod memory_sink;
mod open_file;
mod shelf;
mod sink;
mod standard;
mod tally;
mod whole;

pub use disk::DiskShelf;
pub use examples::{call_examples, cause_examples};
pub use failed::Failed;
pub use limits::LONGEST_NAME;
pub use memory_shelf::MemoryShelf;
pub use memory_sink::MemorySink;
pub use shelf::Shelf;
pub use sink::Sink;
pub use standard::{ErrSink, OutSink, StreamSink};
pub use whole::{Fetch, WriteFault, read_whole, write_whole};
