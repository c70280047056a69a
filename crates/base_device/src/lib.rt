//! Devices that bytes are read from and written to: a reader or writer of the standard library with the count of its calls
//! that failed, or bytes in memory, which contracts know.
//!
//! The contract for the layers above: [`read_all`] gives the whole input or says why not, in a bounded number of reads, and
//! [`write_all`] writes all of a text or a front of it. Begin with `device`.
#![tactic(auto)]

mod calls;
mod counted;
mod device;
mod fault;
mod file;
mod limits;
mod memory_pair;
mod memory_sink;
mod memory_source;
mod one_read;
mod place;
mod read_whole;
mod streams;
mod tried;
mod write_whole;

pub use counted::Counted;
pub use device::{Device, Sink, Source, Watched};
pub use fault::{Failed, InputFault, SinkFault};
pub use file::{read_file, read_opened};
pub use limits::{MOST_READS, MOST_ROOM, limits_law};
pub use memory_pair::MemoryPair;
pub use memory_sink::MemorySink;
pub use memory_source::MemorySource;
pub use one_read::{MoreFault, read_more, zeros};
pub use place::Place;
pub use read_whole::read_all;
pub use streams::Streams;
pub use tried::Tried;
pub use write_whole::write_all;
