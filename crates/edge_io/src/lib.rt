//! Files that are read and bytes that are written, with a count of the faults that came from outside.
#![tactic(auto)]

mod calls;
mod count;
mod faults;
mod files;
mod gate;
mod memory_files;
mod memory_sink;
mod real_files;
mod real_sink;
mod sink;
mod whole;

pub use faults::Failed;
pub use files::Files;
pub use gate::{Gate, OpenGate, Place};
pub use memory_files::MemoryFiles;
pub use memory_sink::MemorySink;
pub use real_files::RealFiles;
pub use real_sink::RealSink;
pub use sink::Sink;
pub use whole::{ReadFault, read_whole, write_whole};
