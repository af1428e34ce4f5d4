//! What the program meets outside itself: sources of bytes, sinks for bytes, and folders of files.
//!
//! Each is a trait. A contract sees such an object by what it has left, holds or keeps, where the
//! object tells it, and by counts of its faults, by which each fault that it answers has a cause.
//! The objects in memory tell everything, and fail where a test wants them to. The objects of the
//! system tell their counts alone.
#![tactic(auto)]

mod memory;
mod memory_folder;
mod standard;
mod standard_folder;
mod traits;

pub use memory::{MemSink, MemSource};
pub use memory_folder::MemFolder;
pub use standard::{StdSink, StdSource};
pub use standard_folder::StdFolder;
pub use traits::{Failed, FileFault, Folder, PutFault, Sink, Source};
