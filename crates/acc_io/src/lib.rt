//! Where bytes come from and go to: sources, sinks and shelves of files.
//!
//! Each object counts its faults. A call fails only where that count rose, so a caller that reports a fault
//! without one is refused. Where an object tells its bytes, contracts say which bytes a call moves.
//!
//! The forms in memory (`MemSource`, `SoundSource`, `MemSink`, `MemShelf`, `SoundShelf`) tell all that they hold, and
//! exactly which calls fail. The adapters (`ReadSource`, `WriteSink`, `FileShelf`) stand over real readers, writers and
//! files, and tell no content.
#![tactic(auto)]

mod call_plan;
pub mod failed;
mod fault_count;
pub mod file_shelf;
mod held_bytes;
mod held_files;
pub mod mem_shelf;
pub mod mem_sink;
pub mod mem_source;
mod pieces;
mod place;
pub mod read_source;
pub mod shelf;
pub mod sink;
pub mod sound_shelf;
pub mod sound_source;
pub mod source;
pub mod streams;
#[cfg(test)]
mod tests;
pub mod write_sink;
pub mod writing;

pub use failed::Failed;
pub use file_shelf::FileShelf;
pub use mem_shelf::MemShelf;
pub use mem_sink::MemSink;
pub use mem_source::MemSource;
pub use read_source::ReadSource;
pub use shelf::Shelf;
pub use sink::Sink;
pub use sound_shelf::SoundShelf;
pub use sound_source::SoundSource;
pub use source::Source;
pub use streams::Streams;
pub use write_sink::WriteSink;
pub use writing::write_all;
