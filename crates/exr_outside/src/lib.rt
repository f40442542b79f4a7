//! I/O: sources, sinks, sets of files and gates as traits that state what each call means and when it may fail; fakes in
//! memory that fail exactly where they are told to; and thin adapters over real files. Each object counts its failures,
//! and no call fails unless that count went up in it.
#![tactic(auto)]

mod calls;
mod counts;
mod file_sink;
mod file_source;
mod files;
mod gate;
mod mem_files;
mod mem_sink;
mod mem_source;
mod real_files;
mod shelf;
mod sink;
mod source;
mod system_file;
mod transfer;
mod world;

pub use counts::rise;
pub use file_sink::{FileSink, OutSink};
pub use file_source::FileSource;
pub use files::Files;
pub use gate::{Gate, PlainGate};
pub use mem_files::{Fails, MemFiles, are_of_one_world};
pub use mem_sink::MemSink;
pub use mem_source::MemSource;
pub use real_files::RealFiles;
pub use sink::{Printer, Sink};
pub use source::Source;
pub use transfer::{CutShort, append_all, read_all, read_full, write_all_at};
pub use world::{RealWorld, World};
