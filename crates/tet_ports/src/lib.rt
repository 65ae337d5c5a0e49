//! Lists of items, bytes and names, the traits by which a program reaches files and streams, and
//! how a program begins: with its words, the folder of the system and its streams.
#![tactic(auto)]

mod bytes;
mod calls;
mod distinct;
mod folder;
mod items;
mod mem_folder;
mod mem_sink;
mod no_memory;
mod os_folder;
mod program;
mod sink;
mod std_sink;
mod streams;
mod words;

pub use bytes::{Bytes, Name};
pub use folder::{FetchFault, Folder, StoreFault};
pub use items::Items;
pub use mem_folder::MemFolder;
pub use mem_sink::MemSink;
pub use no_memory::NoMemory;
pub use os_folder::OsFolder;
pub use program::start;
pub use sink::{PutFault, Sink};
pub use std_sink::StdSink;
pub use streams::{read_whole, write_whole};
pub use words::Words;
