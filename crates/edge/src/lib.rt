//! The outside as traits with a written meaning: a source and a sink of bytes, stores of bytes, and files by
//! name, each in memory and over std.
#![tactic(auto)]

mod files;
mod host;
mod listed_calls;
mod memory;
mod memory_files;
mod memory_store;
mod outside;
mod standard;
mod store;

pub use files::{FetchOk, Files};
pub use host::{HostFiles, HostStore};
pub use listed_calls::ListedCalls;
pub use memory::{MemSink, MemSource};
pub use memory_files::MemFiles;
pub use memory_store::MemStore;
pub use outside::{Failed, Sink, Source};
pub use standard::{StdSink, StdSource};
pub use store::Store;
