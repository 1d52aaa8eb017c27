//! Readers and writers of bytes, as contracts see them: the bytes given and taken, and how many calls failed.
pub mod buffered;
pub mod fail_at;
mod fault;
pub mod memory;
pub mod sink;
pub mod source;
pub mod standard;
mod transcript;

pub use buffered::BufferedSink;
pub use fail_at::FailAt;
pub use fault::{ReadFailed, WriteFailed};
pub use memory::{MemorySink, MemorySource};
pub use sink::{Sink, write_all};
pub use source::Source;
pub use standard::{ReadSource, WriteSink};
