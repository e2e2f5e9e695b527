//! Files and an output as the caller hands them in: the traits [`Files`] and [`Sink`], implementations
//! of both in memory, and adapters over the system's files and standard output.
#![tactic(auto)]

mod failing;
mod host;
mod keeping;
mod laws;
mod memory;
mod opened;
mod streams;
mod sure;
mod traits;

pub use host::{HostFiles, HostSink};
pub use laws::{rise_lasts, rose_where_greater_or_full, set_file_alone_changes};
pub use memory::{MemoryFiles, MemorySink};
pub use sure::{SureFiles, SureSink};
pub use traits::{Files, LoadFault, Sink, SinkFault, StoreFault};
