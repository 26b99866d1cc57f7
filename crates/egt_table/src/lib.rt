//! Tables of classes and their files, and the streams of bytes that files are read from and written to.
#![tactic(auto)]

pub mod column;
pub mod device;
pub mod failing;
pub mod fault;
pub mod from_std;
pub mod header;
pub mod laws;
pub mod memory;
pub mod reading;
pub mod stream;
pub mod table;
pub mod transfer;
pub mod writing;

pub use column::Column;
pub use device::Device;
pub use failing::{FailingSink, FailingSource};
pub use fault::FileFault;
pub use from_std::{FromStd, ToStd};
pub use memory::{MemorySink, MemorySource};
pub use std::alloc::AllocError as NoMemory;
pub use stream::{Sink, Source};
pub use table::Table;
