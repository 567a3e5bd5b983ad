// What the programs read and write with: bytes one behind the other, in lent slices and in buffers, numbers as text, and streams.
#![tactic(auto)]

mod buffers;
mod numbers;
mod slices;
mod streams;

pub use buffers::Buffer;
pub use slices::{keep, put_bytes, put_number};
pub use streams::{Errors, Fetched, Input, Last, Output, read_more, write_error};
