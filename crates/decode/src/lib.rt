// Bytes with a place that the readers move, and the readers of single items.
#![tactic(auto)]

mod binary;
mod buffer;
mod decoder;
mod headers;
mod item;
mod numbers;

pub use binary::{read_bin, read_trace_id};
pub use buffer::Buffer;
pub use decoder::Decoder;
pub use headers::{read_array_len, read_bool, read_f64, read_map_len};
pub use numbers::{read_i32, read_i64, read_int, read_u8, read_u32};
