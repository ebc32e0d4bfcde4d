// Payloads: their chunks, and the whole of one from bytes.
#![tactic(auto)]

mod chunk;
mod keys;
mod payload;
mod payload_text;
mod whole;

pub use chunk::ChunkDraft;
pub use payload::PayloadDraft;
pub use whole::{ReadPayload, from_slice};
