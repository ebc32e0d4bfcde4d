// The records of a payload and the pools that hold them.
#![tactic(auto)]

mod blank;
mod keys;
mod kind;
mod make;
mod pool;
mod range;
mod records;
mod table;
mod texts;
mod types;

pub use keys::{AnyValueKey, UnknownKey};
pub use pool::{Pool, Record};
pub use records::Records;
pub use table::StringTable;
pub use types::{
    Node, Place, Range, Span, SpanEvent, SpanKind, SpanLink, TraceChunk, TracerPayload,
};
