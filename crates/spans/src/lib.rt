// Maps of fields and records of pools, and with them spans and the links and events that they hold.
#![tactic(auto)]

mod event;
mod fields;
mod keys;
mod link;
mod pooled;
mod span_record;
mod text;

pub use event::read_span_events;
pub use fields::{Fields, read_fields};
pub use link::read_span_links;
pub use pooled::{Pooled, read_record, read_records};
pub use span_record::{SpanDraft, decode_span};
