// What records show: the parts of the bytes that their places and nodes name.
#![tactic(auto)]

mod node;
mod part;
#[cfg(test)]
mod tests;
mod types;

pub use node::value;
pub use part::text;
use refusal::{Kind, Layer, Refusal};
pub use types::{AttributeValue, Source};

// Places and nodes that show nothing are refused alike: they lie in no layer, and have no place in the input.
const BAD_RECORD: Refusal = Refusal {
    kind: Kind::BadRecord,
    layer: Layer::NoLayer,
    place: 0,
};
