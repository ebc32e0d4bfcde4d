// Attribute maps and lists, as flat nodes in the order in which they are read.
#![tactic(auto)]

mod element;
mod map;
mod node;

pub use map::{LEVELS, read_attributes_map};
pub use node::Body;
