// A node's value, by its index.
ghost use Rattle.std.specs.Prelude.{◌≡◌, ◌-◌, ◌^◌, ◌<◌};
ghost use Rattle.span.specs.Held.{held};
ghost use Rattle.source.specs.Shows.{value_of, node_shown, value_shown};

use crate::part::text;
use crate::{AttributeValue, BAD_RECORD, Source};
use refusal::Refusal;
use span::{AnyValueKey, Node, Range, Records};

// The value of a node at the index, with as many nodes behind it as it has inside.
fn node_of<'a>(source: Source<'a>, index: usize, node: Node) -> Result<AttributeValue<'a>, Refusal>
    requires { index < 2 ^ 64 - 1 }
    ensures { value_of result ≡ node_shown source.entry.bytes.now index node }
{
    let Ok(key) = AnyValueKey::try_from(node.type_number) else {
        return Err(BAD_RECORD);
    };
    match key {
        AnyValueKey::Array => Ok(AttributeValue::List(Range::new(index + 1, node.inside))),
        AnyValueKey::KeyValueList => {
            Ok(AttributeValue::KeyValue(Range::new(index + 1, node.inside)))
        }
        _ if node.inside > 0 => Err(BAD_RECORD),
        AnyValueKey::String => Ok(AttributeValue::String(text(source, node.place)?)),
        AnyValueKey::Bool if node.pattern > 1 => Err(BAD_RECORD),
        AnyValueKey::Bool => Ok(AttributeValue::Bool(node.pattern == 1)),
        AnyValueKey::Double => Ok(AttributeValue::Float(node.pattern)),
        AnyValueKey::Int64 => Ok(AttributeValue::Int(node.pattern.cast_signed())),
        AnyValueKey::Bytes => Ok(AttributeValue::Bytes(text(source, node.place)?)),
    }
}

// The node at the index. BadRecord: no node is taken there, it reaches past those that are, its type is none of 1 to 7,
// a Bool's pattern is neither 0 nor 1, something is inside what is no list and no map, or its place leaves the bytes.
pub fn value<'a>(
    source: Source<'a>,
    records: &Records<'_>,
    index: usize,
) -> Result<AttributeValue<'a>, Refusal>
    ensures { value_of result ≡ value_shown source.entry.bytes.now (held records.now.nodes) index }
{
    let nodes = records.nodes.as_slice();
    let node = *nodes.get(index).ok_or(BAD_RECORD)?;
    if node.inside > nodes.len() - index - 1 {
        return Err(BAD_RECORD);
    }
    node_of(source, index, node)
}
