// One node: taken before what it holds is read, and written once that is done.
ghost use Rattle.std.specs.Prelude.{◌≡◌, Ok};
ghost use Rattle.refusal.specs.declared.Layer.TheVariants.{Attribute};
ghost use Rattle.decode.specs.Reader.{nodes_part, reserve_in};
ghost use Rattle.decode.specs.State.{Did};
ghost use Rattle.attributes.specs.Element.{has_key};
ghost use Rattle.attributes.specs.Attributes.{close, key, number, content};

use crate::element::Element;
use decode::Decoder;
use refusal::{Kind, Layer, Refusal};
use span::{Node, Place};
use texts::read_interned_string;

// What a node's value is, beside the nodes inside it.
#[derive(Clone, Copy, Default, PartialEq, Eq, Debug)]
pub struct Body {
    pub pattern: u64,
    pub place: Place,
}

impl Body {
    pub fn number(pattern: u64) -> Body
        ensures { result ≡ number pattern }
    {
        Body {
            pattern,
            ..Body::default()
        }
    }

    pub fn content(place: Place) -> Body
        ensures { result ≡ content place }
    {
        Body {
            place,
            ..Body::default()
        }
    }
}

// Takes the next node.
pub fn reserve_node(decoder: &mut Decoder) -> Result<usize, Refusal>
    ensures { Did (λ input. reserve_in nodes_part Attribute) decoder.old decoder.new result }
{
    let at = decoder.offset();
    let index = decoder.records.nodes.push(Node::default());
    index.ok_or(Refusal::new(Kind::PoolFull, Layer::Attribute, at))
}

// Writes the node that was taken at the index, now that all that belongs to it lies behind it.
pub fn close_node(decoder: &mut Decoder, index: usize, key: Place, type_number: u8, body: Body)
    ensures { Did (λ input room. close index key type_number body) decoder.old decoder.new (Ok result) }
{
    let nodes = &mut decoder.records.nodes;
    let inside = nodes.len().saturating_sub(index).saturating_sub(1);
    nodes.put(
        index,
        Node {
            key,
            type_number,
            pattern: body.pattern,
            place: body.place,
            inside,
        },
    );
}

// The key of a map's entry; a list's member has none.
pub fn read_key(decoder: &mut Decoder, element: Element) -> Result<Place, Refusal>
    ensures { Did (λ input room. key input room (has_key element)) decoder.old decoder.new result }
{
    match element {
        Element::Entry => read_interned_string(decoder.buf, decoder.table),
        Element::Member => Ok(Place::default()),
    }
}
