// Copyright 2026-Present Datadog, Inc. https://www.datadoghq.com/
// SPDX-License-Identifier: Apache-2.0
// Changed: entries are nodes of a pool, and the depth that is left is passed along.

// The map reader and the value reader, which call each other with the depth that is left.
ghost use Rattle.std.specs.Prelude.{◌≡◌};
ghost use Rattle.refusal.specs.Runs.{repeat};
ghost use Rattle.decode.specs.State.{Did};
ghost use Rattle.attributes.specs.Element.{has_key, stride_of};
ghost use Rattle.attributes.specs.Attributes.{body, typed, member, group, attributes};

use crate::Body;
use crate::element::Element;
use crate::node::{close_node, read_key, reserve_node};
use decode::{Decoder, read_array_len, read_bin, read_bool, read_f64, read_i64, read_u8};
use refusal::{Kind, Layer, Refusal};
use span::{AnyValueKey, Place, Range};
use texts::read_interned_string;

// A value straight in a record's map has depth 1.
pub const LEVELS: usize = 64;

// The value of a type, whose number began at `at`.
#[cycle(attributes)]
fn read_body(
    decoder: &mut Decoder,
    at: usize,
    type_number: u8,
    depth: usize,
) -> Result<Body, Refusal>
    ensures { Did (λ input room. body input room (member input room depth) at type_number) decoder.old decoder.new result }
{
    let Ok(value_key) = AnyValueKey::try_from(type_number) else {
        return Err(Refusal::new(Kind::InvalidFormat, Layer::Attribute, at));
    };
    Ok(match value_key {
        AnyValueKey::String => { Body::content(read_interned_string(decoder.buf, decoder.table)?) }
        AnyValueKey::Bool => Body::number(read_bool(decoder.buf, Layer::Attribute)? as u64),
        AnyValueKey::Double => Body::number(read_f64(decoder.buf, Layer::Attribute)?),
        AnyValueKey::Int64 => {
            Body::number(read_i64(decoder.buf, Layer::Attribute)?.cast_unsigned())
        }
        AnyValueKey::Bytes => Body::content(read_bin(decoder.buf, Layer::Attribute)?),
        AnyValueKey::Array => {
            read_group(decoder, Element::Member, depth)?;
            Body::default()
        }
        AnyValueKey::KeyValueList => {
            read_attributes_map(decoder, depth)?;
            Body::default()
        }
    })
}

// What stands behind the key of the node at the index.
#[cycle(attributes)]
fn read_typed_attribute_value(
    decoder: &mut Decoder,
    index: usize,
    key: Place,
    depth: usize,
) -> Result<(), Refusal>
    ensures { Did (λ input room. typed input room (member input room depth) index key) decoder.old decoder.new result }
{
    let at = decoder.offset();
    let type_number = read_u8(decoder.buf, Layer::Attribute)?;
    let body = read_body(decoder, at, type_number, depth)?;
    close_node(decoder, index, key, type_number, body);
    Ok(())
}

// An entry or a member, with at most `depth` levels.
#[cycle(attributes)]
#[tactic(auto, using(crate::proofs::Levels::member_none, crate::proofs::Levels::member_at))]
fn read_member(decoder: &mut Decoder, element: Element, depth: usize) -> Result<(), Refusal>
    ensures { Did (λ input room. member input room depth (has_key element)) decoder.old decoder.new result }
{
    if depth == 0 {
        return Err(Refusal::new(Kind::TooDeep, Layer::Attribute, decoder.offset()));
    }
    let index = reserve_node(decoder)?;
    let key = read_key(decoder, element)?;
    read_typed_attribute_value(decoder, index, key, depth - 1)
}

#[cycle(attributes)]
fn repeat_member(
    decoder: &mut Decoder,
    element: Element,
    count: u32,
    depth: usize,
) -> Result<(), Refusal>
    ensures { Did (λ input room. repeat (λ u. member input room depth (has_key element)) count tt) decoder.old decoder.new result }
{
    for _ in 0..count {
        read_member(decoder, element, depth)?;
    }
    Ok(())
}

// An array of entries or members.
#[cycle(attributes)]
fn read_group(decoder: &mut Decoder, element: Element, depth: usize) -> Result<(), Refusal>
    ensures { Did (λ input room. group input room (stride_of element) (member input room depth (has_key element))) decoder.old decoder.new result }
{
    let at = decoder.offset();
    let items = read_array_len(decoder.buf, Layer::Attribute)?;
    let stride = element.stride();
    if items % stride != 0 {
        return Err(Refusal::new(Kind::InvalidFormat, Layer::Attribute, at));
    }
    repeat_member(decoder, element, items / stride, depth)
}

// A map whose entries have at most `depth` levels: the range of all its nodes.
#[cycle(attributes)]
pub fn read_attributes_map(decoder: &mut Decoder, depth: usize) -> Result<Range, Refusal>
    ensures { Did (λ input room. attributes input room depth) decoder.old decoder.new result }
{
    let first = decoder.records.nodes.len();
    read_group(decoder, Element::Entry, depth)?;
    Ok(Range::new(first, decoder.records.nodes.len().saturating_sub(first)))
}
