// The packet of a stream, as bytes or by layers.

ghost use Rattle.std.specs.Prelude.{◌≡◌, count_by, map, IfOk, None, Some, option_map, if◌then◌else◌};
ghost use Rattle.serde_json.specs.View.{view};
ghost use Rattle.trex_headers.specs.Built.{built};
ghost use Rattle.trex_headers.specs.Layer.{layer_of as lent_layer};
ghost use Rattle.trex_headers.specs.Order.{is_ipv6};
ghost use Rattle.trex_profile.specs.Answer.{Gives};
ghost use Rattle.trex_profile.specs.Order.{first_each, unless};
ghost use Rattle.trex_json.specs.Layer.{layer};
ghost use Rattle.trex_json.specs.Layers.{build_rules, ethernet_wrong, ipv4, ipv4_wrong, ipv6, ipv6_wrong, layer_by, layer_of, layer_rule, layer_wrong, layers_of, layers_rules, names_wrong, tcp, tcp_wrong, template_of, template_rules, udp_wrong, version_over, vlan_wrong};

use crate::binary::bytes_field;
use crate::kinds::{LayerWord, an_object};
use crate::layer::{AnyLayer, views};
use crate::names::{
    address_field, address6_field, array_field, layer_field, mac_field, under, whole_field,
};
use serde_json::Value;
use std::alloc::Global;
use trex_headers::{BuildFault, LayerView, Version, build};
use trex_io::Memory;
use trex_profile::{Rule, StreamFault};

/// The type of an Ethernet header or a tag where the profile gives none: a number for local experiments (IEEE 802, section 9.2.4).
const LOCAL_TYPE: u64 = 0x88b5;

/// The protocol of an IPv4 header where the profile gives none: a number for experiments (RFC 3692, section 2.1).
const EXPERIMENT: u64 = 253;

/// The next header of an IPv6 header where the profile gives none: that no header follows (RFC 8200, section 4.7).
const NO_NEXT_HEADER: u64 = 59;

/// The greatest flow label of an IPv6 header, of 20 bits (RFC 8200, section 3).
const GREATEST_LABEL: u64 = 1_048_575;

const GREATEST_WORD: u64 = 65_535;

const GREATEST_DOUBLE: u64 = 4_294_967_295;

/// An Ethernet layer.
#[tactic(auto, unfolding(crate::specs::Layers::ethernet_wrong))]
fn ethernet(item: &Value) -> Option<AnyLayer>
    ensures { option_map layer result
        ≡ (if ethernet_wrong (view item.now) then None else Some (layer_by LayerWord.Ethernet (view item.now))) }
{
    let dst = mac_field(item, "dst")?;
    let src = mac_field(item, "src")?;
    let etype = whole_field(item, "etype", GREATEST_WORD, Some(LOCAL_TYPE))? as u16;
    Some(AnyLayer::Ethernet { dst, src, etype })
}

/// A tag.
#[tactic(auto, unfolding(crate::specs::Layers::vlan_wrong))]
fn vlan(item: &Value) -> Option<AnyLayer>
    ensures { option_map layer result
        ≡ (if vlan_wrong (view item.now) then None else Some (layer_by LayerWord.Vlan (view item.now))) }
{
    let tci = whole_field(item, "tci", GREATEST_WORD, None)? as u16;
    let etype = whole_field(item, "etype", GREATEST_WORD, Some(LOCAL_TYPE))? as u16;
    Some(AnyLayer::Vlan { tci, etype })
}

/// An IPv4 layer.
#[tactic(auto, unfolding(crate::specs::Layers::ipv4_wrong))]
fn ipv4(item: &Value) -> Option<AnyLayer>
    ensures { option_map layer result ≡ (if ipv4_wrong (view item.now) then None else Some (ipv4 (view item.now))) }
{
    let tos = whole_field(item, "tos", 255, Some(0))? as u8;
    let id = whole_field(item, "id", GREATEST_WORD, Some(0))? as u16;
    let frag = whole_field(item, "frag", GREATEST_WORD, Some(0))? as u16;
    let ttl = whole_field(item, "ttl", 255, Some(64))? as u8;
    let proto = whole_field(item, "proto", 255, Some(EXPERIMENT))? as u8;
    let src = address_field(item, "src")?;
    let dst = address_field(item, "dst")?;
    Some(AnyLayer::Ipv4 {
        tos,
        id,
        frag,
        ttl,
        proto,
        src,
        dst,
    })
}

/// An IPv6 layer.
#[tactic(auto, unfolding(crate::specs::Layers::ipv6_wrong))]
fn ipv6(item: &Value) -> Option<AnyLayer>
    ensures { option_map layer result ≡ (if ipv6_wrong (view item.now) then None else Some (ipv6 (view item.now))) }
{
    let class = whole_field(item, "class", 255, Some(0))? as u8;
    let label = whole_field(item, "label", GREATEST_LABEL, Some(0))? as u32;
    let hop = whole_field(item, "hop", 255, Some(64))? as u8;
    let next = whole_field(item, "next", 255, Some(NO_NEXT_HEADER))? as u8;
    let src = address6_field(item, "src")?;
    let dst = address6_field(item, "dst")?;
    Some(AnyLayer::Ipv6 {
        class,
        label,
        hop,
        next,
        src,
        dst,
    })
}

/// A TCP layer.
#[tactic(auto, unfolding(crate::specs::Layers::tcp_wrong))]
fn tcp(item: &Value) -> Option<AnyLayer>
    ensures { option_map layer result ≡ (if tcp_wrong (view item.now) then None else Some (tcp (view item.now))) }
{
    let sport = whole_field(item, "sport", GREATEST_WORD, None)? as u16;
    let dport = whole_field(item, "dport", GREATEST_WORD, None)? as u16;
    let seq = whole_field(item, "seq", GREATEST_DOUBLE, Some(0))? as u32;
    let ack = whole_field(item, "ack", GREATEST_DOUBLE, Some(0))? as u32;
    let flags = whole_field(item, "flags", 255, Some(2))? as u8;
    let window = whole_field(item, "window", GREATEST_WORD, Some(8192))? as u16;
    Some(AnyLayer::Tcp {
        sport,
        dport,
        seq,
        ack,
        flags,
        window,
    })
}

/// A UDP layer.
#[tactic(auto, unfolding(crate::specs::Layers::udp_wrong))]
fn udp(item: &Value) -> Option<AnyLayer>
    ensures { option_map layer result ≡ (if udp_wrong (view item.now) then None else Some (layer_by LayerWord.Udp (view item.now))) }
{
    let sport = whole_field(item, "sport", GREATEST_WORD, None)? as u16;
    let dport = whole_field(item, "dport", GREATEST_WORD, None)? as u16;
    Some(AnyLayer::Udp { sport, dport })
}

/// A layer of that word, where its names are there and of their kinds.
fn layer_by(alloc: Global, word: LayerWord, item: &Value) -> Result<Option<AnyLayer>, Memory>
    ensures { IfOk result (λ read. option_map layer read ≡ (if names_wrong word (view item.now) then None else Some (layer_by word (view item.now)))) }
{
    Ok(match word {
        LayerWord::Ethernet => ethernet(item),
        LayerWord::Vlan => vlan(item),
        LayerWord::Ipv4 => ipv4(item),
        LayerWord::Ipv6 => ipv6(item),
        LayerWord::Tcp => tcp(item),
        LayerWord::Udp => udp(item),
        LayerWord::Raw => match bytes_field(alloc, item, "binary")? {
            Some(bytes) => Some(AnyLayer::Raw { bytes }),
            None => None,
        },
    })
}

/// A layer, where it is one.
#[tactic(auto, unfolding(crate::specs::Layers::layer_wrong))]
fn layer_of(alloc: Global, item: &Value) -> Result<Option<AnyLayer>, Memory>
    ensures { IfOk result (λ read. option_map layer read ≡ (if layer_wrong (view item.now) then None else Some (layer_of (view item.now)))) }
{
    let Some(item) = an_object(item) else {
        return Ok(None);
    };
    match layer_field(item, "type") {
        Some(word) => layer_by(alloc, word, item),
        None => Ok(None),
    }
}

/// The layers of a packet, in order. A place that doesn't fit 32 bits, which no text that is read has, counts as out of memory.
fn each_layer(alloc: Global, items: &[Value]) -> Result<Vec<AnyLayer>, StreamFault>
    ensures { Gives (λ layers. map layer layers.items) result
        (unless (first_each layer_rule 0 (map view items.now)) (map layer_of (map view items.now))) }
{
    let mut layers = Vec::new(alloc);
    for (at, item) in items.iter().enumerate() {
        match layer_of(alloc, item)? {
            Some(layer) => layers.push(layer)?,
            None => match u32::try_from(at) {
                Ok(place) => return Err(StreamFault::at_place(place, Rule::BadLayer)),
                Err(_) => return Err(StreamFault::Memory),
            },
        }
    }
    Ok(layers)
}

/// The number of IPv6 headers among these layers.
fn ipv6_headers(layers: &[LayerView<'_>]) -> usize
    ensures { result ≡ count_by is_ipv6 (map lent_layer layers.now) }
{
    layers
        .iter()
        .filter(|layer| matches!(layer, LayerView::Ipv6 { .. }))
        .count()
}

/// The version of IP over which layers are built: 6 where one of them is its header, else 4.
fn version_over(layers: &[LayerView<'_>]) -> Version
    ensures { result ≡ version_over (map lent_layer layers.now) }
{
    if ipv6_headers(layers) == 0 {
        Version::V4
    } else {
        Version::V6
    }
}

/// The packet of some layers.
fn built(alloc: Global, layers: &[AnyLayer]) -> Result<Vec<u8>, StreamFault>
    ensures { Gives (λ packet. packet.items) result (unless (build_rules (map layer layers.now)) (built (map layer layers.now))) }
{
    let views = views(alloc, layers)?;
    match build(alloc, version_over(&views), &views) {
        Ok(packet) => Ok(packet),
        Err(BuildFault::Order { at }) => match u32::try_from(at) {
            Ok(place) => Err(StreamFault::at_place(place, Rule::LayerOrder)),
            Err(_) => Err(StreamFault::Memory),
        },
        Err(BuildFault::TooLong) => Err(StreamFault::of_stream(Rule::LayersTooLong)),
        Err(BuildFault::Memory) => Err(StreamFault::Memory),
    }
}

/// The packet that a packet's layers give.
#[tactic(auto, unfolding(crate::specs::Layers::layers_rules))]
fn layered(alloc: Global, packet: &Value) -> Result<Vec<u8>, StreamFault>
    ensures { Gives (λ packet. packet.items) result (unless (layers_rules (view packet.now)) (built (layers_of (view packet.now)))) }
{
    let items = array_field(packet, "layers").ok_or(StreamFault::of_stream(Rule::BadLayer))?;
    let layers = each_layer(alloc, items)?;
    built(alloc, &layers)
}

/// The bytes of a packet: those that it has, or else those that its layers give.
#[tactic(auto, unfolding(crate::specs::Layers::template_rules, crate::specs::Layers::template_of))]
pub(crate) fn template_of(alloc: Global, packet: &Value) -> Result<Vec<u8>, StreamFault>
    ensures { Gives (λ packet. packet.items) result (unless (template_rules (view packet.now)) (template_of (view packet.now))) }
{
    if under(packet, "binary").is_none() {
        return layered(alloc, packet);
    }
    let bytes = bytes_field(alloc, packet, "binary")?;
    bytes.ok_or(StreamFault::of_stream(Rule::BadBinary))
}
