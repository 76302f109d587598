// The order in which layers may stand.

ghost use Rattle.std.specs.Prelude.{◌≡◌, count_by, map};
ghost use Rattle.trex_headers.specs.Layer.{layer_of};
ghost use Rattle.trex_headers.specs.Order.{ends_in, is_link, is_network, is_payload, is_tag, may_carry, may_end, may_stand, misplaced};

use crate::layer::{LayerView, Version};

/// The most tags that a packet has.
const MOST_TAGS: usize = 2;

/// Whether this is Ethernet or a tag.
fn is_link(one: &LayerView<'_>) -> bool
    ensures { result ≡ is_link (layer_of one.now) }
{
    matches!(one, LayerView::Ethernet { .. } | LayerView::Vlan { .. })
}

/// Whether this is the IP header of a version.
fn is_network(version: Version, one: &LayerView<'_>) -> bool
    ensures { result ≡ is_network version (layer_of one.now) }
{
    match version {
        Version::V4 => matches!(one, LayerView::Ipv4 { .. }),
        Version::V6 => matches!(one, LayerView::Ipv6 { .. }),
    }
}

/// Whether this is a payload.
fn is_payload(one: &LayerView<'_>) -> bool
    ensures { result ≡ is_payload (layer_of one.now) }
{
    matches!(one, LayerView::Raw { .. })
}

/// Whether a packet over a version of IP may end in this layer.
fn may_end(version: Version, one: &LayerView<'_>) -> bool
    ensures { result ≡ may_end version (layer_of one.now) }
{
    match version {
        Version::V4 => true,
        Version::V6 => !is_link(one),
    }
}

/// Whether there is a last layer, and it is Ethernet or a tag.
fn ends_in_link(before: &[LayerView<'_>]) -> bool
    ensures { result ≡ ends_in is_link (map layer_of before.now) }
{
    match before.last() {
        Some(one) => is_link(one),
        None => false,
    }
}

/// Whether there is a last layer, and it is the IP header of a version.
fn ends_in_network(version: Version, before: &[LayerView<'_>]) -> bool
    ensures { result ≡ ends_in (is_network version) (map layer_of before.now) }
{
    match before.last() {
        Some(one) => is_network(version, one),
        None => false,
    }
}

/// Whether there is a last layer, and a packet may end in it.
fn ends_whole(version: Version, before: &[LayerView<'_>]) -> bool
    ensures { result ≡ ends_in (may_end version) (map layer_of before.now) }
{
    match before.last() {
        Some(one) => may_end(version, one),
        None => false,
    }
}

/// Whether there is a last layer, and a payload may follow it.
fn ends_in_carrier(version: Version, before: &[LayerView<'_>]) -> bool
    ensures { result ≡ ends_in (may_carry version) (map layer_of before.now) }
{
    match before.last() {
        Some(one) => may_end(version, one) && !is_payload(one),
        None => false,
    }
}

/// The number of tags among these layers.
fn tags_in(before: &[LayerView<'_>]) -> usize
    ensures { result ≡ count_by is_tag (map layer_of before.now) }
{
    before
        .iter()
        .filter(|layer| matches!(layer, LayerView::Vlan { .. }))
        .count()
}

/// Whether a layer may stand behind those before it, in a packet over a version of IP.
fn may_stand(version: Version, before: &[LayerView<'_>], one: &LayerView<'_>) -> bool
    ensures { result ≡ may_stand version (map layer_of before.now) (layer_of one.now) }
{
    match one {
        LayerView::Ethernet { .. } => before.is_empty(),
        LayerView::Vlan { .. } => ends_in_link(before) && tags_in(before) < MOST_TAGS,
        LayerView::Ipv4 { .. } | LayerView::Ipv6 { .. } => {
            is_network(version, one) && ends_in_link(before)
        }
        LayerView::Tcp { .. } | LayerView::Udp { .. } => ends_in_network(version, before),
        LayerView::Raw { .. } => ends_in_carrier(version, before),
    }
}

/// The place of the first layer that can't stand where it does, or the number of layers where the packet can't end there.
pub(crate) fn misplaced(version: Version, layers: &[LayerView<'_>]) -> Option<usize>
    ensures { result ≡ misplaced version (map layer_of layers.now) }
{
    for (at, one) in layers.iter().enumerate() {
        if !may_stand(version, &layers[..at], one) {
            return Some(at);
        }
    }
    if ends_whole(version, layers) {
        None
    } else {
        Some(layers.len())
    }
}
