// A layer of a profile, over either version of IP, and how it is lent to the writer of headers.

ghost use Rattle.std.specs.Prelude.{◌≡◌, IfOk, map};
ghost use Rattle.trex_headers.specs.Layer.{layer_of};
ghost use Rattle.trex_json.specs.Layer.{layer};

use std::alloc::Global;
use trex_headers::{LayerView, lend};
use trex_io::Memory;

/// A layer of a packet: the layers of both versions of IP, since a list may name both before its order is looked at.
#[derive(Debug, Drop)]
pub(crate) enum AnyLayer {
    Ethernet {
        dst: [u8; 6],
        src: [u8; 6],
        etype: u16,
    },
    Vlan {
        tci: u16,
        etype: u16,
    },
    Ipv4 {
        tos: u8,
        id: u16,
        frag: u16,
        ttl: u8,
        proto: u8,
        src: u32,
        dst: u32,
    },
    Ipv6 {
        class: u8,
        label: u32,
        hop: u8,
        next: u8,
        src: [u8; 16],
        dst: [u8; 16],
    },
    Tcp {
        sport: u16,
        dport: u16,
        seq: u32,
        ack: u32,
        flags: u8,
        window: u16,
    },
    Udp {
        sport: u16,
        dport: u16,
    },
    Raw {
        bytes: Vec<u8>,
    },
}

/// A layer, lent.
fn view(one: &AnyLayer) -> LayerView<'_>
    ensures { layer_of result ≡ layer one.now }
{
    lend!(one, AnyLayer,
        AnyLayer::Ipv4 {
            tos,
            id,
            frag,
            ttl,
            proto,
            src,
            dst,
        } => LayerView::Ipv4 {
            tos: *tos,
            id: *id,
            frag: *frag,
            ttl: *ttl,
            proto: *proto,
            src: *src,
            dst: *dst,
        },
        AnyLayer::Ipv6 {
            class,
            label,
            hop,
            next,
            src,
            dst,
        } => LayerView::Ipv6 {
            class: *class,
            label: *label,
            hop: *hop,
            next: *next,
            src,
            dst,
        },
    )
}

/// Layers, lent.
pub(crate) fn views(alloc: Global, layers: &[AnyLayer]) -> Result<Vec<LayerView<'_>>, Memory>
    ensures { IfOk result (λ views. map layer_of views.items ≡ map layer layers.now) }
{
    let mut views = Vec::with_capacity(alloc, layers.len())?;
    for one in layers {
        views.push(view(one))?;
    }
    Ok(views)
}
