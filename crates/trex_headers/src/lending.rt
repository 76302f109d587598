// How the owned layers of the crates above are lent to the writer of headers.

ghost use Rattle.std.specs.Prelude.{◌≡◌, IfOk, map};
ghost use Rattle.trex_headers.specs.Layer.{Layer, layer_of};

use crate::layer::LayerView;
use std::alloc::{AllocError, Global};

/// A layer of a type that owns it.
pub trait AsLayer {
    /// The layer as plain data.
    ghost plain: { Self → Layer };

    /// The layer, lent to the writer of headers.
    fn as_layer(&self) -> LayerView<'_>
        ensures { layer_of result ≡ plain self.now };
}

/// Lends some layers to the writer of headers.
pub(crate) fn views<L: AsLayer>(
    alloc: Global,
    layers: &[L],
) -> Result<Vec<LayerView<'_>>, AllocError>
    ensures { IfOk result (λ views. map layer_of views.items ≡ map L.plain layers.now) }
{
    let mut views = Vec::with_capacity(alloc, layers.len())?;
    for one in layers {
        views.push(one.as_layer())?;
    }
    Ok(views)
}

/// Lends a layer of an owned type, given the type's name and the arm of its IP header; the other layers are those of `LayerView`.
#[macro_export]
macro_rules! lend {
    ($one:expr, $Held:ident, $($network:tt)*) => {
        match $one {
            $Held::Ethernet { dst, src, etype } => $crate::LayerView::Ethernet { dst, src, etype: *etype },
            $Held::Vlan { tci, etype } => $crate::LayerView::Vlan { tci: *tci, etype: *etype },
            $($network)*
            $Held::Tcp { sport, dport, seq, ack, flags, window } => $crate::LayerView::Tcp {
                sport: *sport,
                dport: *dport,
                seq: *seq,
                ack: *ack,
                flags: *flags,
                window: *window,
            },
            $Held::Udp { sport, dport } => $crate::LayerView::Udp { sport: *sport, dport: *dport },
            $Held::Raw { bytes } => $crate::LayerView::Raw { bytes },
        }
    };
}
