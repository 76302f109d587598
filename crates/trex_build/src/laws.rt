// The law of built packets.

ghost use Rattle.std.specs.Prelude.{List};
ghost use Rattle.trex_build.specs.Built.{built, HeadersVerify};
ghost use Rattle.trex_build.specs.Layer.{Layer};

use trex_headers::headers_verify;

/// The headers of a built packet verify: each IPv4 header, and each UDP or TCP segment behind one.
pub fn built_headers_verify()
    ensures { (layers : List Layer) → HeadersVerify layers (built layers) }
{
    headers_verify();
}
