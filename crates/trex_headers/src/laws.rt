// The law of built packets.

ghost use Rattle.std.specs.Prelude.{List};
ghost use Rattle.trex_headers.specs.declared.layer.Version.{Version};
ghost use Rattle.trex_headers.specs.Built.{built};
ghost use Rattle.trex_headers.specs.Layer.{Layer};
ghost use Rattle.trex_headers.specs.Verified.{HeadersVerify};

/// The headers of a built packet verify, over either version of IP: each IPv4 header, and each UDP or TCP segment behind an IP header.
pub fn headers_verify()
    ensures { (version : Version) (layers : List Layer) → HeadersVerify version layers (built layers) }
{}
