// The laws of address texts and of built packets.

ghost use Rattle.std.specs.Prelude.{◌≡◌, ◌↔◌, ℕ, List, Some};
ghost use Rattle.trex_ipv6.specs.Address.{IsAddress6, address6_of};
ghost use Rattle.trex_ipv6.specs.Built.{built, HeadersVerify};
ghost use Rattle.trex_ipv6.specs.Layer.{Layer};

use trex_headers::headers_verify;

/// Each text of an address is read as the bytes that it writes, and no other text is read.
pub fn written_addresses_are_read()
    ensures { (text bytes : List ℕ) → IsAddress6 text bytes ↔ (address6_of text ≡ Some bytes) }
{}

/// The UDP and TCP segments behind IPv6 headers of a built packet verify.
pub fn built6_headers_verify()
    ensures { (layers : List Layer) → HeadersVerify layers (built layers) }
{
    headers_verify();
}
