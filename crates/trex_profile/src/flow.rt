// The flow of a stream whose packets end in latency headers.

ghost use Rattle.std.specs.Prelude.{◌≡◌, option_map};

use trex_stamp::Version;

/// The flow of a stream's packets: the version of their latency headers, and the number that these carry.
#[derive(Clone, Copy, Debug, PartialEq, Eq, Drop)]
pub struct Flow {
    pub version: Version,
    /// Below 2^16 in version 1.
    pub number: u32,
}

/// The version of the latency headers, where there is a flow.
pub(crate) fn version_of(flow: Option<Flow>) -> Option<Version>
    ensures { result ≡ option_map (λ flow. flow.version) flow }
{
    Some(flow?.version)
}

/// The flow's number, where there is a flow.
pub(crate) fn number_of(flow: Option<Flow>) -> Option<u32>
    ensures { result ≡ option_map (λ flow. flow.number) flow }
{
    Some(flow?.number)
}
