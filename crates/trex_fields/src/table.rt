// The table of fields: the name of each, its layer, and its place and length there.

ghost use Rattle.std.specs.Prelude.{◌≡◌, map};
ghost use Rattle.std.specs.List.{find};
ghost use Rattle.std.specs.Option.{option_map};
ghost use Rattle.trex_fields.specs.Fields.{field_table, named};
ghost use Rattle.trex_fields.specs.Rows.{row_of};

/// From where the fields of a layer are counted.
#[derive(Clone, Copy, Drop)]
pub(crate) enum Base {
    /// The packet's start, for the Ethernet header.
    Ethernet,
    /// The packet's start, for the first tag.
    FirstTag,
    /// The packet's start, for the second tag.
    SecondTag,
    /// The IPv4 header's first byte.
    Ipv4,
    /// The TCP header's first byte.
    Tcp,
    /// The UDP header's first byte.
    Udp,
}

/// A field of the table.
#[derive(Clone, Copy, Drop)]
pub(crate) struct Field {
    pub(crate) name: &'static str,
    pub(crate) base: Base,
    pub(crate) offset: u8,
    pub(crate) size: u8,
}

macro_rules! fields {
    ($($name:literal $base:ident $offset:literal $size:literal;)*) => {
        [$(Field { name: $name, base: Base::$base, offset: $offset, size: $size },)*]
    };
}

/// All fields: name, layer, offset from the layer's base and length, both in bytes.
#[tactic(auto, unfolding(crate::specs::Fields::field_table))]
pub(crate) fn fields() -> [Field; 55]
    ensures { map row_of result ≡ field_table }
{
    fields! {
        "Ethernet.dst" Ethernet 0 6;
        "Ethernet.src" Ethernet 6 6;
        "Ethernet.type" Ethernet 12 2;
        "Ethernet.dst.0" Ethernet 0 1;
        "Ethernet.dst.1" Ethernet 1 1;
        "Ethernet.dst.2" Ethernet 2 1;
        "Ethernet.dst.3" Ethernet 3 1;
        "Ethernet.dst.4" Ethernet 4 1;
        "Ethernet.dst.5" Ethernet 5 1;
        "Ethernet.src.0" Ethernet 6 1;
        "Ethernet.src.1" Ethernet 7 1;
        "Ethernet.src.2" Ethernet 8 1;
        "Ethernet.src.3" Ethernet 9 1;
        "Ethernet.src.4" Ethernet 10 1;
        "Ethernet.src.5" Ethernet 11 1;
        "Dot1Q.tci" FirstTag 14 2;
        "Dot1Q.type" FirstTag 16 2;
        "Dot1Q:1.tci" SecondTag 18 2;
        "Dot1Q:1.type" SecondTag 20 2;
        "IP.vihl" Ipv4 0 1;
        "IP.tos" Ipv4 1 1;
        "IP.len" Ipv4 2 2;
        "IP.id" Ipv4 4 2;
        "IP.frag" Ipv4 6 2;
        "IP.ttl" Ipv4 8 1;
        "IP.proto" Ipv4 9 1;
        "IP.chksum" Ipv4 10 2;
        "IP.src" Ipv4 12 4;
        "IP.dst" Ipv4 16 4;
        "IP.addrs" Ipv4 12 8;
        "IP.src.0" Ipv4 12 1;
        "IP.src.1" Ipv4 13 1;
        "IP.src.2" Ipv4 14 1;
        "IP.src.3" Ipv4 15 1;
        "IP.dst.0" Ipv4 16 1;
        "IP.dst.1" Ipv4 17 1;
        "IP.dst.2" Ipv4 18 1;
        "IP.dst.3" Ipv4 19 1;
        "TCP.sport" Tcp 0 2;
        "TCP.dport" Tcp 2 2;
        "TCP.ports" Tcp 0 4;
        "TCP.seq" Tcp 4 4;
        "TCP.ack" Tcp 8 4;
        "TCP.seqack" Tcp 4 8;
        "TCP.dataofs" Tcp 12 1;
        "TCP.flags" Tcp 13 1;
        "TCP.window" Tcp 14 2;
        "TCP.chksum" Tcp 16 2;
        "TCP.urgptr" Tcp 18 2;
        "UDP.sport" Udp 0 2;
        "UDP.dport" Udp 2 2;
        "UDP.ports" Udp 0 4;
        "UDP.len" Udp 4 2;
        "UDP.chksum" Udp 6 2;
        "UDP.head" Udp 0 8;
    }
}

/// The first field of a table with a name.
pub(crate) fn find_field(table: &[Field], name: &str) -> Option<Field>
    ensures { option_map row_of result ≡ find (named name.now) (map row_of table.now) }
{
    for field in table {
        if field.name == name {
            return Some(*field);
        }
    }
    None
}
