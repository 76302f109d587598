// The table of fields over IPv6.

ghost use Rattle.std.specs.Prelude.{◌≡◌, map};
ghost use Rattle.std.specs.List.{find};
ghost use Rattle.std.specs.Option.{option_map};
ghost use Rattle.trex_ipv6.specs.Fields.{field6_table, named, row6_of};

/// A field of the IPv6 header.
#[derive(Clone, Copy, Drop)]
pub(crate) struct Field6 {
    pub(crate) name: &'static str,
    pub(crate) offset: u8,
    pub(crate) size: u8,
}

macro_rules! fields6 {
    ($($name:literal $offset:literal $size:literal;)*) => {
        [$(Field6 { name: $name, offset: $offset, size: $size },)*]
    };
}

/// All fields: name, offset from the header's first byte and length, both in bytes.
#[tactic(auto, unfolding(crate::specs::Fields::field6_table))]
pub(crate) fn fields6() -> [Field6; 37]
    ensures { map row6_of result ≡ field6_table }
{
    fields6! {
        "IPv6.len" 4 2;
        "IPv6.next" 6 1;
        "IPv6.hop" 7 1;
        "IPv6.src" 8 16;
        "IPv6.dst" 24 16;
        "IPv6.src.0" 8 1;
        "IPv6.src.1" 9 1;
        "IPv6.src.2" 10 1;
        "IPv6.src.3" 11 1;
        "IPv6.src.4" 12 1;
        "IPv6.src.5" 13 1;
        "IPv6.src.6" 14 1;
        "IPv6.src.7" 15 1;
        "IPv6.src.8" 16 1;
        "IPv6.src.9" 17 1;
        "IPv6.src.10" 18 1;
        "IPv6.src.11" 19 1;
        "IPv6.src.12" 20 1;
        "IPv6.src.13" 21 1;
        "IPv6.src.14" 22 1;
        "IPv6.src.15" 23 1;
        "IPv6.dst.0" 24 1;
        "IPv6.dst.1" 25 1;
        "IPv6.dst.2" 26 1;
        "IPv6.dst.3" 27 1;
        "IPv6.dst.4" 28 1;
        "IPv6.dst.5" 29 1;
        "IPv6.dst.6" 30 1;
        "IPv6.dst.7" 31 1;
        "IPv6.dst.8" 32 1;
        "IPv6.dst.9" 33 1;
        "IPv6.dst.10" 34 1;
        "IPv6.dst.11" 35 1;
        "IPv6.dst.12" 36 1;
        "IPv6.dst.13" 37 1;
        "IPv6.dst.14" 38 1;
        "IPv6.dst.15" 39 1;
    }
}

/// The first field of a table with a name.
pub(crate) fn find_field6(table: &[Field6], name: &str) -> Option<Field6>
    ensures { option_map row6_of result ≡ find (named name.now) (map row6_of table.now) }
{
    for field in table {
        if field.name == name {
            return Some(*field);
        }
    }
    None
}
