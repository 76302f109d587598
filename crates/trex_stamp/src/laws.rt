// The laws of latency headers.

ghost use Rattle.std.specs.Prelude.{◌≡◌, ◌≢◌, ◌++◌, ◌/◌, ◌^◌, ℕ, List, Some};
ghost use Rattle.trex_stamp.specs.declared.header.Stamp.{Stamp as AStamp};
ghost use Rattle.trex_stamp.specs.declared.header.Version.TheVariants.{Two};
ghost use Rattle.trex_stamp.specs.Stamp.{IsStamp, stamp_bytes, stamp_of};

/// Law: a latency header at the end of any bytes is found again. Version 2 is taken for version 1 where its sequence begins with the marks of
/// version 1, which a sequence below 10^18 doesn't.
pub fn stamps_are_found()
    ensures { (s : AStamp) (front : List ℕ) → IsStamp s → (s.version ≡ Two → s.sequence / 2 ^ 48 ≢ 0xab01)
        → stamp_of (front ++ stamp_bytes s) ≡ Some s }
{}
