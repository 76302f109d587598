// The laws of a wire.

ghost use Rattle.std.specs.Prelude.{◌≡◌, ℕ, ◌+◌, ◌<◌, ◌==◌, List, length};
ghost use Rattle.std.specs.List.{filter};
ghost use Rattle.trex_io.specs.Seen.{Seen};
ghost use Rattle.trex_merge.specs.Order.{ordered};
ghost use Rattle.trex_wire.specs.Wired.{arrivals, copies, wired, with_copies};
ghost use Rattle.trex_wire.specs.declared.spec.WireSpec.{WireSpec};

/// Law: each record arrives as often as it has copies, so what arrives and what is lost make up what was sent and what was copied.
pub fn nothing_vanishes()
    ensures each { (ask : WireSpec) (n : ℕ) (rs : List Seen) → n < length rs
        → length (filter (λ k. k.number == n) (ordered (λ k. k) (arrivals ask 0 rs))) ≡ copies ask n }
    ensures all { (ask : WireSpec) (rs : List Seen)
        → length (wired rs ask) + with_copies 0 ask 0 rs ≡ length rs + with_copies 2 ask 0 rs }
{}
