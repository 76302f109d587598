// What a piece of work is: the trait `Piece`.

ghost use Rattle.std.specs.Prelude.{◌≡◌, ℕ, ◌+◌, ◌<◌, ◌^◌, List};

/// A piece of work of one core. It takes turns, one after another, on any thread.
pub trait Piece: Send + Drop {
    /// The core.
    ghost core_of: { Self → ℕ };

    /// How many turns it took.
    ghost turns_of: { Self → ℕ };

    /// What a turn leaves as it is.
    ghost stem_of: { Self → List (List ℕ) };

    /// It is as a turn leaves it.
    ghost is_settled: { Self → Type 0 };

    /// What is true of each piece, where contracts see more values than there are pieces.
    ghost is_sound: { Self → Type 0 } = { λ _. Unit {0} };

    /// What one turn makes of it.
    ghost turned: { Self → Self };

    /// The core.
    fn core(&self) -> u32
        ensures core { result ≡ core_of self.now }
        ensures sound { is_sound self.now };

    /// How many turns it took.
    fn turns(&self) -> u64
        ensures { result ≡ turns_of self.now };

    /// Takes one turn more. Core and stem stay, and it is settled afterwards.
    fn turn(&mut self)
        requires { turns_of self.old < 2 ^ 63 }
        ensures turned { self.new ≡ turned self.old }
        ensures core { core_of self.new ≡ core_of self.old }
        ensures turns { turns_of self.new ≡ turns_of self.old + 1 }
        ensures stem { stem_of self.new ≡ stem_of self.old }
        ensures settled { is_settled self.new };

    // A settled piece with the core and the stem of a sound one, and one turn more, is what a turn makes of that one.
    ghost is_turned: { (old new : Self) → is_sound old → core_of new ≡ core_of old → turns_of new ≡ turns_of old + 1
        → stem_of new ≡ stem_of old → is_settled new → new ≡ turned old };
}
