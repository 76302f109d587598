// A claim on a core, which a draw gives.

ghost use Rattle.std.specs.Prelude.{◌≡◌};

/// A claim on the piece of a core, by a number that was drawn.
#[derive(Debug, Drop)]
pub struct Claim {
    pub(crate) core: u32,
    pub(crate) base: u64,
    pub(crate) number: u64,
}

impl Claim {
    /// The core.
    pub fn core(&self) -> u32
        ensures { result ≡ self.now.core }
    {
        self.core
    }
}
