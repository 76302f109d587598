// What the merge takes packets from: the trait `Feed`.

ghost use Rattle.std.specs.Prelude.{◌≡◌, ℕ, ◌<◌, length, List, slice_get};
ghost use Rattle.std.specs.Option.{option_map};
ghost use Rattle.trex_merge.specs.Frames.{frame_of};
ghost use Rattle.trex_merge.specs.Queues.{Queue, is_finished, popped};

use crate::head::Head;

/// Packets in order, of which some wait and others are still to come.
pub trait Feed {
    /// The packets that wait, and those to come.
    ghost queue: { Self → Queue };

    /// What else the feed knows, which `pop` keeps.
    ghost mark: { Self → List ℕ };

    /// The first packet that waits, which stays. None exactly where none waits.
    fn head(&self) -> Option<Head<'_>>
        ensures { option_map frame_of result ≡ slice_get (queue self.now).waiting 0 };

    /// Takes the first packet that waits away.
    fn pop(&mut self)
        requires { 0 < length (queue self.old).waiting }
        ensures queue { queue self.new ≡ popped (queue self.old) }
        ensures mark { mark self.new ≡ mark self.old };

    /// Nothing waits, and nothing is to come.
    fn finished(&self) -> bool
        ensures { result ≡ is_finished (queue self.now) };
}
