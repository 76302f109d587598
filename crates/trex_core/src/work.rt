// The work of a core: its packets, made in turns.

ghost use Rattle.std.specs.Prelude.{◌≡◌, ◌+◌, ◌<◌, ◌≤◌, ◌^◌, [], ◌∷◌, ◌++◌, IfOk, IfSome, false, length, map, take, drop, slice_get};
ghost use Rattle.std.specs.List.{AllByRecursion};
ghost use Rattle.std.specs.Option.{option_map};
ghost use Rattle.trex_core.specs.Batches.{IsWithin, batch_of};
ghost use Rattle.trex_core.specs.Plan.{IsSlotOf, frame_at, frames_of_plan};
ghost use Rattle.trex_core.specs.Records.{waiting_of};
ghost use Rattle.trex_core.specs.Texts.{records_text};
ghost use Rattle.trex_core.specs.Works.{IsMade, turned};
ghost use Rattle.trex_merge.specs.Frames.{key_of, share};
ghost use Rattle.trex_merge.specs.Queues.{is_needy, stem};
ghost use Rattle.trex_merge.specs.Runs.{run_length};

use crate::batch::Batch;
use crate::maker::Maker;
use crate::plan::Plan;
use crate::run::Run;
use std::alloc::Global;
use std::marker::Model;
use trex_claims::Piece;
use trex_io::Memory;
use trex_merge::{Feed, Head, Key};
use trex_sched::Walks;

/// The packets of one core of a plan: those that wait in its batch, and those that it has still to make.
#[derive(Drop)]
pub struct CoreWork<'p> {
    core: u32,
    turns: u64,
    maker: Maker<'p>,
    walks: Walks<'p>,
    batch: Batch,
}

impl<'p> Model for CoreWork<'p> {
    ghost use Rattle.std.specs.Prelude.{◌≡◌, map, vec_len};
    ghost use Rattle.std.specs.List.{AllByRecursion};
    ghost use Rattle.trex_core.specs.Batches.{IsWithin};
    ghost use Rattle.trex_core.specs.Plan.{IsSlotOf, frame_at};
    ghost use Rattle.trex_core.specs.Works.{IsMade, Work};

    ghost Value = { Work };

    ghost view = { λ w. record {
      core = w.core;
      turns = w.turns;
      base = w.batch.base;
      queue = record { waiting = w.batch.waiting; coming = map (frame_at w.maker.profile w.maker.base) w.walks };
    } };

    ghost invariant = { λ w. AllByRecursion (IsSlotOf w.maker.profile) w.walks
        × IsWithin w.batch.waiting
        × AllByRecursion IsMade w.batch.waiting
        × (w.batch.base ≡ w.maker.base) };
}

impl<'p> CoreWork<'p> {
    /// The work of core `core` of `cores`, whose packets are those with a number that leaves `core` as the remainder by `cores`. Nothing
    /// waits. The memory for the whole run is taken here.
    pub fn new(
        alloc: Global,
        plan: &'p Plan<'p>,
        core: u32,
        cores: u32,
    ) -> Result<CoreWork<'p>, Memory>
        requires core { core < cores }
        requires cores { cores ≤ 64 }
        ensures { IfOk result (λ work. work ≡ record {
          core = core;
          turns = 0;
          base = plan.now.base;
          queue = record { waiting = []; coming = share core cores (frames_of_plan plan.now) };
        }) }
    {
        let walks = plan.walks(alloc, core, cores)?;
        let maker = Maker::new(alloc, plan, core, cores)?;
        let batch = Batch::new(alloc, plan.base())?;
        Ok(CoreWork {
            core,
            turns: 0,
            maker,
            walks,
            batch,
        })
    }

    /// Takes one turn: the packets that wait stay, and the next are made and put after them, until one doesn't fit or none is left. No memory
    /// is taken.
    pub fn refill(&mut self)
        requires { self.old.turns < 2 ^ 63 }
        ensures turned { self.new ≡ turned self.old }
        ensures settled { self.new.queue.waiting ≡ batch_of (stem self.old.queue) }
        // An empty batch has room for any packet: where something is left, something waits.
        ensures calm { is_needy self.new.queue ≡ false }
    {
        fill(&mut self.maker, &mut self.walks, &mut self.batch);
        self.turns += 1;
    }

    /// The key of the first packet that waits.
    pub fn first_key(&self) -> Option<Key>
        ensures { result ≡ option_map key_of (slice_get self.now.queue.waiting 0) }
    {
        self.batch.first_key()
    }

    /// Of the packets that wait those at the front that stand before a key, or all where there is none, but at most so many.
    pub fn run_before(&self, before: Option<Key>, most: u64) -> Run<'_>
        ensures packets { result.packets.now ≡ map waiting_of (take (run_length before most self.now.queue.waiting) self.now.queue.waiting) }
        ensures text { result.text.now ≡ records_text self.now.base (take (run_length before most self.now.queue.waiting) self.now.queue.waiting) }
        ensures made { AllByRecursion IsMade self.now.queue.waiting }
    {
        self.batch.run_before(before, most)
    }

    /// Takes the first packets that wait away, so many, whose records have so many bytes.
    pub fn drop_run(&mut self, packets: usize, bytes: usize)
        requires packets { packets ≤ length self.old.queue.waiting }
        requires bytes { bytes ≡ length (records_text self.old.base (take packets self.old.queue.waiting)) }
        ensures { self.new ≡ record {
          core = self.old.core;
          turns = self.old.turns;
          base = self.old.base;
          queue = record { waiting = drop packets self.old.queue.waiting; coming = self.old.queue.coming };
        } }
    {
        self.batch.drop_run(packets, bytes);
    }
}

/// Puts packets to a batch, until one doesn't fit or none is left.
fn fill(maker: &mut Maker<'_>, walks: &mut Walks<'_>, batch: &mut Batch)
    requires slots { AllByRecursion (IsSlotOf maker.old.profile) walks.old }
    requires within { IsWithin batch.old.waiting }
    requires made { AllByRecursion IsMade batch.old.waiting }
    ensures stem { batch.new.waiting ++ map (frame_at maker.old.profile maker.old.base) walks.new
        ≡ batch.old.waiting ++ map (frame_at maker.old.profile maker.old.base) walks.old }
    ensures more { length batch.old.waiting ≤ length batch.new.waiting }
    ensures settled { batch.new.waiting ≡ batch_of (batch.old.waiting ++ map (frame_at maker.old.profile maker.old.base) walks.old) }
    ensures calm { batch.new.waiting ≡ [] → walks.new ≡ [] }
    ensures slots { AllByRecursion (IsSlotOf maker.old.profile) walks.new }
    ensures made { AllByRecursion IsMade batch.new.waiting }
    ensures base { batch.new.base ≡ batch.old.base }
    ensures maker { maker.new ≡ maker.old }
{
    'packets: while let Some(slot) = walks.peek() {
        if !maker.put(&slot, batch) {
            return;
        }
        walks.next();
    }
}

impl<'p> Feed for CoreWork<'p> {
    ghost use Rattle.std.specs.Prelude.{◌≡◌, [], ◌∷◌, IfSome, slice_get};
    ghost use Rattle.std.specs.Option.{option_map};
    ghost use Rattle.trex_core.specs.Works.{IsMade};
    ghost use Rattle.trex_merge.specs.Frames.{frame_of};

    ghost queue = { λ w. w.queue };

    ghost mark = { λ w. w.core ∷ w.turns ∷ w.base ∷ [] };

    fn head(&self) -> Option<Head<'_>>
        ensures first { option_map frame_of result ≡ slice_get self.now.queue.waiting 0 }
        ensures made { IfSome result (λ head. IsMade (frame_of head)) }
    {
        self.batch.head()
    }

    fn pop(&mut self) {
        self.batch.pop();
    }

    fn finished(&self) -> bool {
        self.batch.is_empty() && self.walks.peek().is_none()
    }
}

impl<'p> Piece for CoreWork<'p> {
    ghost use Rattle.trex_core.specs.Batches.{IsWithin};
    ghost use Rattle.trex_core.specs.Works.{IsSettled, stem_numbers, turned as after_turn};
    ghost use Rattle.trex_core.specs.Turning.{turned_by_stem};

    ghost core_of = { λ w. w.core };

    ghost turns_of = { λ w. w.turns };

    ghost stem_of = { stem_numbers };

    ghost is_settled = { λ w. IsSettled w.queue };

    ghost is_sound = { λ w. IsWithin w.queue.waiting };

    ghost turned = { after_turn };

    ghost is_turned = { turned_by_stem };

    fn core(&self) -> u32 {
        self.core
    }

    fn turns(&self) -> u64 {
        self.turns
    }

    fn turn(&mut self) {
        self.refill();
    }
}
