// Rounds of three works at any number of gates, and a round of two works that wait for each other.

ghost use Rattle.std.specs.Prelude.{◌≡◌, ◌≤◌, [], ◌∷◌, IfOk};
ghost use Rattle.trex_crew.specs.Crews.{works_of};

use std::alloc::Global;
use std::marker::Model;
use std::sync::Arc;
use std::sync::atomic::AtomicU64;
use std::sync::atomic::Ordering::SeqCst;
use std::test::Fail;
use std::thread::{Threads, yield_now};
use trex_claims::{CountingPiece, Piece};
use trex_crew::{Crew, ListGate, Open};
use trex_io::Memory;

/// A crew of three works that took no turn.
fn three(alloc: Global) -> Result<Crew<CountingPiece>, Memory>
    ensures rounds { IfOk result (λ crew. crew.rounds ≡ 0) }
    ensures works { IfOk result (λ crew. works_of crew
        ≡ record { core = 0; turns = 0 } ∷ record { core = 1; turns = 0 } ∷ record { core = 2; turns = 0 } ∷ []) }
{
    let works = [
        CountingPiece { core: 0, turns: 0 },
        CountingPiece { core: 1, turns: 0 },
        CountingPiece { core: 2, turns: 0 },
    ];
    Crew::new(alloc, works.to_vec(alloc)?)
}

/// How often a gate was entered in a round for a core.
fn has(gate: &ListGate, round: u64, core: u32) -> usize {
    let entries = gate.entries().iter();
    entries
        .filter(|entry| entry.0 == round && entry.1 == core)
        .count()
}

#[test]
fn two_gates_share_the_entries(rt: HostRuntime) -> Result<(), Fail> {
    let mut crew = three(rt.alloc())?;
    let mut gates = [ListGate::new(rt.alloc(), 6)?, ListGate::new(rt.alloc(), 6)?];
    crew.round(&rt, &mut gates);
    crew.round(&rt, &mut gates);
    let [one, other] = &gates;
    for round in 0..2u64 {
        for core in 0..3u32 {
            let entries = has(one, round, core).checked_add(has(other, round, core));
            assert_eq!(rt; entries, Some(1));
        }
    }
    assert_eq!(rt;
        one.entries().len().checked_add(other.entries().len()),
        Some(6)
    );
    assert_eq!(rt; crew.rounds(), 2);
    for work in crew.works() {
        assert_eq!(rt; work.turns(), 2);
    }
    Ok(())
}

/// A crew after a round with so many open gates.
fn turned_with<R: Threads + Sync>(
    rt: &R,
    alloc: Global,
    count: usize,
) -> Result<Crew<CountingPiece>, Memory>
    requires { count ≤ 8 }
{
    let mut crew = three(alloc)?;
    let mut gates = [Open; 8];
    crew.round(rt, &mut gates[..count]);
    Ok(crew)
}

#[test]
fn any_number_of_gates_gives_each_work_one_turn(rt: HostRuntime) -> Result<(), Fail> {
    for count in 0..=8 {
        let crew = turned_with(&rt, rt.alloc(), count)?;
        for work in crew.works() {
            assert_eq!(rt; work.turns(), 1);
        }
    }
    Ok(())
}

/// How often a piece looks for the other.
const LOOKS: u32 = 100_000_000;

/// How many pieces have begun a turn, and how many of these found that the other had.
#[derive(Drop)]
struct Meeting {
    round_opened: AtomicU64,
    met: AtomicU64,
}

/// A piece that waits in its turn, up to a stated number of looks, until the other's turn has begun.
#[derive(Drop)]
struct Guest {
    core: u32,
    turns: u64,
    meeting: Arc<Meeting, Global>,
}

impl Model for Guest {
    ghost use Rattle.std.specs.Prelude.{ℕ};

    ghost Value = { ℕ × ℕ };

    ghost view = { λ g. (g.core, g.turns) };
}

/// A turn begins, and waits until two have.
fn meet(meeting: &Meeting) {
    meeting.round_opened.fetch_add(1, SeqCst);
    for _ in 0..LOOKS {
        if meeting.round_opened.load(SeqCst) >= 2 {
            meeting.met.fetch_add(1, SeqCst);
            return;
        }
        yield_now();
    }
}

impl Piece for Guest {
    ghost use Rattle.std.specs.Prelude.{◌+◌, []};

    ghost core_of = { λ g. g.0 };

    ghost turns_of = { λ g. g.1 };

    ghost stem_of = { λ _. [] };

    ghost is_settled = { λ _. Unit {0} };

    ghost turned = { λ g. (g.0, g.1 + 1) };

    ghost is_turned = { λ old new sound core turns stem settled i. (core i, turns i) };

    fn core(&self) -> u32 {
        self.core
    }

    fn turns(&self) -> u64 {
        self.turns
    }

    fn turn(&mut self) {
        meet(&self.meeting);
        self.turns += 1;
    }
}

/// A crew of two guests of a meeting.
fn two_guests(alloc: Global, meeting: &Arc<Meeting, Global>) -> Result<Crew<Guest>, Memory>
    ensures rounds { IfOk result (λ crew. crew.rounds ≡ 0) }
    ensures works { IfOk result (λ crew. works_of crew ≡ (0, 0) ∷ (1, 0) ∷ []) }
{
    let first = Guest {
        core: 0,
        turns: 0,
        meeting: Arc::try_clone(meeting)?,
    };
    let second = Guest {
        core: 1,
        turns: 0,
        meeting: Arc::try_clone(meeting)?,
    };
    let mut works = Vec::with_capacity(alloc, 2)?;
    works.push_reserved(first);
    works.push_reserved(second);
    Crew::new(alloc, works)
}

#[test]
fn turns_are_taken_at_the_same_time(rt: HostRuntime) -> Result<(), Fail> {
    let meeting = Arc::new(
        rt.alloc(),
        Meeting {
            round_opened: AtomicU64::new(0),
            met: AtomicU64::new(0),
        },
    )?;
    let mut crew = two_guests(rt.alloc(), &meeting)?;
    crew.round(&rt, &mut [Open; 2]);
    assert_eq!(rt; meeting.met.load(SeqCst), 2);
    Ok(())
}
