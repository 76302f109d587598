// The order of packets, the merge over a feed of the test, and the laws called once.

ghost use Rattle.std.specs.Prelude.{[], map};
ghost use Rattle.trex_merge.specs.Frames.{frame_of};

use trex_merge::{
    Feed, Head, Key, Mill, Next, any_events, events_keep_the_mill, events_keep_the_shares,
    frames_follow, is_before, least_goes_first, order_is_unique, shares_are_all, what_comes_next,
};

/// The keys of packets, in order: time, stream and number.
const RISING: [(u64, u32, u64); 5] = [
    (1, 0, 9),
    (1, 1, 0),
    (1, 1, 7),
    (2, 0, 0),
    (1_000_000_000_000_000_000, 4_095, 3),
];

/// The key of a time, a stream and a number.
fn key(&(time, stream, number): &(u64, u32, u64)) -> Key {
    Key {
        time,
        stream,
        number,
    }
}

#[test]
fn time_goes_before_stream_and_stream_before_number(rt: HostRuntime) {
    for (i, a) in RISING.iter().enumerate() {
        for (j, b) in RISING.iter().enumerate() {
            assert_eq!(rt; is_before(&key(a), &key(b)), i < j);
        }
    }
}

#[test]
fn the_laws_are_called(_rt: HostRuntime) {
    order_is_unique::<Key>();
    least_goes_first::<Key>();
    any_events();
    events_keep_the_mill();
    events_keep_the_shares();
    what_comes_next();
    shares_are_all();
    frames_follow::<Key>();
}

/// A feed of packets that wait, and of packets that never come.
#[derive(Drop)]
struct Lane<'a> {
    waiting: &'a [Head<'a>],
    coming: &'a [Head<'a>],
}

impl<'a> Feed for Lane<'a> {
    ghost queue = { λ l. record { waiting = map frame_of l.waiting.now; coming = map frame_of l.coming.now } };

    ghost mark = { λ l. [] };

    fn head(&self) -> Option<Head<'_>> {
        self.waiting.first().copied()
    }

    fn pop(&mut self) {
        self.waiting = &self.waiting[1..];
    }

    fn finished(&self) -> bool {
        self.waiting.is_empty() && self.coming.is_empty()
    }
}

/// A packet of two bytes.
fn packet(time: u64, stream: u32, number: u64) -> Head<'static> {
    Head {
        time,
        stream,
        number,
        bytes: b"ab",
    }
}

#[test]
fn packets_of_one_time_go_by_stream_and_then_by_number(rt: HostRuntime) {
    let even = [packet(0, 1, 0), packet(7, 0, 2)];
    let odd = [packet(0, 0, 1), packet(7, 0, 1)];
    let mut lanes = [
        Lane {
            waiting: &even,
            coming: &[],
        },
        Lane {
            waiting: &odd,
            coming: &[],
        },
    ];
    let mut mill = Mill::new(3);
    for feed in [1, 0, 1] {
        let next = mill.peek(&lanes);
        assert_eq!(rt; next, Next::Packet { feed });
        if let Next::Packet { feed } = next {
            mill.take(&mut lanes, feed);
        }
    }
    // Three packets are the limit, though one more waits.
    assert_eq!(rt; lanes[0].waiting.len(), 1);
    assert_eq!(rt; mill.peek(&lanes), Next::End);
}

#[test]
fn a_core_with_nothing_waiting_is_waited_for(rt: HostRuntime) {
    let later = [packet(3, 0, 1)];
    let waiting = Lane {
        waiting: &later,
        coming: &[],
    };
    let owing = Lane {
        waiting: &[],
        coming: &later,
    };
    let done = Lane {
        waiting: &[],
        coming: &[],
    };
    let mill = Mill::new(9);
    assert_eq!(rt; mill.peek(&[done, waiting, owing]), Next::Need { core: 2 });
    assert_eq!(rt; mill.peek::<Lane<'_>>(&[]), Next::End);
}
