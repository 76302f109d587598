// The values of each kind of variable on 1 to 5 cores. Those of random ones were computed by a second program.

ghost use Rattle.std.specs.Prelude.{◌≡◌, ◌^◌, ◌<◌, ◌≤◌, None, length};
ghost use Rattle.trex_vars.specs.Check.{fault_of};
ghost use Rattle.trex_vars.specs.Variable.{variable_of};

use std::alloc::{AllocError, Global};
use std::process::Abort;
use std::test::Fail;
use trex_vars::{Op, Strided, VarFault, VarSpec, VarValue, check};

macro_rules! numbers {
    ($($number:expr),*) => {
        [$(VarValue::One($number)),*]
    };
}

macro_rules! pairs {
    ($(($ip:expr, $port:expr)),*) => {
        [$(VarValue::Pair { ip: $ip, port: $port }),*]
    };
}

/// Core `core` of `cores` shows its part of the values, step by step, and then each value that is sought.
fn core_shows(rt: &impl Abort, spec: &VarSpec, core: u32, cores: u32, values: &[VarValue])
    requires sound { fault_of (variable_of spec.now) ≡ None }
    requires core { core < cores }
    requires cores { cores ≤ 64 }
    requires few { length values.now < 2 ^ 32 }
{
    let mut strided = Strided::start(spec, core, cores);
    for (n, value) in values.iter().enumerate() {
        if n % cores as usize == core as usize {
            assert_eq!(rt;
                strided.value(),
                *value,
                "packet {n} on core {core} of {cores}"
            );
            strided.step();
        }
    }
    for (n, value) in values.iter().enumerate() {
        strided.seek(n as u64);
        assert_eq!(rt;
            strided.value(),
            *value,
            "packet {n} sought on core {core} of {cores}"
        );
    }
}

/// The numbers of cores that are tried.
const CORES: [u32; 4] = [1, 2, 3, 5];

/// A variable shows these values first, on each of those numbers of cores.
fn shows(rt: &impl Abort, spec: &VarSpec, values: &[VarValue])
    requires { length values.now < 2 ^ 32 }
{
    match check(spec) {
        Ok(()) => {
            for &cores in &CORES {
                for core in 0..cores {
                    core_shows(rt, spec, core, cores, values);
                }
            }
        }
        Err(fault) => assert!(rt; false, "{fault:?}"),
    }
}

/// A counter with a fixed seed and position.
fn counter(op: Op, size: u8, init: u64, min: u64, max: u64, step: u64) -> VarSpec {
    VarSpec::Counter {
        op,
        size,
        init,
        min,
        max,
        step,
        seed: 3,
        position: 9,
    }
}

/// A list with a fixed seed and position.
fn list(alloc: Global, op: Op, size: u8, step: u64, values: &[u64]) -> Result<VarSpec, AllocError> {
    Ok(VarSpec::List {
        op,
        size,
        step,
        values: Vec::from_slice(alloc, values)?,
        seed: 11,
        position: 4,
    })
}

/// Three addresses and two ports.
fn tuple(limit: u32) -> VarSpec {
    VarSpec::Tuple {
        ip_min: 1,
        ip_max: 3,
        port_min: 10,
        port_max: 11,
        limit,
    }
}

#[test]
fn counters_go_round(rt: HostRuntime) {
    shows(
        &rt,
        &counter(Op::Inc, 1, 250, 250, 255, 4),
        &numbers![250, 254, 252, 250, 254, 252, 250, 254, 252, 250, 254, 252],
    );
    shows(
        &rt,
        &counter(Op::Inc, 2, 12, 10, 14, 13),
        &numbers![12, 10, 13, 11, 14, 12, 10, 13, 11, 14, 12],
    );
    shows(
        &rt,
        &counter(Op::Dec, 4, 11, 10, 14, 2),
        &numbers![11, 14, 12, 10, 13, 11, 14, 12, 10, 13, 11],
    );
    shows(
        &rt,
        &counter(Op::Dec, 8, 12, 10, 14, 23),
        &numbers![12, 14, 11, 13, 10, 12, 14, 11, 13, 10, 12],
    );
    shows(
        &rt,
        &counter(Op::Inc, 1, 12, 10, 14, 0),
        &numbers![12, 12, 12],
    );
}

#[test]
fn the_widest_range_does_not_overflow(rt: HostRuntime) {
    let values = numbers![
        0,
        18446744073709551615,
        18446744073709551614,
        18446744073709551613,
        18446744073709551612,
        18446744073709551611
    ];
    shows(&rt, &counter(Op::Inc, 8, 0, 0, u64::MAX, u64::MAX), &values);
    shows(&rt, &counter(Op::Dec, 8, 0, 0, u64::MAX, 1), &values);
}

#[test]
fn random_counters_show_the_generators_words(rt: HostRuntime) {
    let whole = VarSpec::Counter {
        op: Op::Random,
        size: 4,
        init: 0,
        min: 0,
        max: 0xffff_ffff,
        step: 1,
        seed: 7,
        position: 0,
    };
    shows(
        &rt,
        &whole,
        &numbers![
            3281291321, 2567461661, 2797133939, 539329241, 775102984, 2312119916, 323773756,
            2059059213, 1511629164, 175659106, 1373057899, 2813202413, 2831426071, 3941527281,
            4001996538, 2995592816, 1025561128, 4098137993, 2648471608, 2153629674
        ],
    );
    shows(
        &rt,
        &counter(Op::Random, 8, 0, 0, u64::MAX, 1),
        &numbers![
            18052770838464020187,
            9251174762745277139,
            14274511505632047856,
            9768540255964145679,
            335696290785990215,
            17914788050745986247
        ],
    );
    shows(
        &rt,
        &counter(Op::Random, 1, 99, 1, 6, 1),
        &numbers![4, 6, 5, 4, 6, 4, 5, 5, 6, 6, 5],
    );
}

#[test]
fn limited_random_numbers_come_again(rt: HostRuntime) {
    let limited = VarSpec::RandLimit {
        size: 1,
        min: 100,
        max: 199,
        limit: 3,
        seed: 5,
        position: 2,
    };
    shows(
        &rt,
        &limited,
        &numbers![149, 110, 108, 149, 110, 108, 149, 110, 108, 149, 110],
    );
    let one = VarSpec::RandLimit {
        size: 8,
        min: 0,
        max: u64::MAX,
        limit: 1,
        seed: 5,
        position: 2,
    };
    shows(
        &rt,
        &one,
        &numbers![
            3206127526206974149,
            3206127526206974149,
            3206127526206974149,
            3206127526206974149
        ],
    );
}

#[test]
fn lists_go_by_place(rt: HostRuntime) -> Result<(), Fail> {
    let alloc = rt.alloc();
    shows(
        &rt,
        &list(alloc, Op::Inc, 2, 2, &[7, 5, 300, 5])?,
        &numbers![7, 300, 7, 300, 7, 300],
    );
    shows(
        &rt,
        &list(alloc, Op::Dec, 2, 1, &[7, 5, 300, 5])?,
        &numbers![7, 5, 300, 5, 7, 5],
    );
    shows(
        &rt,
        &list(alloc, Op::Dec, 2, 7, &[7, 5, 300])?,
        &numbers![7, 300, 5, 7, 300, 5],
    );
    shows(
        &rt,
        &list(alloc, Op::Random, 2, 1, &[7, 5, 300])?,
        &numbers![7, 300, 5, 5, 5, 7, 5, 7, 7, 5, 300],
    );
    Ok(())
}

#[test]
fn tuples_go_address_by_address(rt: HostRuntime) {
    let sample = VarSpec::Tuple {
        ip_min: 0x0a00_0001,
        ip_max: 0x0a00_0003,
        port_min: 1024,
        port_max: 1025,
        limit: 5,
    };
    shows(
        &rt,
        &sample,
        &pairs![
            (0x0a00_0001, 1024),
            (0x0a00_0002, 1024),
            (0x0a00_0003, 1024),
            (0x0a00_0001, 1025),
            (0x0a00_0002, 1025),
            (0x0a00_0001, 1024),
            (0x0a00_0002, 1024)
        ],
    );
    let all = pairs![
        (1, 10),
        (2, 10),
        (3, 10),
        (1, 11),
        (2, 11),
        (3, 11),
        (1, 10),
        (2, 10)
    ];
    shows(&rt, &tuple(0), &all);
    shows(&rt, &tuple(7), &all);
    shows(&rt, &tuple(1), &pairs![(1, 10), (1, 10), (1, 10)]);
    let addresses = VarSpec::Tuple {
        ip_min: 0,
        ip_max: u32::MAX,
        port_min: u16::MAX,
        port_max: u16::MAX,
        limit: 0,
    };
    shows(&rt, &addresses, &pairs![(0, 65535), (1, 65535), (2, 65535)]);
}

#[test]
fn far_words_are_found(rt: HostRuntime) {
    let spec = counter(Op::Random, 8, 0, 0, u64::MAX, 1);
    assert!(rt; check(&spec).is_ok());
    let mut strided = Strided::start(&spec, 0, 1);
    strided.seek(1_000_007);
    assert_eq!(rt; strided.value(), VarValue::One(18063830056662689522));
    let mut one_of_many = Strided::start(&spec, 7, 20);
    one_of_many.seek(999_967);
    one_of_many.step();
    one_of_many.step();
    assert_eq!(rt; one_of_many.value(), VarValue::One(18063830056662689522));
}

#[test]
fn the_first_fault_is_answered(rt: HostRuntime) -> Result<(), Fail> {
    let alloc = rt.alloc();
    let long = Vec::from_elem(alloc, 1u64, 4097)?;
    let verdicts = [
        (counter(Op::Inc, 3, 0, 9, 4, 1), Err(VarFault::Size)),
        (counter(Op::Inc, 1, 0, 300, 256, 1), Err(VarFault::Wide)),
        (counter(Op::Inc, 1, 0, 5, 4, 1), Err(VarFault::Order)),
        (counter(Op::Dec, 1, 10, 11, 255, 1), Err(VarFault::Init)),
        (counter(Op::Inc, 4, 12, 10, 11, 1), Err(VarFault::Init)),
        (counter(Op::Random, 4, 12, 10, 11, 1), Ok(())),
        (list(alloc, Op::Inc, 0, 1, &[])?, Err(VarFault::Size)),
        (
            list(alloc, Op::Inc, 2, 1, &[1, 65536])?,
            Err(VarFault::Wide),
        ),
        (list(alloc, Op::Inc, 2, 1, &[])?, Err(VarFault::List)),
        (list(alloc, Op::Inc, 8, 1, &long)?, Err(VarFault::List)),
        (list(alloc, Op::Inc, 8, 1, &long[..4096])?, Ok(())),
        (
            VarSpec::RandLimit {
                size: 4,
                min: 0,
                max: 9,
                limit: 0,
                seed: 0,
                position: 0,
            },
            Err(VarFault::Limit),
        ),
        (
            VarSpec::Tuple {
                ip_min: 1,
                ip_max: 1,
                port_min: 2,
                port_max: 1,
                limit: 0,
            },
            Err(VarFault::Order),
        ),
        (
            VarSpec::Tuple {
                ip_min: 2,
                ip_max: 1,
                port_min: 1,
                port_max: 1,
                limit: 0,
            },
            Err(VarFault::Order),
        ),
        (tuple(0), Ok(())),
    ];
    for (spec, verdict) in &verdicts {
        assert_eq!(rt; check(spec), *verdict, "{spec:?}");
    }
    Ok(())
}

#[test]
fn ends_of_a_list_are_its_least_and_greatest(rt: HostRuntime) -> Result<(), Fail> {
    let spec = list(rt.alloc(), Op::Inc, 2, 1, &[7, 5, 300, 5])?;
    assert_eq!(rt;
        (spec.least(), spec.greatest()),
        (VarValue::One(5), VarValue::One(300))
    );
    Ok(())
}
