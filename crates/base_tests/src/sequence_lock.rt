use hh_core::{Core, Known, ReaderPhase, Step, Stop, Try, WriterPhase};
use std::alloc::{AllocError, Global};
use std::test::Fail;

const BEGIN_7_8: Step = Step::Begin(7, 8);

const BEGIN_9_10: Step = Step::Begin(9, 10);

const STORE_A: Step = Step::StoreA;

const STORE_B: Step = Step::StoreB;

const END: Step = Step::End;

// Two writes, 7 and 8 and then 9 and 10, over the first pair 5 and 6, with one try of each of two
// readers. In the order `w` is the writer's next step, and a digit the next step of that reader.
struct Interleaving {
    order: [u8; 16],
    tries: [Try; 2],
    known: [Option<Known>; 2],
}

const INTERLEAVINGS: [Interleaving; 22] = [
    Interleaving {
        order: *b"0000wwwwwwww1111",
        tries: [(0, 0), (4, 4)],
        known: [Some((0, (5, 6))), Some((2, (9, 10)))],
    },
    Interleaving {
        order: *b"0000wwww1111wwww",
        tries: [(0, 0), (2, 2)],
        known: [Some((0, (5, 6))), Some((1, (7, 8)))],
    },
    Interleaving {
        order: *b"wwww0000wwww1111",
        tries: [(2, 2), (4, 4)],
        known: [Some((1, (7, 8))), Some((2, (9, 10)))],
    },
    Interleaving {
        order: *b"00001111wwwwwwww",
        tries: [(0, 0), (0, 0)],
        known: [Some((0, (5, 6))), Some((0, (5, 6)))],
    },
    Interleaving {
        order: *b"wwww00001111wwww",
        tries: [(2, 2), (2, 2)],
        known: [Some((1, (7, 8))), Some((1, (7, 8)))],
    },
    Interleaving {
        order: *b"wwwwwwww00001111",
        tries: [(4, 4), (4, 4)],
        known: [Some((2, (9, 10))), Some((2, (9, 10)))],
    },
    Interleaving {
        order: *b"000w01111wwwwwww",
        tries: [(0, 1), (1, 1)],
        known: [None, None],
    },
    Interleaving {
        order: *b"0w01w01w01w1wwww",
        tries: [(0, 1), (1, 2)],
        known: [None, None],
    },
    Interleaving {
        order: *b"00wwww0011wwww11",
        tries: [(0, 2), (2, 4)],
        known: [None, None],
    },
    Interleaving {
        order: *b"0wwww0001wwww111",
        tries: [(0, 2), (2, 4)],
        known: [None, None],
    },
    Interleaving {
        order: *b"ww0000wwww1111ww",
        tries: [(1, 1), (3, 3)],
        known: [None, None],
    },
    Interleaving {
        order: *b"www0000wwww1111w",
        tries: [(1, 1), (3, 3)],
        known: [None, None],
    },
    Interleaving {
        order: *b"w0www000w1www111",
        tries: [(1, 2), (3, 4)],
        known: [None, None],
    },
    Interleaving {
        order: *b"w00ww1w11w00ww1w",
        tries: [(1, 3), (1, 3)],
        known: [None, None],
    },
    Interleaving {
        order: *b"wwww000111w0ww1w",
        tries: [(2, 3), (2, 3)],
        known: [None, None],
    },
    Interleaving {
        order: *b"0001wwwwwwww0111",
        tries: [(0, 4), (0, 4)],
        known: [None, None],
    },
    Interleaving {
        order: *b"0wwww01111wwww00",
        tries: [(0, 4), (2, 2)],
        known: [None, Some((1, (7, 8)))],
    },
    Interleaving {
        order: *b"www00w00wwww1111",
        tries: [(1, 2), (4, 4)],
        known: [None, Some((2, (9, 10)))],
    },
    Interleaving {
        order: *b"1111wwwwwww000w0",
        tries: [(3, 4), (0, 0)],
        known: [None, Some((0, (5, 6)))],
    },
    Interleaving {
        order: *b"wwww0w01w01w01w1",
        tries: [(2, 3), (3, 4)],
        known: [None, None],
    },
    Interleaving {
        order: *b"ww0w0w01111w0www",
        tries: [(1, 3), (2, 2)],
        known: [None, Some((1, (7, 8)))],
    },
    Interleaving {
        order: *b"0ww00ww01ww11ww1",
        tries: [(0, 2), (2, 4)],
        known: [None, None],
    },
];

// The steps of an order.
fn steps_of(alloc: Global, order: &[u8]) -> Result<Vec<Step>, AllocError> {
    let writes = [
        BEGIN_7_8, STORE_A, STORE_B, END, BEGIN_9_10, STORE_A, STORE_B, END,
    ];
    let mut written = 0usize;
    let mut read = [0u8; 2];
    let mut steps = Vec::new(alloc);
    for who in order {
        if *who == b'w' {
            let next = written % 8;
            steps.push(writes[next])?;
            written = next + 1;
        } else {
            let reader = if *who == b'0' { 0usize } else { 1 };
            steps.push(read_step(reader as u32, read[reader]))?;
            read[reader] = (read[reader] % 4) + 1;
        }
    }
    Ok(steps)
}

fn read_step(reader: u32, done: u8) -> Step {
    match done {
        0 => Step::First(reader),
        1 => Step::LoadA(reader),
        2 => Step::LoadB(reader),
        _ => Step::Second(reader),
    }
}

// The one item, or none.
fn only<T: Copy>(items: Option<&[T]>) -> Option<T> {
    match items {
        Some([item]) => Some(*item),
        _ => None,
    }
}

/// What a reader has tried and knows: how many tries, the last one, and the one pair.
#[derive(Clone, Copy, Debug, PartialEq, Eq)]
struct Seen {
    tries: usize,
    last: Option<Try>,
    known: Option<Known>,
}

fn left_of(core: &Core, reader: u32) -> Option<Seen> {
    let tries = core.tries(reader)?;
    Some(Seen {
        tries: tries.len(),
        last: tries.last().copied(),
        known: only(core.known(reader)),
    })
}

/// What one try has left of a reader.
fn once(last: Try, known: Option<Known>) -> Option<Seen> {
    Some(Seen {
        tries: 1,
        last: Some(last),
        known,
    })
}

/// The number, the words, and how many pairs were published.
fn shown(core: &Core) -> (u64, (u64, u64), usize) {
    (core.number(), core.words(), core.published().len())
}

#[test]
fn two_writes_and_two_reads_in_many_orders(rt: HostRuntime) -> Result<(), Fail> {
    for (number, case) in INTERLEAVINGS.iter().enumerate() {
        let steps = steps_of(rt.alloc(), &case.order)?;
        let mut core = Core::new(rt.alloc(), (5, 6), 2)?;
        assert!(rt; steps.len() == 16 && core.published().len() < 1000);
        assert!(rt; core.run(&steps).is_ok(), "order {number}");
        assert_eq!(rt; shown(&core), (4, (9, 10), 3));
        let [first, second] = case.tries;
        let [known, other] = case.known;
        assert_eq!(rt; left_of(&core, 0), once(first, known), "order {number}");
        assert_eq!(rt; left_of(&core, 1), once(second, other), "order {number}");
    }
    Ok(())
}

#[test]
fn reader_across_a_write(rt: HostRuntime) -> Result<(), Fail> {
    let mut core = Core::new(rt.alloc(), (5, 6), 1)?;
    let across = [
        BEGIN_7_8,
        STORE_A,
        Step::First(0),
        Step::LoadA(0),
        STORE_B,
        END,
        Step::LoadB(0),
        Step::Second(0),
    ];
    assert_eq!(rt; core.run(&across), Ok(()));
    assert_eq!(rt;
        (left_of(&core, 0), core.floor(0)),
        (once((1, 2), None), Some(0))
    );
    let again = [
        Step::First(0),
        Step::LoadA(0),
        Step::LoadB(0),
        Step::Second(0),
    ];
    assert!(rt; core.published().len() == 2 && core.run(&again).is_ok());
    let twice = Seen {
        tries: 2,
        last: Some((2, 2)),
        known: Some((1, (7, 8))),
    };
    assert_eq!(rt; (left_of(&core, 0), core.floor(0)), (Some(twice), Some(1)));
    Ok(())
}

#[test]
fn end_before_words(rt: HostRuntime) -> Result<(), Fail> {
    let mut core = Core::new(rt.alloc(), (5, 6), 0)?;
    let steps = [BEGIN_7_8, END];
    assert_eq!(rt; core.run(&steps), Err(Stop::NotEnabled(1)));
    assert_eq!(rt; core.writer(), WriterPhase::Begun(7, 8));
    assert_eq!(rt; core.words(), (5, 6));
    assert_eq!(rt; core.number(), 1);
    Ok(())
}

#[test]
fn reader_between_the_writers_steps(rt: HostRuntime) -> Result<(), Fail> {
    let mut core = Core::new(rt.alloc(), (5, 6), 1)?;
    let steps = [
        BEGIN_7_8,
        Step::First(0),
        Step::LoadA(0),
        Step::LoadB(0),
        Step::Second(0),
        STORE_B,
    ];
    assert_eq!(rt; core.run(&steps), Err(Stop::NotEnabled(5)));
    assert_eq!(rt; core.tries(0).ok_or("a reader")?, [(1, 1)].as_slice());
    assert_eq!(rt; core.phase(0), Some(ReaderPhase::Rest));
    Ok(())
}

#[test]
fn a_meeting_raises_the_floor(rt: HostRuntime) -> Result<(), Fail> {
    let mut core = Core::new(rt.alloc(), (5, 6), 1)?;
    let steps = [
        BEGIN_7_8,
        STORE_A,
        STORE_B,
        END,
        Step::Meet(0),
        Step::Meet(1),
    ];
    assert_eq!(rt; core.run(&steps), Err(Stop::NotEnabled(5)));
    assert_eq!(rt; (core.floor(0), core.floor(1)), (Some(1), None));
    assert_eq!(rt; core.published().len(), 2);
    Ok(())
}

#[test]
fn no_meeting_while_the_writer_writes(rt: HostRuntime) -> Result<(), Fail> {
    let mut core = Core::new(rt.alloc(), (5, 6), 1)?;
    core.reserve(7)?;
    assert!(rt; core.spare() >= 7 && core.published().len() == 1);
    assert!(rt; core.apply(BEGIN_9_10).is_ok());
    assert!(rt; core.spare() > 0 && core.published().len() == 1);
    assert!(rt; core.apply(Step::Meet(0)).is_err());
    Ok(())
}
