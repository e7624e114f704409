use nb_base::Moment;
use std::alloc::{AllocError, Global};
use std::test::Fail;
use timer_wheel::Wheel;

// Sets a node's due, and says whether it could.
fn arm(wheel: &mut Wheel, node: u32, due: u64) -> bool {
    if node >= wheel.nodes() || due < wheel.now().millis() {
        return false;
    }
    wheel.arm(node, Moment(due));
    true
}

// Takes a node's due away, and says whether it had one.
fn cancel(wheel: &mut Wheel, node: u32) -> bool {
    node < wheel.nodes() && wheel.cancel(node)
}

// The next due with its node.
fn next_is(wheel: &Wheel, due: u64, node: u32) -> bool {
    wheel.next() == Some((Moment(due), node))
}

// Whether this due with its node comes off, and it is the due's moment then.
fn takes(wheel: &mut Wheel, due: u64, node: u32) -> bool {
    wheel.take_next() == Some((Moment(due), node)) && wheel.now() == Moment(due)
}

// Sets the dues of three nodes, and says whether it could.
fn are_armed(wheel: &mut Wheel) -> bool {
    arm(wheel, 0, 100) && arm(wheel, 1, 64) && arm(wheel, 2, 100)
}

#[test]
fn wheel_least_due_then_least_node(rt: HostRuntime) -> Result<(), Fail> {
    let mut wheel = Wheel::new(rt.alloc())?;
    wheel.reserve(3)?;
    assert!(rt; are_armed(&mut wheel));
    assert!(rt; next_is(&wheel, 64, 1) && takes(&mut wheel, 64, 1));
    assert!(rt; next_is(&wheel, 100, 0) && arm(&mut wheel, 0, 4096));
    assert!(rt; next_is(&wheel, 100, 2) && cancel(&mut wheel, 2));
    assert!(rt; next_is(&wheel, 4096, 0) && !cancel(&mut wheel, 2));
    Ok(())
}

// How many nodes the wheel and the plain map have.
const NODES: u32 = 100;

// Numbers that look random, from a linear congruence.
#[derive(Drop)]
struct Numbers {
    last: u64,
}

impl Numbers {
    // The next number, taken to be below the limit.
    fn below(&mut self, limit: u32) -> u32 {
        self.last = self
            .last
            .wrapping_mul(6_364_136_223_846_793_005)
            .wrapping_add(1_442_695_040_888_963_407);
        u32::try_from(self.last >> 33)
            .unwrap_or(0)
            .checked_rem(limit)
            .unwrap_or(0)
    }

    // How far ahead a due is to lie: near ones and far ones, in several digits of base 64.
    fn ahead(&mut self) -> u64 {
        let limit = match self.below(5) {
            0 => 3,
            1 => 70,
            2 => 5_000,
            3 => 300_000,
            _ => 2_000_000_000,
        };
        u64::from(self.below(limit))
    }
}

// The map as a plain program: the least is searched for.
#[derive(Drop)]
struct PlainMap {
    now: u64,
    dues: Vec<Option<u64>>,
}

// The best so far, or this node where its due is less.
fn lesser(best: Option<(Moment, u32)>, due: u64, node: u32) -> Option<(Moment, u32)> {
    match best {
        Some((first, other)) => {
            if first.millis() <= due {
                Some((first, other))
            } else {
                Some((Moment(due), node))
            }
        }
        None => Some((Moment(due), node)),
    }
}

impl PlainMap {
    fn new(alloc: Global) -> Result<PlainMap, AllocError> {
        Ok(PlainMap {
            now: 0,
            dues: vec![in alloc; None; NODES as usize]?,
        })
    }

    fn next(&self) -> Option<(Moment, u32)> {
        let mut best = None;
        for node in 0..NODES {
            if let Some(Some(due)) = self.dues.get(node as usize) {
                best = lesser(best, *due, node);
            }
        }
        best
    }

    fn arm(&mut self, node: u32, due: u64) -> bool {
        match self.dues.get_mut(node as usize) {
            Some(here) if self.now <= due => {
                *here = Some(due);
                true
            }
            _ => false,
        }
    }

    fn cancel(&mut self, node: u32) -> bool {
        match self.dues.get_mut(node as usize) {
            Some(here) => here.take().is_some(),
            None => false,
        }
    }

    fn take_next(&mut self) -> Option<(Moment, u32)> {
        let (due, node) = self.next()?;
        self.now = due.millis();
        self.cancel(node);
        Some((due, node))
    }

    fn advance(&mut self, to: u64) -> bool {
        let due = self.next().map_or(to, |(due, _)| due.millis());
        if to < self.now || due < to {
            return false;
        }
        self.now = to;
        true
    }
}

// Lets time go on, and says whether it could.
fn advance(wheel: &mut Wheel, to: u64) -> bool {
    if to < wheel.now().millis() {
        return false;
    }
    match wheel.next() {
        None => {
            wheel.advance(Moment(to));
            true
        }
        Some((due, _)) => {
            if due.millis() < to {
                return false;
            }
            wheel.advance(Moment(to));
            true
        }
    }
}

// Makes one call of both, and says whether they answered alike and show the same.
fn alike(wheel: &mut Wheel, plain: &mut PlainMap, numbers: &mut Numbers) -> bool {
    let node = numbers.below(NODES);
    let due = plain.now.saturating_add(numbers.ahead());
    let answered = match numbers.below(8) {
        0..=3 => arm(wheel, node, due) == plain.arm(node, due),
        4 => cancel(wheel, node) == plain.cancel(node),
        5 => advance(wheel, due) == plain.advance(due),
        _ => wheel.take_next() == plain.take_next(),
    };
    answered && wheel.next() == plain.next() && wheel.now() == Moment(plain.now)
}

#[test]
fn wheel_answers_as_a_plain_map(rt: HostRuntime) -> Result<(), Fail> {
    let mut wheel = Wheel::new(rt.alloc())?;
    wheel.reserve(NODES)?;
    let mut plain = PlainMap::new(rt.alloc())?;
    let mut numbers = Numbers { last: 1 };
    for call in 0..10_000u32 {
        assert!(rt; alike(&mut wheel, &mut plain, &mut numbers), "call {call}");
    }
    Ok(())
}
