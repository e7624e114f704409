use nb_base::OpId;
use nb_queues::WaitQueue;
use std::test::Fail;

/// Puts a packet behind the others, where one may be put there.
fn is_put(queue: &mut WaitQueue, id: u64, size: u32) -> bool {
    if queue.len() < WaitQueue::MOST && size <= WaitQueue::LARGEST {
        queue.push(OpId(id), size);
        true
    } else {
        false
    }
}

/// How many packets wait, and how many bytes they count for.
fn shown(queue: &WaitQueue) -> (u32, u32) {
    (queue.len(), queue.total())
}

fn popped(queue: &mut WaitQueue) -> Option<(u64, u32)> {
    let (id, size) = queue.pop()?;
    Some((id.0, size))
}

/// Packets that are put in, each with its size, and what waits then.
const PUT_IN: [(u64, u32, (u32, u32)); 3] = [
    (33, 257, (1, 257)),
    (65, 756, (2, 1_013)),
    (97, 1_756, (3, 2_769)),
];

/// Packets that are taken out, each with its size, and what waits then.
const TAKEN_OUT: [(u64, u32, (u32, u32)); 3] = [
    (33, 257, (2, 2_512)),
    (65, 756, (1, 1_756)),
    (97, 1_756, (0, 0)),
];

/// The first packet that isn't put in as it is to be.
fn first_not_put(queue: &mut WaitQueue) -> Option<u64> {
    for (id, size, left) in PUT_IN {
        if !is_put(queue, id, size) || shown(queue) != left {
            return Some(id);
        }
    }
    None
}

/// The first packet that isn't taken out as it is to be.
fn first_not_taken(queue: &mut WaitQueue) -> Option<u64> {
    for (id, size, left) in TAKEN_OUT {
        if popped(queue) != Some((id, size)) || shown(queue) != left {
            return Some(id);
        }
    }
    None
}

#[test]
fn packets_come_off_in_order(rt: HostRuntime) -> Result<(), Fail> {
    let mut queue = WaitQueue::new(rt.alloc())?;
    assert_eq!(rt; popped(&mut queue), None);
    assert_eq!(rt; first_not_put(&mut queue), None);
    assert_eq!(rt; first_not_taken(&mut queue), None);
    assert_eq!(rt; popped(&mut queue), None);
    Ok(())
}
