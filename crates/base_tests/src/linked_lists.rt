use slot_links::Links;
use std::test::Fail;

// The list has exactly these nodes, in this order.
fn is_list(links: &Links, list: u32, want: &[u32]) -> bool {
    if list >= links.lists() {
        return false;
    }
    let mut at = links.first(list);
    for node in want {
        if at != Some(*node) || *node >= links.nodes() || links.list_of(*node) != Some(list) {
            return false;
        }
        at = links.next(*node);
    }
    at.is_none()
}

// Puts a node that is in no list at the end of a list, and says whether it could.
fn put(links: &mut Links, list: u32, node: u32) -> bool {
    if list >= links.lists() || node >= links.nodes() || links.list_of(node).is_some() {
        return false;
    }
    links.push_back(list, node);
    true
}

// Takes a node out of its list, and says whether it was in one.
fn take(links: &mut Links, node: u32) -> bool {
    node < links.nodes() && links.unlink(node)
}

#[test]
fn unlink_from_the_middle(rt: HostRuntime) -> Result<(), Fail> {
    let mut links = Links::new(rt.alloc(), 1)?;
    links.reserve(9)?;
    for node in [5, 3, 8] {
        assert!(rt; put(&mut links, 0, node), "at {node}");
    }
    assert!(rt; take(&mut links, 3));
    assert!(rt; is_list(&links, 0, &[5, 8]));
    assert!(rt; !take(&mut links, 3));
    assert!(rt; put(&mut links, 0, 3));
    assert!(rt; is_list(&links, 0, &[5, 8, 3]));
    Ok(())
}

// The first list has the nodes 5, 3 and 8, and the second one the node 1. One node is taken out of
// its list and put at the end of the second one.
struct Moved {
    node: u32,
    first: [u32; 2],
    second: [u32; 2],
}

const MOVED: [Moved; 3] = [
    Moved {
        node: 5,
        first: [3, 8],
        second: [1, 5],
    },
    Moved {
        node: 3,
        first: [5, 8],
        second: [1, 3],
    },
    Moved {
        node: 8,
        first: [5, 3],
        second: [1, 8],
    },
];

#[test]
fn node_moves_to_another_list(rt: HostRuntime) -> Result<(), Fail> {
    for case in &MOVED {
        let node = case.node;
        let mut links = Links::new(rt.alloc(), 2)?;
        links.reserve(9)?;
        for (list, each) in [(0, 5), (1, 1), (0, 3), (0, 8)] {
            assert!(rt; put(&mut links, list, each));
        }
        assert!(rt; take(&mut links, node), "node {node}");
        assert!(rt; put(&mut links, 1, node), "node {node}");
        assert!(rt; is_list(&links, 0, &case.first), "node {node}");
        assert!(rt; is_list(&links, 1, &case.second), "node {node}");
    }
    Ok(())
}

fn is_in_no_list(links: &Links, node: u32) -> bool {
    node < links.nodes() && links.list_of(node).is_none() && links.next(node).is_none()
}

#[test]
fn further_nodes_are_in_no_list(rt: HostRuntime) -> Result<(), Fail> {
    let mut links = Links::new(rt.alloc(), 3)?;
    for (nodes, usable) in [(0, 0), (4, 4), (2, 4), (6, 6)] {
        links.reserve(nodes)?;
        assert_eq!(rt;
            (links.nodes(), links.lists()),
            (usable, 3),
            "after {nodes}"
        );
    }
    for node in 0..6 {
        assert!(rt; is_in_no_list(&links, node), "at {node}");
    }
    Ok(())
}

const LISTS: u32 = 704;

const NODES: u32 = 4_194_304;

#[test]
fn many_nodes_in_704_lists(rt: HostRuntime) -> Result<(), Fail> {
    let mut links = Links::new(rt.alloc(), LISTS)?;
    links.reserve(NODES)?;
    for node in 0..NODES {
        assert!(rt; put(&mut links, node % LISTS, node), "node {node}");
    }
    for node in 0..NODES {
        assert_eq!(rt; node % 3 != 0 && take(&mut links, node), node % 3 != 0);
    }
    assert!(rt; links.lists() == LISTS && links.nodes() == NODES);
    assert!(rt; links.first(0) == Some(0) && links.next(0) == Some(2112));
    assert!(rt; links.first(1) == Some(705) && links.next(4_193_760) == None);
    Ok(())
}
