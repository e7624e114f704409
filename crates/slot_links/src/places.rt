//! The places in the vector: first the end of each list, then the nodes. From an end the places lead
//! round through the nodes of its list and back.
ghost use Rattle.std.specs.Prelude.{◌≡◌, ◌+◌, ◌-◌, ◌<◌, ◌≤◌, ◌^◌, ◌==◌, if◌then◌else◌, ltb, ℕ, None, Some, length, vec_len, OnOk, OnErr};
ghost use Rattle.slot_links.specs.Places.{apart, place_at, Joins, Appends, Removes, Extends};

use std::alloc::AllocError;

/// The end of a list or a node, between the place before it and the place behind it.
#[derive(Clone, Copy, Debug, PartialEq, Eq)]
pub struct Place {
    pub previous: usize,
    pub next: usize,
    pub list: Option<u32>,
}

/// A place that is linked to itself and is in no list.
fn apart(at: usize) -> Place
    ensures { result ≡ apart at }
{
    Place {
        previous: at,
        next: at,
        list: None,
    }
}

/// Adds places by themselves, up to so many in all.
pub fn extend(places: &mut Vec<Place>, len: usize) -> Result<(), AllocError>
    requires { vec_len places.old ≤ len }
    ensures ok { OnOk result (Extends len places.old.items places.new.items) }
    ensures err { OnErr result (places.new.items ≡ places.old.items) }
{
    let first = places.len();
    places.reserve(len - first)?;
    for at in first..len {
        places.push_reserved(apart(at));
    }
    Ok(())
}

/// Puts one place right behind another.
fn join(places: &mut Vec<Place>, before: usize, after: usize)
    requires before { before < vec_len places.old }
    requires after { after < vec_len places.old }
    ensures { Joins before after places.old.items places.new.items }
{
    places[before].next = after;
    places[after].previous = before;
}

/// Writes the list of a place.
fn set_list(places: &mut Vec<Place>, at: usize, list: Option<u32>)
    requires { at < vec_len places.old }
    ensures length { length places.new.items ≡ length places.old.items }
    ensures place { (i : ℕ) → place_at places.new.items i ≡ (if i == at then record (place_at places.old.items i) { list = list } else place_at places.old.items i) }
{
    places[at].list = list;
}

/// Puts a place in front of the end of a list.
pub fn append(places: &mut Vec<Place>, list: u32, at: usize)
    requires list { list < vec_len places.old }
    requires at { at < vec_len places.old }
    requires last { (place_at places.old.items list).previous < vec_len places.old }
    ensures { Appends list at places.old.items places.new.items }
{
    let end = list as usize;
    let last = places[end].previous;
    join(places, last, at);
    join(places, at, end);
    set_list(places, at, Some(list));
}

/// Takes a place out of its list: the places on both sides come to stand beside each other.
pub fn remove(places: &mut Vec<Place>, at: usize)
    requires at { at < vec_len places.old }
    requires previous { (place_at places.old.items at).previous < vec_len places.old }
    requires next { (place_at places.old.items at).next < vec_len places.old }
    ensures { Removes at places.old.items places.new.items }
{
    let previous = places[at].previous;
    let next = places[at].next;
    join(places, previous, next);
    join(places, at, at);
    set_list(places, at, None);
}

/// The node whose place this is: `None` at the end of a list.
pub fn node_of(ends: u32, at: usize) -> Option<u32>
    requires { at < ends + 2 ^ 32 }
    ensures { result ≡ (if ltb at ends then None else Some (at - ends)) }
{
    let ends = ends as usize;
    if at < ends {
        return None;
    }
    Some((at - ends) as u32)
}
