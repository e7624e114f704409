//! What an operation comes to for one key.
ghost use Rattle.std.specs.Prelude.{◌≡◌, ◌≤◌, not, if◌then◌else◌, is_none, Some, IfSome, IsTrue};
ghost use Rattle.nb_base.specs.declared.line.Reply.TheVariants.{Exists, Missing, NoAddress};
ghost use Rattle.nb_base.specs.declared.nud.Nud.TheVariants.{Failed};
ghost use Rattle.nud_machine.specs.Asked.{greatest, IsInRun};
ghost use Rattle.nud_machine.specs.State.{same_nud};
ghost use Rattle.nud_machine.specs.declared.event.Event.TheVariants.{Admin};
ghost use Rattle.nb_journal.specs.Fold as spec;
ghost use Rattle.nb_journal.specs.Keys.{may_be_asked};
ghost use Rattle.nb_journal.specs.Lawful as lawful;
ghost use Rattle.nb_journal.specs.Steps.{effect_named, state_in};

use crate::Kept;
use nb_base::{Line, Mac, Moment, Nud, Op, OpId, Params, Reply};
use nud_machine::{Event, is_fixed};

/// How long no forced pass follows another one in a table that isn't full, and how long an entry that changed is kept by one,
/// in milliseconds.
pub const PASS_MILLIS: u32 = 5_000;

/// Nothing, a refusal with its reply, or an event, for which an absent entry is made first.
#[derive(Clone, Copy)]
pub enum Effect {
    Passes,
    Refuses(Reply),
    Brings(Event),
}

/// The line's number, or 0 where it has none.
pub fn id_of(line: &Line) -> OpId
    ensures { result ≡ spec.id_of line.now }
{
    line.id.unwrap_or(OpId(0))
}

/// What a packet counts for where it waits: the bytes of its payload, and 256 more.
fn size_of(len: u32) -> u32
    requires { len ≤ 1500 }
    ensures { result ≡ spec.size_of len }
{
    len + 256
}

/// Whether a sweep's line saw enough entries for entries to be removed.
fn saw_enough(params: &Params, seen: Option<u32>) -> bool
    ensures { result ≡ spec.saw_enough params.now seen }
{
    seen.is_some_and(|seen| seen >= params.gc_thresh1)
}

/// Whether a moment lies more than so many milliseconds back, or there is none.
fn is_past(at: Moment, since: Option<Moment>, millis: u32) -> bool
    requires { IfSome since (λ then_at. then_at ≤ greatest) }
    ensures { result ≡ spec.is_past at since millis }
{
    match since {
        None => true,
        Some(since) => since.after(millis) < at,
    }
}

fn is_failed(nud: Nud) -> bool
    ensures { result ≡ same_nud nud Failed }
{
    nud.bits() == Nud::Failed.bits()
}

/// Whether the entry is present, and neither PERMANENT nor NOARP.
pub fn is_loose(kept: &Kept) -> bool
    ensures { result ≡ spec.is_loose (state_in kept.now) }
{
    kept.entry.present && !is_fixed(kept.entry.nud)
}

pub fn has_waiting(kept: &Kept) -> bool
    ensures { result ≡ spec.has_waiting (state_in kept.now) }
{
    kept.waiting.len() > 0
}

/// Whether a sweep removes the entry.
fn is_swept(params: &Params, at: Moment, kept: &Kept) -> bool
    requires { IsInRun kept.now.entry }
    ensures { result ≡ spec.is_swept params.now at (state_in kept.now) }
{
    is_loose(kept)
        && !has_waiting(kept)
        && (is_failed(kept.entry.nud)
            || (is_past(at, Some(kept.entry.used), params.gc_stale_time)
                && is_past(at, kept.entry.confirmed, params.gc_stale_time)))
}

/// Whether a forced pass removes the entry.
pub fn is_collectable(at: Moment, kept: &Kept) -> bool
    requires { IsInRun kept.now.entry }
    ensures { result ≡ lawful.is_collectable at (state_in kept.now) }
{
    is_loose(kept)
        && !has_waiting(kept)
        && (is_failed(kept.entry.nud) || is_past(at, Some(kept.entry.updated), PASS_MILLIS))
}

/// Whether a forced pass is due, from how many entries a line saw and the moment of the last pass.
pub fn is_pass_due(params: &Params, seen: u32, last: Moment, at: Moment) -> bool
    requires { last ≤ greatest }
    ensures { result ≡ lawful.is_pass_due params.now seen last at }
{
    params.gc_thresh3 <= seen || (params.gc_thresh2 <= seen && last.after(PASS_MILLIS) < at)
}

/// The event, or else nothing.
fn if_so(holds: bool, event: Event) -> Effect
    ensures { effect_named result ≡ spec.if_so holds event }
{
    if holds {
        Effect::Brings(event)
    } else {
        Effect::Passes
    }
}

/// The event, or else the refusal.
fn where_so(holds: bool, event: Event, reply: Reply) -> Effect
    ensures { effect_named result ≡ (if holds then spec.Brings event else spec.Refuses reply) }
{
    if holds {
        Effect::Brings(event)
    } else {
        Effect::Refuses(reply)
    }
}

/// The refusal, or else the event.
fn refused_where(holds: bool, reply: Reply, event: Event) -> Effect
    ensures { effect_named result ≡ (if holds then spec.Refuses reply else spec.Brings event) }
{
    if holds {
        Effect::Refuses(reply)
    } else {
        Effect::Brings(event)
    }
}

/// Whether no address is given and the entry has none.
fn lacks_address(mac: Option<Mac>, kept: &Kept) -> bool
    ensures { result ≡ spec.lacks_address mac (state_in kept.now) }
{
    mac.is_none() && !kept.entry.nud.is_valid()
}

fn add(present: bool, mac: Option<Mac>, nud: Nud) -> Effect
    ensures { effect_named result ≡ (if present then spec.Refuses Exists else (if is_none mac then spec.Refuses NoAddress else spec.Brings (Admin mac nud))) }
{
    if present {
        Effect::Refuses(Reply::Exists)
    } else {
        refused_where(mac.is_none(), Reply::NoAddress, Event::Admin { mac, nud })
    }
}

fn change(kept: &Kept, mac: Option<Mac>, nud: Nud) -> Effect
    ensures { effect_named result ≡ (if not kept.now.entry.present then spec.Refuses Missing else (if spec.lacks_address mac (state_in kept.now) then spec.Refuses NoAddress else spec.Brings (Admin mac nud))) }
{
    if kept.entry.present {
        refused_where(
            lacks_address(mac, kept),
            Reply::NoAddress,
            Event::Admin { mac, nud },
        )
    } else {
        Effect::Refuses(Reply::Missing)
    }
}

/// What an operation comes to, by the state of the entry.
pub fn effect_of(params: &Params, line: &Line, kept: &Kept) -> Effect
    requires moments { IsInRun kept.now.entry }
    requires asked { IsTrue (may_be_asked line.now.op) }
    ensures { effect_named result ≡ spec.effect params.now line.now (state_in kept.now) line.now.op }
{
    let present = kept.entry.present;
    match line.op {
        Op::Send { len, .. } => {
            Effect::Brings(Event::Send {
                id: id_of(line),
                size: size_of(len),
            })
        }
        Op::Arp {
            mac,
            make,
            solicited,
            ..
        } => where_so(
            present || make,
            Event::Arp { mac, solicited },
            Reply::Ignored,
        ),
        Op::Ns { mac, .. } => Effect::Brings(Event::Ns { mac }),
        Op::Na {
            mac,
            router,
            solicited,
            overrides,
            ..
        } => {
            let event = Event::Na {
                mac,
                router,
                solicited,
                overrides,
            };
            where_so(present, event, Reply::Ignored)
        }
        Op::Add { mac, nud, .. } => add(present, mac, nud),
        Op::Change { mac, nud, .. } => change(kept, mac, nud),
        Op::Replace { mac, nud, .. } => {
            refused_where(
                lacks_address(mac, kept),
                Reply::NoAddress,
                Event::Admin { mac, nud },
            )
        }
        Op::Del { .. } => refused_where(!present, Reply::Missing, Event::Remove),
        Op::Confirm { .. } => {
            where_so(
                present && kept.entry.nud.is_valid(),
                Event::Confirm,
                Reply::Ignored,
            )
        }
        Op::Show => Effect::Passes,
        Op::Flush => if_so(is_loose(kept), Event::Remove),
        Op::Timer { .. } => if_so(present, Event::Timer),
        Op::Sweep => {
            if_so(
                saw_enough(params, line.seen) && is_swept(params, line.at, kept),
                Event::Remove,
            )
        }
        Op::Collect { .. } => if_so(present, Event::Remove),
    }
}
