//! What operations name, and whose they are.
ghost use Rattle.std.specs.Prelude.{◌≡◌};
ghost use Rattle.nb_journal.specs.Keys as spec;
ghost use Rattle.nud_machine.specs.Asked as asked;
ghost use Rattle.nb_journal.specs.Lawful as lawful;
ghost use Rattle.nb_journal.specs.Steps as steps;

use nb_base::{Key, Line, Moment, Nud, Op};

/// Whether the keys are of one family and have one address.
#[tactic(auto, unfolding(nb_queues::specs::SameKey::is_key))]
pub fn is_key(a: &Key, b: &Key) -> bool
    ensures { result ≡ spec.is_key a.now b.now }
{
    match (*a, *b) {
        (Key::V4(a), Key::V4(b)) => a == b,
        (Key::V6(a), Key::V6(b)) => a == b,
        _ => false,
    }
}

/// The key that an operation names.
pub fn key_of(op: &Op) -> Option<Key>
    ensures { result ≡ spec.key_of op.now }
{
    match *op {
        Op::Send { key, .. }
        | Op::Arp { key, .. }
        | Op::Ns { key, .. }
        | Op::Na { key, .. }
        | Op::Add { key, .. }
        | Op::Change { key, .. }
        | Op::Replace { key, .. }
        | Op::Del { key }
        | Op::Confirm { key }
        | Op::Timer { key }
        | Op::Collect { key } => Some(key),
        Op::Show | Op::Flush | Op::Sweep => None,
    }
}

/// The key that an operation makes known.
pub fn made_known(op: &Op) -> Option<Key>
    ensures { result ≡ spec.made_known op.now }
{
    match *op {
        Op::Send { key, .. }
        | Op::Arp {
            key,
            make: true,
            ..
        }
        | Op::Ns { key, .. }
        | Op::Add {
            key,
            mac: Some(_),
            ..
        }
        | Op::Replace {
            key,
            mac: Some(_),
            ..
        } => Some(key),
        _ => None,
    }
}

/// Whether it is an operation of a participant.
pub fn is_own(op: &Op) -> bool
    ensures { result ≡ spec.is_own op.now }
{
    !matches!(op, Op::Timer { .. } | Op::Sweep | Op::Collect { .. })
}

/// Whether it is a timer's line.
pub fn is_timer(op: &Op) -> bool
    ensures { result ≡ spec.is_timer op.now }
{
    matches!(op, Op::Timer { .. })
}

/// Whether it is a line of a forced pass.
pub fn is_collect(op: &Op) -> bool
    ensures { result ≡ lawful.is_collect op.now }
{
    matches!(op, Op::Collect { .. })
}

/// Whether a state may be given by hand.
fn is_settable(nud: Nud) -> bool
    ensures { result ≡ asked.is_settable nud }
{
    matches!(
        nud,
        Nud::Permanent | Nud::Noarp | Nud::Reachable | Nud::Stale
    )
}

/// Whether the operation may be asked for: by hand an entry becomes PERMANENT, NOARP, REACHABLE or STALE, and a packet has
/// 1 to 1,500 bytes.
pub fn may_be_asked(op: &Op) -> bool
    ensures { result ≡ spec.may_be_asked op.now }
{
    match *op {
        Op::Send { len, .. } => 1 <= len && len <= 1_500,
        Op::Add { nud, .. } | Op::Change { nud, .. } | Op::Replace { nud, .. } => is_settable(nud),
        _ => true,
    }
}

/// Whether a line is at a moment of a run, up to 30 days, and its operation may be asked for.
pub fn is_line_of_run(line: &Line) -> bool
    ensures { result ≡ steps.is_line_of_run line.now }
{
    line.at.millis() <= Moment::GREATEST && may_be_asked(&line.op)
}
