//! Sweeps in their places.
ghost use Rattle.std.specs.Prelude.{◌≡◌, ◌↔◌, ◌<◌, ◌≤◌, ℕ, IfOk, IsTrue, filter, length, take, drop, true};
ghost use Rattle.std.specs.List.{list_all};
ghost use Rattle.nb_base.specs.Params.{InRange};
ghost use Rattle.nud_machine.specs.Asked.{greatest};
ghost use Rattle.nb_journal.specs.Lawful as lawful;
ghost use Rattle.journal_check.specs.Evaluated as test;

use nb_base::{Line, Moment, Op, Params};
use nb_journal::is_timer;

/// Whether a line stands before a sweep at the moment.
fn is_before_sweep(moment: Moment, line: &Line) -> bool
    ensures { result ≡ lawful.is_before_sweep moment line.now }
{
    line.at < moment || (line.at == moment && is_timer(&line.op))
}

/// Whether all lines stand before a sweep at the moment.
fn are_before_sweep(moment: Moment, lines: &[Line]) -> bool
    ensures { result ≡ list_all (lawful.is_before_sweep moment) lines.now }
{
    lines.iter().all(|line| is_before_sweep(moment, line))
}

/// How many lines stand before a sweep at the moment.
fn count_before_sweep(moment: Moment, lines: &[Line]) -> usize
    ensures count { result ≡ length (filter (lawful.is_before_sweep moment) lines.now) }
    ensures within { result ≤ length lines.now }
{
    let mut count = 0;
    for line in lines {
        if is_before_sweep(moment, line) {
            count += 1;
        }
    }
    count
}

fn is_sweep_moment(params: &Params, moment: Moment) -> bool
    requires { InRange params.now }
    ensures { result ≡ test.is_sweep_moment params.now moment }
{
    moment.millis() % u64::from(params.gc_interval) == 0 && moment.millis() > 0
}

/// Whether a line is a bucket's own: it has no number and wasn't refused.
pub fn is_bare(line: &Line) -> bool
    ensures { result ≡ test.is_bare line.now }
{
    line.id.is_none() && line.full.is_none()
}

/// Whether a sweep's line stands in its place.
pub fn sweep_fits(params: &Params, past: &[Line], line: &Line) -> bool
    requires { InRange params.now }
    ensures { result ≡ test.sweep_test params.now past.now line.now line.now.op }
{
    match line.op {
        Op::Sweep => {
            is_sweep_moment(params, line.at)
                && is_bare(line)
                && line.seen.is_some()
                && are_before_sweep(line.at, past)
        }
        _ => true,
    }
}

/// Whether it is the line of a sweep at the moment.
fn is_sweep_at(moment: Moment, line: &Line) -> bool
    ensures { result ≡ test.is_sweep_at moment line.now line.now.op }
{
    match line.op {
        Op::Sweep => line.at == moment && is_bare(line) && line.seen.is_some(),
        _ => false,
    }
}

/// Whether the first of the lines is a sweep's at the moment.
fn begins_with_sweep(moment: Moment, lines: &[Line]) -> bool
    ensures { result ≡ test.begins_with_sweep moment lines.now }
{
    match lines {
        [] => false,
        [first, ..] => is_sweep_at(moment, first),
    }
}

/// Whether a sweep stands at the moment.
fn sweep_stands(lines: &[Line], moment: Moment) -> bool
    ensures { result ≡ test.sweep_stands moment lines.now (length (filter (lawful.is_before_sweep moment) lines.now)) }
{
    let count = count_before_sweep(moment, lines);
    begins_with_sweep(moment, &lines[count..])
}

/// Whether a sweep stands at each multiple of the interval up to the clock.
pub fn sweeps_stand(params: &Params, lines: &[Line], clock: Moment) -> bool
    requires params { InRange params.now }
    requires clock { clock ≤ greatest }
    ensures { IsTrue result ↔ test.SweepsStand params.now lines.now clock }
{
    let mut moment = Moment(u64::from(params.gc_interval));
    while moment <= clock {
        if !sweep_stands(lines, moment) {
            return false;
        }
        moment = moment.after(params.gc_interval);
    }
    true
}
