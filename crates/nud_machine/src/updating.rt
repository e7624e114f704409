//! What an address that was heard or given does to an entry.
ghost use Rattle.std.specs.Prelude.{◌≡◌, ◌≤◌, []};
ghost use Rattle.nb_base.specs.Params.{InRange};
ghost use Rattle.nud_machine.specs.Asked.{greatest};
ghost use Rattle.nud_machine.specs.State.{HasRoom};
ghost use Rattle.nud_machine.specs.Kept.{manner_of, rule_named, state_of, stepped};
ghost use Rattle.nud_machine.specs.Step as spec_step;
ghost use Rattle.nud_machine.specs.Update as spec;

use crate::news::{News, Rule, same_mac};
use crate::packets::transmit_all;
use crate::{Acts, Entry};
use nb_base::{Mac, Moment, Nud, Params};
use nb_queues::WaitQueue;

/// REACHABLE is confirmed now; otherwise a new address that isn't connected has no confirmation.
fn confirmed_in(at: Moment, entry: &Entry, mac: Option<Mac>, nud: Nud) -> Option<Moment>
    ensures { result ≡ spec.confirmed_in at entry.now mac nud }
{
    if matches!(nud, Nud::Reachable) {
        Some(at)
    } else if !same_mac(mac, entry.mac) && !nud.is_connected() {
        None
    } else {
        entry.confirmed
    }
}

/// REACHABLE has a timer.
fn due_in(params: &Params, at: Moment, nud: Nud) -> Option<Moment>
    requires { at ≤ greatest }
    ensures { result ≡ spec.due_in params.now at nud }
{
    match nud {
        Nud::Reachable => Some(at.after(params.base_reachable_time)),
        _ => None,
    }
}

/// The entry takes the state and the address, and its probes begin anew.
fn take(entry: &mut Entry, params: &Params, at: Moment, mac: Option<Mac>, nud: Nud)
    requires { at ≤ greatest }
    ensures { entry.new ≡ spec.entry_with params.now at entry.old mac nud }
{
    entry.confirmed = confirmed_in(at, entry, mac, nud);
    entry.due = due_in(params, at, nud);
    entry.nud = nud;
    entry.mac = mac;
    entry.probes = 0;
}

/// What the rule does.
#[tactic(auto, using(crate::proofs::Room::few_wait))]
fn update_by(
    rule: Rule,
    entry: &mut Entry,
    params: &Params,
    at: Moment,
    news: &News,
    waiting: &mut WaitQueue,
    acts: &mut Acts,
)
    requires now { at ≤ greatest }
    requires params { InRange params.now }
    requires room { HasRoom params.now waiting.old }
    requires none { acts.old ≡ [] }
    ensures step { stepped entry.new waiting.new acts.new
        ≡ spec.update_by (rule_named rule) params.now at (state_of entry.old waiting.old) news.now.mac news.now.nud (manner_of news.now) }
{
    match rule {
        Rule::SetByHand | Rule::NoAddress | Rule::NothingNew => {}
        Rule::MayNotReplace => {
            if news.weak && entry.nud.is_connected() {
                entry.nud = Nud::Stale;
                entry.due = None;
            }
        }
        Rule::IsTaken => {
            let mac = news.meant(entry);
            let was_valid = entry.nud.is_valid();
            take(entry, params, at, mac, news.nud);
            if !was_valid {
                transmit_all(mac, waiting, acts);
            }
        }
    }
}

/// Updates the entry by the first rule that applies, and names that rule.
pub fn update(
    entry: &mut Entry,
    params: &Params,
    at: Moment,
    news: &News,
    waiting: &mut WaitQueue,
    acts: &mut Acts,
) -> Rule
    requires now { at ≤ greatest }
    requires params { InRange params.now }
    requires room { HasRoom params.now waiting.old }
    requires none { acts.old ≡ [] }
    ensures rule { rule_named result ≡ spec.rule_for entry.old news.now.mac news.now.nud (manner_of news.now) }
    ensures step { stepped entry.new waiting.new acts.new
        ≡ spec.update params.now at (state_of entry.old waiting.old) news.now.mac news.now.nud (manner_of news.now) }
{
    let rule = news.rule_for(entry);
    update_by(rule, entry, params, at, news, waiting, acts);
    rule
}

/// An advertisement whose news say nothing new or are taken sets the router mark too.
fn mark_router(entry: &mut Entry, rule: Rule, router: bool)
    ensures { entry.new ≡ spec.router_by (rule_named rule) router entry.old }
{
    if matches!(rule, Rule::NothingNew | Rule::IsTaken) {
        entry.router = router;
    }
}

/// Updates the entry and its router mark by an advertisement.
pub fn advertise(
    entry: &mut Entry,
    params: &Params,
    at: Moment,
    news: &News,
    router: bool,
    waiting: &mut WaitQueue,
    acts: &mut Acts,
)
    requires now { at ≤ greatest }
    requires params { InRange params.now }
    requires room { HasRoom params.now waiting.old }
    requires none { acts.old ≡ [] }
    ensures step { stepped entry.new waiting.new acts.new
        ≡ spec_step.advertise params.now at (state_of entry.old waiting.old) news.now.mac router news.now.nud (manner_of news.now) }
{
    let rule = update(entry, params, at, news, waiting, acts);
    mark_router(entry, rule, router);
}
