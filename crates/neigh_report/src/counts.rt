//! How many packets went out, went out fast, were dropped, and wait.
ghost use Rattle.std.specs.Prelude.{◌≡◌, ◌≤◌, ◌*◌, ◌^◌, length, filter};
ghost use Rattle.std.specs.List.{flat_map, AllByRecursion};
ghost use Rattle.nb_base.specs.declared.host.Host.{Host};
ghost use Rattle.nb_journal.specs.Accounts as accounts;
ghost use Rattle.nb_journal.specs.Fold as fold;
ghost use Rattle.neigh_run.specs.Report as report_of;
ghost use Rattle.neigh_report.specs.Left as left;

use journal_fold::Fold;
use nb_base::{Log, Outcome};
use nb_journal::Kept;
use nud_machine::Act;

/// How many of a run's packets went out by their journal, went out fast, were dropped, and wait at the end.
#[derive(Clone, Copy, Debug, PartialEq, Eq)]
pub struct Fates {
    pub sent: u32,
    pub fast: u32,
    pub dropped: u32,
    pub waiting: u32,
}

/// How many of the acts send a packet.
pub fn count_sent(acts: &[Act]) -> usize
    ensures { result ≡ length (filter fold.is_transmit acts.now) }
{
    let mut count = 0;
    for act in acts {
        if let Act::Transmit(_, _) = act {
            count += 1;
        }
    }
    count
}

/// How many of the acts drop a packet.
pub fn count_dropped(acts: &[Act]) -> usize
    ensures { result ≡ length (filter accounts.is_drop acts.now) }
{
    let mut count = 0;
    for act in acts {
        if let Act::Drop(_, _) = act {
            count += 1;
        }
    }
    count
}

fn count_fast(log: &[Outcome]) -> usize
    ensures { result ≡ length (filter report_of.is_fast log.now) }
{
    let mut count = 0;
    for outcome in log {
        if let Outcome::Fast { .. } = outcome {
            count += 1;
        }
    }
    count
}

/// How many packets of all senders went out fast.
pub fn count_all_fast(logs: &[Log]) -> u128
    ensures { result ≡ length (flat_map (filter report_of.is_fast) logs.now) }
{
    let mut count = 0;
    for number in 0..logs.len() {
        count += count_fast(logs[number].as_slice()) as u128;
    }
    count
}

/// How many packets wait for these entries.
fn count_waiting_for(kept: &[Kept]) -> u128
    ensures value { result ≡ length (left.waiting_for kept.now) }
    ensures small { result ≤ length kept.now * 2 ^ 32 }
{
    let mut count = 0;
    for one in kept {
        count += one.waiting.len() as u128;
    }
    count
}

/// How many packets wait behind the journals.
pub fn count_waiting(folds: &[Fold]) -> u128
    requires { AllByRecursion left.IsShortFold folds.now }
    ensures { result ≡ length (left.waits folds.now) }
{
    let mut count = 0;
    for number in 0..folds.len() {
        count += count_waiting_for(folds[number].kept());
    }
    count
}

/// How many entries are present behind the journals.
pub fn count_present(folds: &[Fold]) -> u128
    ensures { (host : Host) → result ≡ length (left.entries host folds.now) }
{
    let mut count = 0;
    for number in 0..folds.len() {
        count += folds[number].present() as u128;
    }
    count
}
