//! The inline run of a plan: its operations are entered into a table in merged order, and what its buckets answer goes to the participants.
ghost use Rattle.std.specs.Prelude.{◌≡◌, ◌≤◌, ◌<◌, [], ◌∷◌, ◌++◌, IfOk, OnOk};
ghost use Rattle.std.specs.List.{AllByRecursion};
ghost use Rattle.plain_table.specs.Table as table_of;
ghost use Rattle.neigh_run.specs.Inline.{IsInlineRun};
ghost use Rattle.neigh_plan.specs.Inline.{most_lines, plan_bound, IsEnterable};
ghost use Rattle.neigh_replay.specs.Answered as by;
ghost use Rattle.neigh_replay.specs.Verdict.{HasFewLines};

use crate::host::host_lines_of;
use nb_base::{Items, Journals, Line, Log, Mode, Outcome, Plan, Why};
use neigh_plan::merged_lines;
use neigh_run::Run;
use plain_table::{Answer, PlainTable};
use std::alloc::{AllocError, Global};

fn is_to(participant: u32, answer: &Answer) -> bool
    ensures { result ≡ by.is_to participant answer.now }
{
    answer.id.0 % 32 == u64::from(participant)
}

/// Appends the outcome of a packet, where the answer is one to this sender.
fn take_outcome(log: &mut Log, participant: u32, answer: &Answer) -> Result<(), AllocError>
    ensures { OnOk result (log.new ≡ log.old ++ by.outcome_by participant answer.now) }
{
    if is_to(participant, answer) {
        log.push(Outcome::Slow {
            why: Why::Inline,
            place: answer.placed.place,
            reply: answer.placed.reply,
        })
    } else {
        Ok(())
    }
}

fn log_of(alloc: Global, participant: u32, answers: &[Answer]) -> Result<Log, AllocError>
    ensures { IfOk result (λ log. log ≡ by.log_by participant answers.now) }
{
    let mut log = Items::new(alloc);
    for answer in answers {
        take_outcome(&mut log, participant, answer)?;
    }
    Ok(log)
}

#[tactic(auto, using(crate::proofs::Logs::logs_more))]
fn logs_of(alloc: Global, senders: u32, answers: &[Answer]) -> Result<Items<Log>, AllocError>
    requires { senders ≤ 16 }
    ensures { IfOk result (λ logs. logs ≡ by.logs_by 1 senders answers.now) }
{
    let mut logs = Items::new(alloc);
    for before in 0..senders {
        logs.push(log_of(alloc, before + 1, answers)?)?;
    }
    Ok(logs)
}

fn take_own(own: &mut Items<Answer>, participant: u32, answer: &Answer) -> Result<(), AllocError>
    ensures { OnOk result (own.new ≡ own.old ++ by.own_answers participant (answer.now ∷ [])) }
{
    if is_to(participant, answer) {
        own.push(*answer)
    } else {
        Ok(())
    }
}

/// The answers to a participant.
fn own_answers(
    alloc: Global,
    participant: u32,
    answers: &[Answer],
) -> Result<Items<Answer>, AllocError>
    ensures { IfOk result (λ own. own ≡ by.own_answers participant answers.now) }
{
    let mut own = Items::new(alloc);
    for answer in answers {
        take_own(&mut own, participant, answer)?;
    }
    Ok(own)
}

fn copy(alloc: Global, lines: &[Line]) -> Result<Items<Line>, AllocError>
    ensures { IfOk result (λ copy. copy ≡ lines.now) }
{
    Ok(Items::from_vec(lines.to_vec(alloc)?))
}

/// The journals of a table's buckets, in order of number.
fn journals_of(alloc: Global, table: &PlainTable) -> Result<Journals, AllocError>
    ensures journals { IfOk result (λ journals. journals ≡ table_of.journals_of table.now) }
    ensures few { IfOk result (AllByRecursion HasFewLines) }
{
    let mut journals = Items::new(alloc);
    for bucket in 0..table.buckets() {
        let journal = copy(alloc, table.lines(bucket))?;
        journals.push(journal)?;
    }
    Ok(journals)
}

fn run_with(
    alloc: Global,
    plan: Plan,
    journals: Journals,
    answers: &[Answer],
) -> Result<Run, AllocError>
    requires plan { IsEnterable plan }
    ensures { IfOk result (λ run. run ≡ by.run_by plan journals answers.now) }
{
    let own = own_answers(alloc, 0, answers)?;
    let host_lines = host_lines_of(alloc, &plan, own.as_slice())?;
    let logs = logs_of(alloc, plan.senders.len() as u32, answers)?;
    Ok(Run {
        mode: Mode::Inline,
        plan,
        journals,
        host_lines,
        logs,
        marks: Items::new(alloc),
    })
}

/// The inline run of a plan. Its operations are entered in merged order, each into the buckets that it goes to, and its line bound is below
/// 2^22, so each of the run's journals has at most 2^22 lines.
///
/// # Errors
/// Want of memory.
pub fn replay_inline(alloc: Global, plan: Plan) -> Result<Run, AllocError>
    requires plan { IsEnterable plan }
    requires bound { plan_bound plan < most_lines }
    ensures run { IfOk result (IsInlineRun plan) }
    ensures short { IfOk result (λ run. AllByRecursion HasFewLines run.journals) }
{
    let lines = merged_lines(alloc, &plan)?;
    let mut table = PlainTable::new(alloc, &plan.params, &plan.host, plan.buckets)?;
    let answers = table.enter_all(alloc, lines.as_slice())?;
    let journals = journals_of(alloc, &table)?;
    let run = run_with(alloc, plan, journals, answers.as_slice())?;
    Ok(run)
}
