use nb_base::{HostLine, Items, Journals, Log, Mark, Mode, Plan};

/// What a run of a plan left: a journal for each bucket, the host's journal, a log for each sender, and the marks.
#[derive(Debug, Drop)]
pub struct Run {
    pub mode: Mode,
    pub plan: Plan,
    pub journals: Journals,
    pub host_lines: Items<HostLine>,
    pub logs: Items<Log>,
    pub marks: Items<Mark>,
}
