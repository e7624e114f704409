//! Tables of calls of the command, each as one text.
//!
//! A line `== NAME: CALL` begins a case: what it shows, and how the command is called, in the words that its table tells. Below it stands
//! the script. Where the call has a capture, its records stand below a line `-- records`, one a line: the moment in milliseconds, and the
//! frame's hexadecimal digits. What the call writes stands last, below a line `-- report`. No other line has such a beginning.

/// What begins a case.
pub const HEAD: &str = "== ";

/// A case of a table. Each text but the name and the call is empty or ends with its last line's end.
#[derive(Clone, Copy)]
pub struct Case {
    pub name: &'static str,
    pub call: &'static str,
    pub script: &'static str,
    pub records: &'static str,
    pub report: &'static str,
}

/// How the command is called over files in memory: the status that it ends with, the number of the call of its inputs that is to fail, or
/// 0, and its words.
#[derive(Clone, Copy)]
pub struct Call {
    pub status: u8,
    pub fails: u32,
    pub words: &'static str,
}

/// How many lines of the table begin a case.
pub fn count_of(table: &str) -> usize {
    table.lines().filter(|line| line.starts_with(HEAD)).count()
}

/// How many rows a table has that has a row a line.
pub fn rows_of(table: &str) -> usize {
    table.lines().count()
}

/// The case whose text this is, from behind its head's beginning on.
pub fn case_of(text: &'static str) -> Option<Case> {
    let (head, body) = text.split_once('\n')?;
    let (name, call) = head.split_once(": ")?;
    let (input, report) = body.split_once("-- report\n")?;
    let (script, records) = input.split_once("-- records\n").unwrap_or((input, ""));
    Some(Case {
        name,
        call,
        script,
        records,
        report,
    })
}

/// The call that is written as its status, what fails, and its words.
pub fn call_of(text: &'static str) -> Option<Call> {
    let (status, rest) = text.split_once(' ')?;
    let (fails, words) = rest.split_once(' ').unwrap_or((rest, ""));
    Some(Call {
        status: status.parse().ok()?,
        fails: fails.parse().ok()?,
        words,
    })
}
