//! The entries of a table.
ghost use Rattle.std.specs.Prelude.{◌≡◌, ◌++◌, ◌∷◌, [], if◌then◌else◌, string_bytes, codes, OnOk};
ghost use Rattle.nb_base.specs.Address.{key_text};
ghost use Rattle.text_codes.specs.Lines.{line_text};
ghost use Rattle.neigh_run.specs.Spelling as spelling;
ghost use Rattle.neigh_run.specs.Entries.{address_words, entry_words};
ghost use Rattle.neigh_run.specs.Report.{set_in};
ghost use Rattle.neigh_report.specs.Spaced.{spaced};

use crate::spelling::state_name;
use nb_base::{Host, Key, Mac};
use nud_machine::Entry;
use std::alloc::AllocError;
use std::fmt::Write;

fn add_address(report: &mut String, mac: Option<Mac>) -> Result<(), AllocError>
    ensures { OnOk result (string_bytes report.new ≡ string_bytes report.old ++ spaced (address_words mac)) }
{
    if let Some(mac) = mac {
        write!(report, " lladdr {mac}")?;
    }
    Ok(())
}

fn add_device(report: &mut String, host: &Host) -> Result<(), AllocError>
    ensures { OnOk result (string_bytes report.new ≡ string_bytes report.old ++ spaced (codes "dev" ∷ host.now.dev ∷ [])) }
{
    write!(report, " dev {}", host.dev)?;
    Ok(())
}

fn add_router(report: &mut String, router: bool) -> Result<(), AllocError>
    ensures { OnOk result (string_bytes report.new ≡ string_bytes report.old ++ spaced (if router then codes "router" ∷ [] else [])) }
{
    if router {
        report.push_str(" router")?;
    }
    Ok(())
}

/// What stands behind an entry's key.
fn add_entry(report: &mut String, host: &Host, entry: &Entry) -> Result<(), AllocError>
    ensures { OnOk result (string_bytes report.new ≡ string_bytes report.old ++ spaced (codes "dev" ∷ host.now.dev ∷ (address_words entry.now.mac ++ (if entry.now.router then codes "router" ∷ [] else []) ++ spelling.state_name entry.now.nud ∷ []))) }
{
    add_device(report, host)?;
    add_address(report, entry.mac)?;
    add_router(report, entry.router)?;
    let state = state_name(entry.nud);
    write!(report, " {state}")?;
    Ok(())
}

/// An entry in the table.
pub fn write_entry(
    report: &mut String,
    host: &Host,
    key: &Key,
    entry: &Entry,
) -> Result<(), AllocError>
    ensures { OnOk result (string_bytes report.new ≡ string_bytes report.old ++ line_text (entry_words host.now key.now entry.now)) }
{
    write!(report, "{key}")?;
    add_entry(report, host, entry)?;
    writeln!(report)?;
    Ok(())
}

/// An entry below the line that lists it.
pub fn write_listed(
    report: &mut String,
    host: &Host,
    key: &Key,
    entry: &Entry,
) -> Result<(), AllocError>
    ensures { OnOk result (string_bytes report.new ≡ string_bytes report.old ++ line_text (set_in (codes "entry" ∷ entry_words host.now key.now entry.now))) }
{
    write!(report, "  entry {key}")?;
    add_entry(report, host, entry)?;
    writeln!(report)?;
    Ok(())
}
