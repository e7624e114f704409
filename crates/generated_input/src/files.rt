//! The two files.
ghost use Rattle.std.specs.Prelude.{◌≡◌, Ok, IfOk};
ghost use Rattle.pcap_records.specs.Writing.{written, IsCaptureOf};
ghost use Rattle.neigh_script.specs.Written.{script_text};
ghost use Rattle.neigh_script.specs.Lines as lines;
ghost use Rattle.generated_input.specs.Files.{frames_of, script_from, script_of};

use crate::draws::Draws;
use crate::heard::{heard, host};
use crate::sent::sent;
use nb_base::{Bytes, Params};
use neigh_script::Script;
use std::alloc::{AllocError, Global};

/// A capture and a script, made from a number.
///
/// The host is `host dev eth0 lladdr 02:00:00:00:00:02 inet 10.0.0.2`, with 200 neighbours 10.0.1.1 to 10.0.1.200 at 02:00:00:00:03:01 to
/// 02:00:00:00:03:c8. The capture has 10,000 frames of 42 bytes, one every 10 ms: ARP requests for the host to everyone, one in four, and ARP
/// replies to it. The script has 20,000 packets of four bytes, one every 5 ms, of four senders in turn, and the default parameters. Which
/// neighbour each is of or for, and which frames are requests, is drawn by a linear congruential generator, which begins at the number.
///
/// # Errors
///
/// Want of memory.
pub fn generate(alloc: Global, number: u64) -> Result<(Bytes, Bytes), AllocError>
    ensures capture { IfOk result (λ files. files.0 ≡ written (frames_of number)) }
    ensures script { IfOk result (λ files. files.1 ≡ script_text (script_of number)) }
    ensures capture_again { IfOk result (λ files. IsCaptureOf files.0 (frames_of number)) }
    ensures script_again { IfOk result (λ files. lines.script_of files.1 ≡ Ok (script_of number)) }
{
    let mut draws = Draws { state: number };
    let frames = heard(alloc, &mut draws)?;
    let script = script_behind(alloc, &mut draws)?;
    let capture = pcap_records::write(alloc, frames.as_slice())?;
    let text = neigh_script::write(alloc, &script)?;
    Ok((capture, text))
}

/// The script whose packets are drawn next.
fn script_behind(alloc: Global, draws: &mut Draws) -> Result<Script, AllocError>
    ensures { IfOk result (λ script. script ≡ script_from draws.old.state) }
{
    Ok(Script {
        host: host(),
        senders: 4,
        params: Params::DEFAULT,
        items: sent(alloc, draws)?,
    })
}
