//! The options of `neigh add`, `neigh change` and `neigh replace`.
ghost use Rattle.std.specs.Prelude.{◌≡◌, IfOk, IfSome};
ghost use Rattle.neigh_script.specs.Limits.{IsEntry, IsGiven};
ghost use Rattle.neigh_script.specs.Forms.{no_options};
ghost use Rattle.neigh_script.specs.Forms as forms;

use crate::fields::{read_link, read_neighbour, read_own_device, read_state};
use crate::why::ScriptWhy;
use crate::words::{Words, is_word};
use nb_base::{Host, Key, Mac, Nud};

/// Which options were met.
#[derive(Clone, Copy, Debug, PartialEq, Eq)]
pub(crate) struct Options {
    pub mac: Option<Mac>,
    pub dev: bool,
    pub nud: Option<Nud>,
}

/// The options with one more, or the refusal of its name or its value.
#[tactic(auto, unfolding(crate::specs::Forms::option))]
fn read_option(host: &Host, met: Options, name: &[u8], value: &[u8]) -> Result<Options, ScriptWhy>
    ensures value { result ≡ forms.option host.now met name.now value.now }
    ensures given { IfSome met.nud IsGiven → IfOk result (λ more. IfSome more.nud IsGiven) }
{
    if is_word(name, b"lladdr") && met.mac.is_none() {
        let mac = read_link(value)?;
        Ok(Options {
            mac: Some(mac),
            ..met
        })
    } else if is_word(name, b"dev") && !met.dev {
        read_own_device(host, value)?;
        Ok(Options { dev: true, ..met })
    } else if is_word(name, b"nud") && met.nud.is_none() {
        let nud = read_state(value)?;
        Ok(Options {
            nud: Some(nud),
            ..met
        })
    } else {
        Err(ScriptWhy::UnknownWord)
    }
}

#[tactic(auto, using(crate::proofs::OptionSteps::options_end, crate::proofs::OptionSteps::options_alone, crate::proofs::OptionSteps::options_more, crate::proofs::OptionSteps::options_bad))]
fn read_options(host: &Host, words: &mut Words) -> Result<Options, ScriptWhy>
    ensures value { result ≡ forms.options host.now no_options words.old }
    ensures given { IfOk result (λ met. IfSome met.nud IsGiven) }
{
    let mut met = Options {
        mac: None,
        dev: false,
        nud: None,
    };
    while let Some(name) = words.next() {
        let value = words.field()?;
        met = read_option(host, met, name, value)?;
    }
    Ok(met)
}

/// `ADDR OPTS`: without `nud` the state is permanent.
#[tactic(auto, unfolding(crate::specs::Forms::entry_form))]
pub(crate) fn read_entry(
    host: &Host,
    words: &mut Words,
) -> Result<(Key, Option<Mac>, Nud), ScriptWhy>
    ensures value { result ≡ forms.entry_form host.now words.old }
    ensures within { IfOk result (λ entry. IsEntry host.now entry.0 entry.2) }
{
    let key = read_neighbour(host, words.field()?)?;
    let met = read_options(host, words)?;
    Ok((key, met.mac, met.nud.unwrap_or(Nud::Permanent)))
}
