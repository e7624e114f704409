//! The forms of a script's head, behind their first words.
ghost use Rattle.std.specs.Prelude.{◌≡◌, true, codes, IfOk};
ghost use Rattle.std.specs.Int.{IsInRange};
ghost use Rattle.nb_base.specs.Name.{is_name};
ghost use Rattle.nb_base.specs.Params.{InRange};
ghost use Rattle.neigh_script.specs.Forms as forms;
ghost use Rattle.neigh_script.specs.Fields as fields;
ghost use Rattle.neigh_script.specs.Reading as of;

use crate::fields::{
    read_device_name, read_link, read_own_device, read_own_ip4, read_own_ip6, read_parameter,
    read_sender_count, read_value,
};
use crate::why::ScriptWhy;
use crate::words::Words;
use nb_base::{Host, Name, Params};

/// `inet A4` where it stands there.
fn read_inet(words: &mut Words) -> Result<Option<u32>, ScriptWhy>
    ensures { of.read_as (λ address. (address, words.new)) result ≡ of.optional (codes "inet") fields.own_ip4 words.old }
{
    if words.take(b"inet") {
        let address = read_own_ip4(words.field()?)?;
        Ok(Some(address))
    } else {
        Ok(None)
    }
}

/// `inet6 A6` where it stands there.
fn read_inet6(words: &mut Words) -> Result<Option<u128>, ScriptWhy>
    ensures { of.read_as (λ address. (address, words.new)) result ≡ of.optional (codes "inet6") fields.own_ip6 words.old }
{
    if words.take(b"inet6") {
        let address = read_own_ip6(words.field()?)?;
        Ok(Some(address))
    } else {
        Ok(None)
    }
}

/// `dev NAME lladdr MAC [inet A4] [inet6 A6]`
#[tactic(auto, unfolding(crate::specs::Forms::host_form))]
pub(crate) fn read_host(words: &mut Words) -> Result<Host, ScriptWhy>
    ensures value { result ≡ forms.host_form words.old }
    ensures within { IfOk result (λ host. is_name host.dev ≡ true) }
{
    words.expect(b"dev")?;
    let dev = read_device_name(words.field()?)?;
    words.expect(b"lladdr")?;
    let mac = read_link(words.field()?)?;
    let ip4 = read_inet(words)?;
    let ip6 = read_inet6(words)?;
    words.end()?;
    Ok(Host { dev, mac, ip4, ip6 })
}

/// `N`
#[tactic(auto, unfolding(crate::specs::Forms::senders_form))]
pub(crate) fn read_senders(words: &mut Words) -> Result<u32, ScriptWhy>
    ensures value { result ≡ forms.senders_form words.old }
    ensures within { IfOk result (IsInRange 1 16) }
{
    let senders = read_sender_count(words.field()?)?;
    words.end()?;
    Ok(senders)
}

/// `NAME VALUE`
#[tactic(auto, unfolding(crate::specs::Forms::param_form))]
pub(crate) fn read_param(params: Params, words: &mut Words) -> Result<Params, ScriptWhy>
    ensures value { result ≡ forms.param_form params words.old }
    ensures within { InRange params → IfOk result InRange }
{
    let parameter = read_parameter(words.field()?)?;
    let value = read_value(parameter, words.field()?)?;
    words.end()?;
    Ok(parameter.set(params, value))
}

/// `[dev NAME]` at the end of a line.
#[tactic(auto, unfolding(crate::specs::Forms::device_end))]
pub(crate) fn end_with_device(host: &Host, words: &mut Words) -> Result<(), ScriptWhy>
    ensures { result ≡ forms.device_end host.now words.old }
{
    read_device(host, words)?;
    words.end()
}

fn read_device(host: &Host, words: &mut Words) -> Result<Option<Name>, ScriptWhy>
    ensures { of.read_as (λ dev. (dev, words.new)) result ≡ of.optional (codes "dev") (fields.own_device host.now) words.old }
{
    if words.take(b"dev") {
        let dev = read_own_device(host, words.field()?)?;
        Ok(Some(dev))
    } else {
        Ok(None)
    }
}
