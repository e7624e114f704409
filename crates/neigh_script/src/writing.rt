//! The writing of a script.
ghost use Rattle.std.specs.Prelude.{◌≡◌, ◌++◌, ◌∷◌, [], map, true, codes, decimal, string_bytes, Ok, IfOk, OnOk};
ghost use Rattle.nb_base.specs.Address.{key_text};
ghost use Rattle.std.specs.List.{AllByRecursion};
ghost use Rattle.text_codes.specs.Lines.{line_text, text_of};
ghost use Rattle.text_codes.specs.HexText.{hex_text};
ghost use Rattle.neigh_script.specs.Parameter.{value_in};
ghost use Rattle.neigh_script.specs.Lines.{script_of};
ghost use Rattle.neigh_script.specs.Limits.{IsTyped, IsTypedItem, IsWithinLimits, IsShort};
ghost use Rattle.neigh_script.specs.Written.{script_text, host_words, senders_words, param_words, item_words, op_words, entry_words, device_words, moment_word, state_word, IsScriptItem};

use crate::parameter::Parameter;
use crate::script::{Script, ScriptItem};
use crate::typed::{host_is_typed, item_is_typed};
use nb_base::{Bytes, Host, Items, Key, Mac, Moment, Nud, Op, Params, hex_digit};
use std::alloc::{AllocError, Global};
use std::fmt::Write;

/// The one written form: the host line, how many senders there are, every parameter in the order of `Params`, and the items, with single spaces and LF behind each line.
/// The options of an entry stand in the order `lladdr`, `dev`, `nud`; `dev` and `nud` are always given where the form has them; `flush` is written without `all`, and payloads in lower case.
/// The error is want of memory. It asks that each operation is an `Add`, `Change`, `Replace`, `Del`, `Confirm`, `Show` or `Flush`. The text of a script within its limits is read again as that script, where it has at most 131,072 lines.
pub fn write(alloc: Global, script: &Script) -> Result<Bytes, AllocError>
    requires { AllByRecursion IsScriptItem script.now.items }
    ensures text { IfOk result (λ text. text ≡ script_text script.now) }
    ensures again { IsWithinLimits script.now → IsShort script.now → IfOk result (λ text. script_of text ≡ Ok script.now) }
{
    let text = write_script(alloc, script)?;
    Ok(Items::from_vec(text.into_bytes()))
}

#[tactic(auto, unfolding(crate::specs::Written::script_text, crate::specs::Written::script_rows))]
fn write_script(alloc: Global, script: &Script) -> Result<String, AllocError>
    ensures text { IfOk result (λ text. string_bytes text ≡ script_text script.now) }
    ensures typed { OnOk result (IsTyped script.now) }
{
    let mut text = String::new(alloc);
    host_is_typed(&script.host);
    write_host(&mut text, &script.host)?;
    write_senders(&mut text, script.senders)?;
    write_params(&mut text, &script.params, &Parameter::ALL)?;
    write_items(&mut text, &script.host, script.items.as_slice())?;
    Ok(text)
}

#[tactic(auto, unfolding(crate::specs::Written::host_words, text_codes::specs::Lines::line_text))]
fn write_host(text: &mut String, host: &Host) -> Result<(), AllocError>
    ensures { OnOk result (string_bytes text.new ≡ string_bytes text.old ++ line_text (host_words host.now)) }
{
    write!(text, "host dev {} lladdr {}", host.dev, host.mac)?;
    if let Some(address) = host.ip4 {
        write!(text, " inet {}", Key::V4(address))?;
    }
    if let Some(address) = host.ip6 {
        write!(text, " inet6 {}", Key::V6(address))?;
    }
    text.push('\n')
}

#[tactic(auto, unfolding(text_codes::specs::Lines::line_text))]
fn write_senders(text: &mut String, senders: u32) -> Result<(), AllocError>
    ensures { OnOk result (string_bytes text.new ≡ string_bytes text.old ++ line_text (senders_words senders)) }
{
    writeln!(text, "senders {senders}")?;
    Ok(())
}

fn write_params(
    text: &mut String,
    params: &Params,
    parameters: &[Parameter],
) -> Result<(), AllocError>
    ensures { OnOk result (string_bytes text.new ≡ string_bytes text.old ++ text_of (map (param_words params.now) parameters.now)) }
{
    for parameter in parameters {
        write_param(text, params, *parameter)?;
    }
    Ok(())
}

#[tactic(auto, unfolding(text_codes::specs::Lines::line_text))]
fn write_param(text: &mut String, params: &Params, parameter: Parameter) -> Result<(), AllocError>
    ensures { OnOk result (string_bytes text.new ≡ string_bytes text.old ++ line_text (param_words params.now parameter)) }
{
    let value = value_of(params, parameter);
    writeln!(text, "param {} {value}", parameter.name())?;
    Ok(())
}

fn value_of(params: &Params, parameter: Parameter) -> u32
    ensures { result ≡ value_in params.now parameter }
{
    match parameter {
        Parameter::GcThresh1 => params.gc_thresh1,
        Parameter::GcThresh2 => params.gc_thresh2,
        Parameter::GcThresh3 => params.gc_thresh3,
        Parameter::GcInterval => params.gc_interval,
        Parameter::GcStaleTime => params.gc_stale_time,
        Parameter::Locktime => params.locktime,
        Parameter::RetransTime => params.retrans_time,
        Parameter::BaseReachableTime => params.base_reachable_time,
        Parameter::DelayFirstProbeTime => params.delay_first_probe_time,
        Parameter::McastSolicit => params.mcast_solicit,
        Parameter::UcastSolicit => params.ucast_solicit,
        Parameter::ProxyDelay => params.proxy_delay,
        Parameter::ProxyQlen => params.proxy_qlen,
        Parameter::UnresQlenBytes => params.unres_qlen_bytes,
    }
}

fn write_items(text: &mut String, host: &Host, items: &[ScriptItem]) -> Result<(), AllocError>
    ensures text { OnOk result (string_bytes text.new ≡ string_bytes text.old ++ text_of (map (item_words host.now) items.now)) }
    ensures typed { OnOk result (AllByRecursion IsTypedItem items.now) }
{
    for item in items {
        item_is_typed(item);
        write_item(text, host, item)?;
    }
    Ok(())
}

#[tactic(auto, unfolding(crate::specs::Written::item_words))]
fn write_item(text: &mut String, host: &Host, item: &ScriptItem) -> Result<(), AllocError>
    ensures { OnOk result (string_bytes text.new ≡ string_bytes text.old ++ line_text (item_words host.now item.now)) }
{
    match item {
        ScriptItem::Neigh { at, op } => write_op(text, host, *at, *op),
        ScriptItem::Proxy { at, key, add: true } => write_proxy(text, host, *at, "add", *key),
        ScriptItem::Proxy {
            at,
            key,
            add: false,
        } => write_proxy(text, host, *at, "del", *key),
        ScriptItem::Send {
            at,
            sender,
            key,
            payload,
        } => write_send(text, *at, *sender, *key, payload.as_slice()),
    }
}

#[tactic(auto, unfolding(crate::specs::Written::op_words))]
fn write_op(text: &mut String, host: &Host, at: Moment, op: Op) -> Result<(), AllocError>
    ensures { OnOk result (string_bytes text.new ≡ string_bytes text.old ++ line_text (moment_word at ∷ op_words host.now op)) }
{
    match op {
        Op::Add { key, mac, nud } => write_entry(text, host, at, "add", key, mac, nud),
        Op::Change { key, mac, nud } => write_entry(text, host, at, "change", key, mac, nud),
        Op::Replace { key, mac, nud } => write_entry(text, host, at, "replace", key, mac, nud),
        Op::Del { key } => write_del(text, host, at, key),
        Op::Confirm { key } => write_confirm(text, at, key),
        Op::Show => write_device(text, host, at, "show"),
        Op::Flush => write_device(text, host, at, "flush"),
        _ => write_moment(text, at),
    }
}

#[tactic(auto, unfolding(text_codes::specs::Lines::line_text))]
fn write_entry(
    text: &mut String,
    host: &Host,
    at: Moment,
    verb: &str,
    key: Key,
    mac: Option<Mac>,
    nud: Nud,
) -> Result<(), AllocError>
    ensures { OnOk result (string_bytes text.new ≡ string_bytes text.old ++ line_text (moment_word at ∷ entry_words host.now verb.now key mac nud)) }
{
    write!(text, "@{at} neigh {verb} {key}")?;
    if let Some(mac) = mac {
        write!(text, " lladdr {mac}")?;
    }
    let state = state_name(nud);
    writeln!(text, " dev {} nud {state}", host.dev)?;
    Ok(())
}

fn state_name(nud: Nud) -> &'static str
    ensures { result.now ≡ state_word nud }
{
    match nud {
        Nud::None => "none",
        Nud::Incomplete => "incomplete",
        Nud::Reachable => "reachable",
        Nud::Stale => "stale",
        Nud::Delay => "delay",
        Nud::Probe => "probe",
        Nud::Failed => "failed",
        Nud::Noarp => "noarp",
        Nud::Permanent => "permanent",
    }
}

#[tactic(auto, unfolding(text_codes::specs::Lines::line_text))]
fn write_del(text: &mut String, host: &Host, at: Moment, key: Key) -> Result<(), AllocError>
    ensures { OnOk result (string_bytes text.new ≡ string_bytes text.old ++ line_text (moment_word at ∷ codes "neigh" ∷ codes "del" ∷ key_text key ∷ device_words host.now)) }
{
    writeln!(text, "@{at} neigh del {key} dev {}", host.dev)?;
    Ok(())
}

#[tactic(auto, unfolding(text_codes::specs::Lines::line_text))]
fn write_proxy(
    text: &mut String,
    host: &Host,
    at: Moment,
    verb: &str,
    key: Key,
) -> Result<(), AllocError>
    ensures { OnOk result (string_bytes text.new ≡ string_bytes text.old ++ line_text (moment_word at ∷ codes "neigh" ∷ verb.now ∷ codes "proxy" ∷ key_text key ∷ device_words host.now)) }
{
    writeln!(text, "@{at} neigh {verb} proxy {key} dev {}", host.dev)?;
    Ok(())
}

// A verb without an address.
#[tactic(auto, unfolding(text_codes::specs::Lines::line_text))]
fn write_device(text: &mut String, host: &Host, at: Moment, verb: &str) -> Result<(), AllocError>
    ensures { OnOk result (string_bytes text.new ≡ string_bytes text.old ++ line_text (moment_word at ∷ codes "neigh" ∷ verb.now ∷ device_words host.now)) }
{
    writeln!(text, "@{at} neigh {verb} dev {}", host.dev)?;
    Ok(())
}

#[tactic(auto, unfolding(text_codes::specs::Lines::line_text))]
fn write_confirm(text: &mut String, at: Moment, key: Key) -> Result<(), AllocError>
    ensures { OnOk result (string_bytes text.new ≡ string_bytes text.old ++ line_text (moment_word at ∷ codes "confirm" ∷ key_text key ∷ [])) }
{
    writeln!(text, "@{at} confirm {key}")?;
    Ok(())
}

#[tactic(auto, unfolding(text_codes::specs::Lines::line_text))]
fn write_moment(text: &mut String, at: Moment) -> Result<(), AllocError>
    ensures { OnOk result (string_bytes text.new ≡ string_bytes text.old ++ line_text (moment_word at ∷ [])) }
{
    writeln!(text, "@{at}")?;
    Ok(())
}

#[tactic(auto, unfolding(text_codes::specs::Lines::line_text))]
fn write_send(
    text: &mut String,
    at: Moment,
    sender: u32,
    key: Key,
    payload: &[u8],
) -> Result<(), AllocError>
    ensures { OnOk result (string_bytes text.new ≡ string_bytes text.old ++ line_text (moment_word at ∷ codes "send" ∷ decimal sender ∷ key_text key ∷ hex_text payload.now ∷ [])) }
{
    write!(text, "@{at} send {sender} {key} ")?;
    write_hex(text, payload)?;
    text.push('\n')
}

fn write_hex(text: &mut String, bytes: &[u8]) -> Result<(), AllocError>
    ensures { OnOk result (string_bytes text.new ≡ string_bytes text.old ++ hex_text bytes.now) }
{
    for byte in bytes {
        text.push(char::from(hex_digit(*byte / 16)))?;
        text.push(char::from(hex_digit(*byte % 16)))?;
    }
    Ok(())
}
