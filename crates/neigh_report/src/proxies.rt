//! The proxy entries at the end of a run.
ghost use Rattle.std.specs.Prelude.{◌≡◌, ◌++◌, ◌∷◌, [], map, take, fold, length, string_bytes, codes, OnOk, IfOk};
ghost use Rattle.text_codes.specs.Lines.{line_text, text_of};
ghost use Rattle.neigh_run.specs.Control.{host_start, state_behind, proxies_with};
ghost use Rattle.neigh_run.specs.Entries.{proxy_words};
ghost use Rattle.neigh_run.specs.Report as report_of;

use crate::head::write_count;
use nb_base::{ControlItem, Host, Key, Params, Plan};
use nb_queues::ProxyTable;
use std::alloc::{AllocError, Global};
use std::fmt::Write;

/// A proxy entry is added once, and deleted.
fn take_item(table: &mut ProxyTable, item: &ControlItem) -> Result<(), AllocError>
    ensures { OnOk result (table.new.keys ≡ proxies_with table.old.keys item.now) }
{
    match item {
        ControlItem::Proxy { key, add: true, .. } => {
            table.add(*key)?;
            Ok(())
        }
        ControlItem::Proxy { key, .. } => {
            table.del(key);
            Ok(())
        }
        _ => Ok(()),
    }
}

fn proxies_of(
    alloc: Global,
    params: &Params,
    items: &[ControlItem],
) -> Result<ProxyTable, AllocError>
    ensures { IfOk result (λ table. table.keys ≡ fold proxies_with [] items.now) }
{
    let mut table = ProxyTable::new(alloc, params)?;
    for item in items {
        take_item(&mut table, item)?;
    }
    Ok(table)
}

/// The proxy entries behind the plan's items, in order of adding.
#[tactic(auto, using(neigh_run::proofs::HostStates::proxies_behind))]
fn proxies_behind(alloc: Global, plan: &Plan) -> Result<ProxyTable, AllocError>
    ensures { IfOk result (λ table. table.keys ≡ (state_behind plan.now host_start 1 plan.now.control).proxies) }
{
    proxies_of(alloc, &plan.params, plan.control.as_slice())
}

#[tactic(auto, unfolding(text_codes::specs::Lines::line_text))]
fn write_proxy(report: &mut String, host: &Host, key: &Key) -> Result<(), AllocError>
    ensures { OnOk result (string_bytes report.new ≡ string_bytes report.old ++ line_text (proxy_words host.now key.now)) }
{
    writeln!(report, "{key} dev {} proxy", host.dev)?;
    Ok(())
}

fn write_each_proxy(report: &mut String, host: &Host, keys: &[Key]) -> Result<(), AllocError>
    ensures { OnOk result (string_bytes report.new ≡ string_bytes report.old ++ text_of (map (proxy_words host.now) keys.now)) }
{
    for key in keys {
        write_proxy(report, host, key)?;
    }
    Ok(())
}

/// The number of proxy entries at the end of a plan, and each.
pub fn write_proxies(alloc: Global, report: &mut String, plan: &Plan) -> Result<(), AllocError>
    ensures { OnOk result (string_bytes report.new ≡ string_bytes report.old ++ text_of (report_of.counted (codes "proxies" ∷ []) (map (proxy_words plan.now.host) (state_behind plan.now host_start 1 plan.now.control).proxies))) }
{
    let table = proxies_behind(alloc, plan)?;
    let keys = table.keys();
    write_count(report, "proxies", keys.len() as u128)?;
    write_each_proxy(report, &plan.host, keys)
}
