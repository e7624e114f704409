//! The reading of a script.
ghost use Rattle.std.specs.Prelude.{◌≡◌, ◌≤◌, ◌++◌, length, IfOk, OnOk, option_to_list};
ghost use Rattle.std.specs.List.{AllByRecursion};
ghost use Rattle.neigh_script.specs.Limits.{AreAbove, IsWithinLimits};
ghost use Rattle.neigh_script.specs.Written.{IsScriptItem};
ghost use Rattle.neigh_script.specs.Lines.{script_of, script_end};
ghost use Rattle.neigh_script.specs.Why.{Answers};

use crate::context::Context;
use crate::lines::{cut_line, read_numbered};
use crate::script::{Script, ScriptItem};
use crate::why::{ScriptFail, ScriptWhy};
use nb_base::Items;
use std::alloc::{AllocError, Global};

/// What stands behind the last line.
fn finish(number: u32, context: Context, items: Items<ScriptItem>) -> Result<Script, ScriptFail>
    ensures value { Answers result (script_end number context context.host items) }
    ensures same { IfOk result (λ script. script.items ≡ items) }
    ensures within { AreAbove context items → IfOk result IsWithinLimits }
    ensures items { AreAbove context items → IfOk result (λ script. AllByRecursion IsScriptItem script.items) }
{
    let Context {
        host,
        senders,
        params,
        ..
    } = context;
    match host {
        None => Err(ScriptFail::Refused {
            line: number,
            why: ScriptWhy::NoHost,
        }),
        Some(host) => Ok(Script {
            host,
            senders,
            params,
            items,
        }),
    }
}

/// Appends the item of a line that has one.
fn keep(items: &mut Items<ScriptItem>, item: Option<ScriptItem>) -> Result<(), AllocError>
    ensures { OnOk result (items.new ≡ items.old ++ option_to_list item) }
{
    match item {
        None => Ok(()),
        Some(item) => items.push(item),
    }
}

/// What the text says, line by line: a host, how many senders there are, parameters, and items in the order of their lines.
/// It goes over the bytes once. The refusal is the first check that the first failing line fails, and its number, counted from 1;
/// a text without a host line and a failing line is refused at the line after the last. Nothing is kept of a refused text.
pub fn read(alloc: Global, bytes: &[u8]) -> Result<Script, ScriptFail>
    // What is read is what the text says, or its refusal, unless memory runs out.
    ensures value { Answers result (script_of bytes.now) }
    // A script that is read keeps its limits.
    ensures within { IfOk result IsWithinLimits }
    // It has no more items than lines.
    ensures few { IfOk result (λ script. length script.items ≤ 131_072) }
    // And it may be written.
    ensures items { IfOk result (λ script. AllByRecursion IsScriptItem script.items) }
{
    let mut context = Context::start();
    let mut items = Items::new(alloc);
    let mut number = 1;
    let mut rest = bytes;
    while !rest.is_empty() {
        let (line, behind) = cut_line(rest);
        let (next, item) = read_numbered(alloc, number, context, line)?;
        keep(&mut items, item)?;
        context = next;
        number += 1;
        rest = behind;
    }
    finish(number, context, items)
}
