//! Faults as JSON.

use crate::as_json::{write_alone, write_chain, write_left_out, write_symbol, write_text};
use json::{Token, Writer};
use serde_json::Value;
use std::alloc::{AllocError, Global};
use wesl_explain_text::{chain_at, cure_word};
use wesl_explain_world::{
    Asker, Chain, Cut, Explanation, Fault, FaultCure, FaultLine, Flaw, LinkFault, NameId, PathId,
    Symbol, Target, Use,
};
use wesl_tree_base::Span;

/// Writes a text or a number of a line.
fn write_scalar(out: &mut Writer, value: &Value) -> Result<(), AllocError> {
    match value.as_str() {
        Some(text) => out.string(text),
        None => match value.as_u64() {
            Some(number) => out.u64(number),
            None => out.token(Token::Null),
        },
    }
}

/// Writes what a member of a line holds: a text, a number, or a list of these.
fn write_value(out: &mut Writer, value: &Value) -> Result<(), AllocError> {
    let Some(items) = value.as_array() else {
        return write_scalar(out, value);
    };
    out.begin_array()?;
    for item in items {
        write_scalar(out, item)?;
    }
    out.end_array()
}

/// Writes a member of a line, if it is there.
fn write_member(out: &mut Writer, line: &Value, key: &str) -> Result<(), AllocError> {
    match line.get(key) {
        Some(value) => {
            out.key(key)?;
            write_value(out, value)
        }
        None => Ok(()),
    }
}

/// Writes a member that is a number.
fn write_number(out: &mut Writer, key: &str, number: usize) -> Result<(), AllocError> {
    out.key(key)?;
    out.u64(number as u64)
}

/// Writes the numbers by which an asker is told.
fn write_numbers(out: &mut Writer, told: &Explanation, asked: &Use) -> Result<(), AllocError> {
    match asked.asker {
        Asker::Kept(name) => write_text(out, "kept", told.name(name)),
        Asker::Named(_, index, _) | Asker::Unclear(_, index, _) => {
            write_number(out, "declaration", index)?;
            match asked.identifier {
                Some(identifier) => write_number(out, "identifier", identifier),
                None => Ok(()),
            }
        }
        Asker::Imported(_, number) => write_number(out, "import", number),
        Asker::Whole(_) => Ok(()),
    }
}

/// The module of an asker.
fn module_of(asker: Asker<PathId, NameId>) -> Option<PathId> {
    match asker {
        Asker::Kept(_) => None,
        Asker::Named(path, _, _)
        | Asker::Unclear(path, _, _)
        | Asker::Imported(path, _)
        | Asker::Whole(path) => Some(path),
    }
}

/// Writes where something stands, if it is known.
fn write_span(out: &mut Writer, span: Option<Span>) -> Result<(), AllocError> {
    match span {
        Some(span) => {
            out.key("span")?;
            out.begin_array()?;
            out.u64(span.start as u64)?;
            out.u64(span.end as u64)?;
            out.end_array()
        }
        None => Ok(()),
    }
}

/// Writes the module and the name of an asker.
fn write_place(out: &mut Writer, told: &Explanation, asked: &Use) -> Result<(), AllocError> {
    if let Some(path) = module_of(asked.asker) {
        write_text(out, "module", told.path(path))?;
    }
    if let Some(name) = asked.name {
        write_text(out, "name", told.name(name))?;
    }
    write_span(out, asked.span)
}

/// Writes an asker with its chain.
fn write_use(
    out: &mut Writer,
    told: &Explanation,
    asked: &Use,
    chain: &Chain,
) -> Result<(), AllocError> {
    out.begin_object()?;
    write_chain(out, told, chain)?;
    write_numbers(out, told, asked)?;
    write_left_out(out, "left_out", chain.left_out)?;
    write_place(out, told, asked)?;
    out.end_object()
}

fn write_uses(
    out: &mut Writer,
    alloc: Global,
    told: &Explanation,
    link: &LinkFault,
) -> Result<(), AllocError> {
    out.key("askers")?;
    out.begin_array()?;
    for asked in &link.uses {
        let chain = chain_at(alloc, told, asked.place)?;
        write_use(out, told, asked, &chain)?;
    }
    out.end_array()
}

/// Writes the members of a fault of a condition, of which this is the value of its line.
fn write_condition_line(
    out: &mut Writer,
    line: &FaultLine,
    value: &Value,
) -> Result<(), AllocError> {
    out.begin_object()?;
    write_member(out, value, "args")?;
    write_member(out, value, "fault")?;
    write_member(out, value, "module")?;
    write_member(out, value, "span")?;
    write_text(out, "text", line.text.as_str())?;
    out.end_object()
}

/// Writes a fault of a condition.
fn write_condition(out: &mut Writer, alloc: Global, line: &FaultLine) -> Result<(), AllocError> {
    let value = line.value(alloc)?;
    let written = write_condition_line(out, line, &value);
    drop(value);
    written
}

fn write_conditions(
    out: &mut Writer,
    alloc: Global,
    lines: &[FaultLine],
) -> Result<(), AllocError> {
    if lines.is_empty() {
        return Ok(());
    }
    out.key("conditions")?;
    out.begin_array()?;
    for line in lines {
        write_condition(out, alloc, line)?;
    }
    out.end_array()
}

fn write_cures(out: &mut Writer, cures: &[FaultCure]) -> Result<(), AllocError> {
    out.key("cures")?;
    out.begin_array()?;
    for cure in cures {
        out.string(cure_word(*cure))?;
    }
    out.end_array()
}

/// Writes what is near: a name of a module, a path, or a module of whose name an item was asked.
fn write_near(
    out: &mut Writer,
    told: &Explanation,
    fault: &Fault,
    link: &LinkFault,
) -> Result<(), AllocError> {
    out.key("near")?;
    out.begin_array()?;
    if let Some(symbol) = link.near {
        write_symbol(out, told, symbol.path, symbol.name)?;
    }
    if let Some(path) = &fault.near_path {
        write_alone(out, "module", path.as_str())?;
    }
    if let Some(path) = &fault.named_module {
        write_alone(out, "module", path.as_str())?;
    }
    out.end_array()
}

/// Writes names of modules.
fn write_all(
    out: &mut Writer,
    told: &Explanation,
    symbols: &[Symbol<PathId, NameId>],
) -> Result<(), AllocError> {
    for symbol in symbols {
        write_symbol(out, told, symbol.path, symbol.name)?;
    }
    Ok(())
}

/// Writes a member that is a list of names of modules, without its middle where it is long.
fn write_symbols(
    out: &mut Writer,
    told: &Explanation,
    key: &str,
    symbols: &Cut<Symbol<PathId, NameId>>,
) -> Result<(), AllocError> {
    out.key(key)?;
    out.begin_array()?;
    write_all(out, told, symbols.items())?;
    out.end_array()
}

fn write_target(out: &mut Writer, told: &Explanation, target: &Target) -> Result<(), AllocError> {
    out.begin_object()?;
    if let Some(condition) = &target.condition {
        write_text(out, "condition", condition.as_str())?;
    }
    write_text(out, "module", told.path(target.symbol.path))?;
    write_text(out, "name", told.name(target.symbol.name))?;
    write_span(out, target.span)?;
    out.end_object()
}

fn write_targets(
    out: &mut Writer,
    told: &Explanation,
    targets: &[Target],
) -> Result<(), AllocError> {
    if targets.is_empty() {
        return Ok(());
    }
    out.key("targets")?;
    out.begin_array()?;
    for target in targets {
        write_target(out, told, target)?;
    }
    out.end_array()
}

/// Writes the path where no module is.
fn write_absent(out: &mut Writer, told: &Explanation, link: &LinkFault) -> Result<(), AllocError> {
    match link.wrong.flaw {
        Flaw::NoModule => write_text(out, "absent", told.path(link.wrong.at)),
        _ => Ok(()),
    }
}

/// Writes the module that a fault stands in.
fn write_home(
    out: &mut Writer,
    told: &Explanation,
    value: &Value,
    link: &LinkFault,
) -> Result<(), AllocError> {
    match link.wrong.flaw {
        Flaw::NoModule => write_member(out, value, "module"),
        _ => write_text(out, "module", told.path(link.wrong.at)),
    }
}

/// Writes the part of a way that comes back, where it does.
fn write_ring(out: &mut Writer, told: &Explanation, link: &LinkFault) -> Result<(), AllocError> {
    let ring = &link.way.ring;
    if ring.is_empty() {
        return Ok(());
    }
    write_symbols(out, told, "ring", ring)?;
    write_left_out(out, "ring_left_out", ring.left_out)
}

/// Writes the members of a fault of a link, in the order of their keys. `value` is that of its line.
fn write_link(
    out: &mut Writer,
    alloc: Global,
    told: &Explanation,
    fault: &Fault,
    link: &LinkFault,
    value: &Value,
) -> Result<(), AllocError> {
    write_absent(out, told, link)?;
    write_member(out, value, "args")?;
    write_uses(out, alloc, told, link)?;
    write_conditions(out, alloc, &fault.conditions)?;
    write_cures(out, link.cures)?;
    write_member(out, value, "fault")?;
    write_home(out, told, value, link)?;
    write_near(out, told, fault, link)?;
    write_ring(out, told, link)?;
    write_member(out, value, "span")?;
    write_targets(out, told, &link.targets)?;
    write_text(out, "text", fault.line.text.as_str())?;
    write_symbols(out, told, "way", &link.way.asked)?;
    write_left_out(out, "way_left_out", link.way.asked.left_out)
}

/// Writes the members of a fault of which its line is told alone. `value` is that of the line.
fn write_line(out: &mut Writer, line: &FaultLine, value: &Value) -> Result<(), AllocError> {
    write_member(out, value, "args")?;
    if let Some(name) = &line.declaration {
        write_text(out, "declaration", name.as_str())?;
    }
    write_member(out, value, "fault")?;
    write_member(out, value, "module")?;
    write_member(out, value, "span")?;
    write_text(out, "text", line.text.as_str())
}

/// Writes the members of a fault. `value` is that of its line.
fn write_members(
    out: &mut Writer,
    alloc: Global,
    told: &Explanation,
    fault: &Fault,
    value: &Value,
) -> Result<(), AllocError> {
    match &fault.link {
        Some(link) => write_link(out, alloc, told, fault, link, value),
        None => write_line(out, &fault.line, value),
    }
}

fn write_fault(
    out: &mut Writer,
    alloc: Global,
    told: &Explanation,
    fault: &Fault,
) -> Result<(), AllocError> {
    out.begin_object()?;
    let value = fault.line.value(alloc)?;
    let written = write_members(out, alloc, told, fault, &value);
    drop(value);
    written?;
    out.end_object()
}

/// Writes the faults.
pub fn write_faults(out: &mut Writer, alloc: Global, told: &Explanation) -> Result<(), AllocError> {
    out.key("faults")?;
    out.begin_array()?;
    for fault in &told.faults {
        write_fault(out, alloc, told, fault)?;
    }
    out.end_array()
}
