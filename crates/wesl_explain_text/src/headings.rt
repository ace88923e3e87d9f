//! What is wrong in a link, in a line.

use crate::chains::push_symbol;
use crate::places::{ModuleFile, Places, push_place, push_span};
use crate::text::push_quoted;
use serde_json::Value;
use std::alloc::{AllocError, Global};
use wesl_explain_world::{
    Asker, Explanation, Fault, FaultLine, Flaw, LinkFault, NameId, PathId, Symbol, Target, Way,
};

/// The text that a fault's line has at a place of its list.
fn argument(line: &Value, place: usize) -> &str {
    match line.get("args") {
        Some(arguments) => match arguments.get(place) {
            Some(text) => text.as_str().unwrap_or(""),
            None => "",
        },
        None => "",
    }
}

/// The name of a fault.
fn fault_name(line: &Value) -> &str {
    match line.get("fault") {
        Some(text) => text.as_str().unwrap_or(""),
        None => "",
    }
}

/// Whether a kept name asks first.
pub fn is_kept(link: &LinkFault) -> bool {
    match link.uses.first() {
        Some(asked) => match asked.asker {
            Asker::Kept(_) => true,
            _ => false,
        },
        None => false,
    }
}

/// Writes what is near.
fn push_near(
    out: &mut String,
    told: &Explanation,
    fault: &Fault,
    link: &LinkFault,
) -> Result<(), AllocError> {
    if let Some(symbol) = link.near {
        push_near_name(out, told, link.wrong.at, symbol)?;
    }
    if let Some(path) = &fault.near_path {
        out.push_str("; near: ")?;
        out.push_str(path.as_str())?;
    }
    if let Some(path) = &fault.named_module {
        out.push_str("; ")?;
        out.push_str(path.as_str())?;
        out.push_str(" is a module: name an item of it")?;
    }
    Ok(())
}

/// Writes a name of the module that is near, or the module that declares the name itself.
fn push_near_name(
    out: &mut String,
    told: &Explanation,
    at: PathId,
    near: Symbol<PathId, NameId>,
) -> Result<(), AllocError> {
    if near.path == at {
        out.push_str("; near: ")?;
        return push_quoted(out, told.name(near.name));
    }
    out.push_str("; declared in ")?;
    out.push_str(told.path(near.path))?;
    Ok(())
}

/// Writes paths, each before an arrow.
fn push_paths(
    out: &mut String,
    told: &Explanation,
    symbols: &[Symbol<PathId, NameId>],
) -> Result<(), AllocError> {
    for symbol in symbols {
        out.push_str(told.path(symbol.path))?;
        out.push_str(" -> ")?;
    }
    Ok(())
}

/// Writes the paths of a ring, each before an arrow, and the first once more.
fn push_ring(out: &mut String, told: &Explanation, way: &Way) -> Result<(), AllocError> {
    let beginning = way.ring.beginning();
    push_paths(out, told, beginning)?;
    if way.ring.left_out > 0 {
        out.push_str(".. -> ")?;
        push_paths(out, told, way.ring.ending())?;
    }
    match beginning.first() {
        Some(first) => out.push_str(told.path(first.path)),
        None => Ok(()),
    }
}

/// Writes that a name is missing.
fn push_missing(
    out: &mut String,
    told: &Explanation,
    link: &LinkFault,
    name: NameId,
) -> Result<(), AllocError> {
    if !link.way.ring.is_empty() {
        push_quoted(out, told.name(name))?;
        out.push_str(" is imported in a ring and declared nowhere: ")?;
        return push_ring(out, told, &link.way);
    }
    if is_kept(link) && link.way.asked.len() <= 1 {
        out.push_str("the root ")?;
        out.push_str(told.path(link.wrong.at))?;
        out.push_str(" has no ")?;
        push_quoted(out, told.name(name))?;
        out.push_str(" that is kept")?;
        return Ok(());
    }
    out.push_str(told.path(link.wrong.at))?;
    out.push_str(" declares no ")?;
    push_quoted(out, told.name(name))
}

/// Writes what an import that is not published aims at.
fn push_hidden(
    out: &mut String,
    alloc: Global,
    told: &Explanation,
    file: Option<ModuleFile<'_>>,
    link: &LinkFault,
    name: NameId,
) -> Result<(), AllocError> {
    push_quoted(out, told.name(name))?;
    out.push_str(" of ")?;
    out.push_str(told.path(link.wrong.at))?;
    out.push_str(" is an import that is not published")?;
    if let Some(target) = link.targets.first() {
        out.push_str(" (of ")?;
        push_symbol(out, told, target.symbol.path, target.symbol.name)?;
        out.push_str(")")?;
        push_place(out, alloc, file, target.span)?;
    }
    Ok(())
}

/// Writes why a module is refused: for its conditions, which are told below, or what its line tells.
fn push_refused(
    out: &mut String,
    alloc: Global,
    file: Option<ModuleFile<'_>>,
    fault: &Fault,
    path: &str,
) -> Result<(), AllocError> {
    out.push_str(path)?;
    out.push_str(" is refused")?;
    if fault.conditions.is_empty() {
        out.push_str(": ")?;
        out.push_str(fault.line.text.as_str())?;
        return push_span(out, alloc, &fault.line, file);
    }
    let count = fault.conditions.len().to_string(alloc)?;
    out.push_str(", faults of its conditions: ")?;
    out.push_str(count.as_str())
}

/// Writes why no module is at a path. `line` is the value of the fault's line.
fn push_absence(
    out: &mut String,
    alloc: Global,
    file: Option<ModuleFile<'_>>,
    fault: &Fault,
    line: &Value,
    path: &str,
) -> Result<(), AllocError> {
    match fault_name(line) {
        "ModuleNotFound" => {
            out.push_str("no module ")?;
            out.push_str(path)?;
            out.push_str(" (")?;
            out.push_str(argument(line, 1))?;
            out.push_str(")")?;
        }
        "ModuleLimit" => {
            out.push_str("more than ")?;
            out.push_str(argument(line, 0))?;
            out.push_str(" modules: ")?;
            out.push_str(path)?;
            out.push_str(" is one too many")?;
        }
        "TooManyFlags" => {
            out.push_str(path)?;
            out.push_str(" has a name with several targets, and more than 16 flags")?;
        }
        _ => push_refused(out, alloc, file, fault, path)?,
    }
    Ok(())
}

/// Writes why no module is at a path.
fn push_absent(
    out: &mut String,
    alloc: Global,
    told: &Explanation,
    file: Option<ModuleFile<'_>>,
    fault: &Fault,
    at: PathId,
) -> Result<(), AllocError> {
    let line = fault.line.value(alloc)?;
    let pushed = push_absence(out, alloc, file, fault, &line, told.path(at));
    drop(line);
    pushed
}

/// Writes what is wrong.
fn push_wrong(
    out: &mut String,
    alloc: Global,
    told: &Explanation,
    file: Option<ModuleFile<'_>>,
    fault: &Fault,
    link: &LinkFault,
) -> Result<(), AllocError> {
    let at = told.path(link.wrong.at);
    match link.wrong.flaw {
        Flaw::NoModule => push_absent(out, alloc, told, file, fault, link.wrong.at),
        Flaw::Lacking(name) => push_missing(out, told, link, name),
        Flaw::Hidden(name) => push_hidden(out, alloc, told, file, link, name),
        Flaw::Clash(name) => {
            push_quoted(out, told.name(name))?;
            out.push_str(" has two binders in ")?;
            out.push_str(at)?;
            out.push_str(" that can be there at once")?;
            Ok(())
        }
        Flaw::Unsure(name) => {
            push_quoted(out, told.name(name))?;
            out.push_str(" may stand for two things, in ")?;
            out.push_str(at)?;
            Ok(())
        }
    }
}

/// Writes what a name may stand for, with the condition and the place of its binder.
fn push_target(
    out: &mut String,
    alloc: Global,
    told: &Explanation,
    file: Option<ModuleFile<'_>>,
    target: &Target,
) -> Result<(), AllocError> {
    out.push_str("     ")?;
    push_symbol(out, told, target.symbol.path, target.symbol.name)?;
    if let Some(condition) = &target.condition {
        out.push_str("   ")?;
        out.push_str(condition.as_str())?;
    }
    push_place(out, alloc, file, target.span)?;
    out.push_str("\n")?;
    Ok(())
}

/// Writes all that a name may stand for, where it may stand for several things.
fn push_targets(
    out: &mut String,
    alloc: Global,
    told: &Explanation,
    file: Option<ModuleFile<'_>>,
    targets: &[Target],
) -> Result<(), AllocError> {
    if targets.len() < 2 {
        return Ok(());
    }
    for target in targets {
        push_target(out, alloc, told, file, target)?;
    }
    Ok(())
}

/// Writes the faults of conditions.
fn push_conditions(
    out: &mut String,
    alloc: Global,
    file: Option<ModuleFile<'_>>,
    lines: &[FaultLine],
) -> Result<(), AllocError> {
    for line in lines {
        out.push_str("     ")?;
        out.push_str(line.text.as_str())?;
        push_span(out, alloc, line, file)?;
        out.push_str("\n")?;
    }
    Ok(())
}

/// Writes what is wrong, what is near, what the name may stand for, and what is wrong in conditions.
pub fn push_head(
    out: &mut String,
    alloc: Global,
    told: &Explanation,
    places: &Places<'_>,
    fault: &Fault,
    link: &LinkFault,
) -> Result<(), AllocError> {
    let file = places.file(link.wrong.at);
    push_wrong(out, alloc, told, file, fault, link)?;
    push_near(out, told, fault, link)?;
    out.push_str("\n")?;
    push_targets(out, alloc, told, file, &link.targets)?;
    push_conditions(out, alloc, file, &fault.conditions)
}
