//! Faults as text.

use crate::apart::{groups_of, uses_of};
use crate::cures::cure_text;
use crate::headings::{is_kept, push_head};
use crate::places::{Places, file_of, push_span};
use crate::text::push_heading;
use crate::uses::push_uses;
use std::alloc::{AllocError, Global};
use wesl_explain_world::{Explanation, Fault, FaultLine, LinkFault};

/// Writes what helps.
fn push_cures(out: &mut String, link: &LinkFault) -> Result<(), AllocError> {
    for cure in link.cures {
        out.push_str("     cure: ")?;
        out.push_str(cure_text(*cure, link, is_kept(link)))?;
        out.push_str("\n")?;
    }
    Ok(())
}

/// Writes a fault of which its line is told alone.
fn push_line(
    out: &mut String,
    alloc: Global,
    told: &Explanation,
    places: &Places<'_>,
    line: &FaultLine,
) -> Result<(), AllocError> {
    out.push_str(line.text.as_str())?;
    let file = file_of(alloc, told, places, line)?;
    push_span(out, alloc, line, file)?;
    out.push_str("\n")?;
    Ok(())
}

/// Writes a fault, with who asks for it and for those that are told with it, and what helps.
fn push_fault(
    out: &mut String,
    alloc: Global,
    told: &Explanation,
    places: &Places<'_>,
    fault: &Fault,
    group: &[usize],
) -> Result<(), AllocError> {
    let Some(link) = &fault.link else {
        return push_line(out, alloc, told, places, &fault.line);
    };
    let uses = uses_of(alloc, told, group)?;
    push_head(out, alloc, told, places, fault, link)?;
    push_uses(out, alloc, told, places, &uses)?;
    push_cures(out, link)
}

/// The first of faults that are told as one.
fn first_of<'t>(told: &'t Explanation, group: &[usize]) -> Option<&'t Fault> {
    told.faults.get(*group.first()?)
}

/// Writes faults that are told as one, under a number.
fn push_numbered(
    out: &mut String,
    alloc: Global,
    told: &Explanation,
    places: &Places<'_>,
    number: usize,
    group: &[usize],
) -> Result<(), AllocError> {
    let Some(fault) = first_of(told, group) else {
        return Ok(());
    };
    let number = number.to_string(alloc)?;
    out.push_str(number.as_str())?;
    out.push_str("  ")?;
    push_fault(out, alloc, told, places, fault, group)
}

/// Writes the faults, each with its number.
pub fn push_faults(
    out: &mut String,
    alloc: Global,
    told: &Explanation,
    places: &Places<'_>,
) -> Result<(), AllocError> {
    let groups = groups_of(alloc, told)?;
    push_heading(out, alloc, "Refused, faults", groups.len())?;
    for (place, group) in groups.iter().enumerate() {
        push_numbered(out, alloc, told, places, place.saturating_add(1), group)?;
    }
    Ok(())
}
