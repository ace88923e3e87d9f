//! Who asks for a fault, as text.

use crate::chains::{chain_at, push_chain, push_symbol};
use crate::places::{Places, push_place};
use std::alloc::{AllocError, Global};
use wesl_explain_world::{Asker, Explanation, NameId, PathId, Use};

// How many of those that ask are told.
const MOST: usize = 3;

/// Uses that are told together: the first of them, and how many there are.
#[derive(Clone, Copy)]
struct Group {
    first: Use,
    count: usize,
}

/// Whether two uses are told together: both are in the same declaration.
fn are_together(first: Use, second: Use) -> bool {
    first.place == second.place && is_reference(first.asker) && is_reference(second.asker)
}

fn is_reference(asker: Asker<PathId, NameId>) -> bool {
    match asker {
        Asker::Named(_, _, _) | Asker::Unclear(_, _, _) => true,
        Asker::Kept(_) | Asker::Imported(_, _) | Asker::Whole(_) => false,
    }
}

/// Adds a use to the last group, or as a group of its own.
fn add(groups: &mut Vec<Group>, asked: Use) -> Result<(), AllocError> {
    if let Some(last) = groups.last_mut() {
        if are_together(last.first, asked) {
            last.count = last.count.saturating_add(1);
            return Ok(());
        }
    }
    groups.push(Group {
        first: asked,
        count: 1,
    })?;
    Ok(())
}

/// The uses, those of one declaration together.
fn groups_of(alloc: Global, uses: &[Use]) -> Result<Vec<Group>, AllocError> {
    let mut groups = Vec::new(alloc);
    for asked in uses {
        add(&mut groups, *asked)?;
    }
    Ok(groups)
}

/// The path of the root.
fn root_of(told: &Explanation) -> Option<PathId> {
    match &told.until {
        Some(until) => Some(until.root),
        None => None,
    }
}

/// Writes a declaration that asks: one of the root by its name alone.
fn push_declaration(
    out: &mut String,
    told: &Explanation,
    path: PathId,
    name: Option<NameId>,
) -> Result<(), AllocError> {
    match name {
        Some(name) if root_of(told) == Some(path) => {
            out.push_str(told.name(name))?;
            Ok(())
        }
        Some(name) => push_symbol(out, told, path, name),
        None => {
            out.push_str("a const_assert of ")?;
            out.push_str(told.path(path))?;
            Ok(())
        }
    }
}

/// Writes who asks.
fn push_asker(out: &mut String, told: &Explanation, asked: Use) -> Result<(), AllocError> {
    match asked.asker {
        Asker::Kept(_) => {
            out.push_str("kept")?;
            Ok(())
        }
        Asker::Named(path, _, _) | Asker::Unclear(path, _, _) => {
            out.push_str("used in ")?;
            push_declaration(out, told, path, asked.name)
        }
        Asker::Imported(path, _) => {
            out.push_str("imported by ")?;
            out.push_str(told.path(path))?;
            Ok(())
        }
        Asker::Whole(path) => {
            out.push_str("in ")?;
            out.push_str(told.path(path))?;
            Ok(())
        }
    }
}

/// The module in which it is asked.
fn module_of(asked: Use) -> Option<PathId> {
    match asked.asker {
        Asker::Kept(_) => None,
        Asker::Named(path, _, _) | Asker::Unclear(path, _, _) => Some(path),
        Asker::Imported(path, _) | Asker::Whole(path) => Some(path),
    }
}

/// Writes where it is asked: in which file and line, or where no file is known which bytes of the source.
fn push_asker_place(
    out: &mut String,
    alloc: Global,
    places: &Places<'_>,
    asked: Use,
) -> Result<(), AllocError> {
    let file = match module_of(asked) {
        Some(path) => places.file(path),
        None => None,
    };
    push_place(out, alloc, file, asked.span)
}

/// Writes how many uses there are, where there are several.
fn push_count(out: &mut String, alloc: Global, count: usize) -> Result<(), AllocError> {
    if count > 1 {
        let count = count.to_string(alloc)?;
        out.push_str(", ")?;
        out.push_str(count.as_str())?;
        out.push_str(" uses")?;
    }
    Ok(())
}

/// Writes who asks, with the chain to it.
fn push_group(
    out: &mut String,
    alloc: Global,
    told: &Explanation,
    places: &Places<'_>,
    group: Group,
) -> Result<(), AllocError> {
    let chain = chain_at(alloc, told, group.first.place)?;
    out.push_str("     ")?;
    push_asker(out, told, group.first)?;
    push_asker_place(out, alloc, places, group.first)?;
    push_count(out, alloc, group.count)?;
    out.push_str("   ")?;
    if chain.len() <= 1 && !is_kept(group.first) {
        out.push_str("it is the root\n")?;
        return Ok(());
    }
    push_chain(out, told, &chain)?;
    out.push_str("\n")?;
    Ok(())
}

fn is_kept(asked: Use) -> bool {
    match asked.asker {
        Asker::Kept(_) => true,
        _ => false,
    }
}

/// Writes how many more there are.
fn push_more(out: &mut String, alloc: Global, count: usize) -> Result<(), AllocError> {
    match count.checked_sub(MOST) {
        Some(more) if more > 0 => {
            let more = more.to_string(alloc)?;
            out.push_str("     and ")?;
            out.push_str(more.as_str())?;
            out.push_str(" more\n")?;
            Ok(())
        }
        _ => Ok(()),
    }
}

/// Writes who asks, each with the chain to it: the first three, and how many more.
pub fn push_uses(
    out: &mut String,
    alloc: Global,
    told: &Explanation,
    places: &Places<'_>,
    uses: &[Use],
) -> Result<(), AllocError> {
    let groups = groups_of(alloc, uses)?;
    for group in groups.iter().take(MOST) {
        push_group(out, alloc, told, places, *group)?;
    }
    push_more(out, alloc, groups.len())
}
