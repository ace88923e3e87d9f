//! An explanation as one JSON object (docs/schema/explanation.json).

use crate::faults_json::write_faults;
use json::{Token, Writer};
use std::alloc::{AllocError, Global};
use wesl_explain_text::{chain_of, loaded_in};
use wesl_explain_world::{
    Chain, Cure, Explanation, FreeName, HeldDeclaration, Meaning, NameClash, NameId, Node, PathId,
    Read, UnusedImport,
};

/// Writes a member that is a text.
pub fn write_text(out: &mut Writer, key: &str, text: &str) -> Result<(), AllocError> {
    out.key(key)?;
    out.string(text)
}

/// Writes a declaration of a module.
pub fn write_symbol(
    out: &mut Writer,
    told: &Explanation,
    path: PathId,
    name: NameId,
) -> Result<(), AllocError> {
    out.begin_object()?;
    write_text(out, "module", told.path(path))?;
    write_text(out, "name", told.name(name))?;
    out.end_object()
}

/// Writes an object of one member.
pub fn write_alone(out: &mut Writer, key: &str, text: &str) -> Result<(), AllocError> {
    out.begin_object()?;
    write_text(out, key, text)?;
    out.end_object()
}

/// Writes a step of a chain.
fn write_node(
    out: &mut Writer,
    told: &Explanation,
    node: Node<PathId, NameId>,
) -> Result<(), AllocError> {
    match node {
        Node::KeptName(name) => write_alone(out, "kept", told.name(name)),
        Node::Module(path) => write_alone(out, "module", told.path(path)),
        Node::Item(symbol) => write_symbol(out, told, symbol.path, symbol.name),
    }
}

/// Writes steps of a chain.
fn write_nodes(
    out: &mut Writer,
    told: &Explanation,
    nodes: &[Node<PathId, NameId>],
) -> Result<(), AllocError> {
    for node in nodes {
        write_node(out, told, *node)?;
    }
    Ok(())
}

/// Writes a chain, without its middle where it is long.
pub fn write_chain(out: &mut Writer, told: &Explanation, chain: &Chain) -> Result<(), AllocError> {
    out.key("chain")?;
    out.begin_array()?;
    write_nodes(out, told, chain.items())?;
    out.end_array()
}

/// Writes how many steps of a list are left out, where some are.
pub fn write_left_out(out: &mut Writer, key: &str, left_out: usize) -> Result<(), AllocError> {
    if left_out == 0 {
        return Ok(());
    }
    out.key(key)?;
    out.u64(left_out as u64)
}

/// Writes a module that was loaded.
fn write_module(
    out: &mut Writer,
    told: &Explanation,
    path: PathId,
    chain: &Chain,
) -> Result<(), AllocError> {
    out.begin_object()?;
    write_chain(out, told, chain)?;
    write_left_out(out, "left_out", chain.left_out)?;
    write_text(out, "path", told.path(path))?;
    out.end_object()
}

fn write_modules(out: &mut Writer, alloc: Global, told: &Explanation) -> Result<(), AllocError> {
    out.key("modules")?;
    out.begin_array()?;
    for path in loaded_in(told) {
        let chain = chain_of(alloc, told, *path, None)?;
        write_module(out, told, *path, &chain)?;
    }
    out.end_array()
}

/// Writes a held declaration: a const_assert has no name.
fn write_declaration(
    out: &mut Writer,
    alloc: Global,
    told: &Explanation,
    declaration: &HeldDeclaration,
) -> Result<(), AllocError> {
    let chain = chain_of(alloc, told, declaration.path, declaration.name)?;
    out.begin_object()?;
    write_chain(out, told, &chain)?;
    write_left_out(out, "left_out", chain.left_out)?;
    write_text(out, "module", told.path(declaration.path))?;
    if let Some(name) = declaration.name {
        write_text(out, "name", told.name(name))?;
        write_text(out, "printed", declaration.printed.as_str())?;
    }
    out.end_object()
}

fn write_held(out: &mut Writer, alloc: Global, told: &Explanation) -> Result<(), AllocError> {
    out.key("held")?;
    out.begin_array()?;
    for declaration in &told.held {
        write_declaration(out, alloc, told, declaration)?;
    }
    out.end_array()
}

/// Writes a held declaration by its module and name; a const_assert has no name.
fn write_place(out: &mut Writer, told: &Explanation, place: usize) -> Result<(), AllocError> {
    match told.held.get(place) {
        Some(declaration) => match declaration.name {
            Some(name) => write_symbol(out, told, declaration.path, name),
            None => write_alone(out, "module", told.path(declaration.path)),
        },
        None => out.token(Token::Null),
    }
}

/// Writes what an identifier stands for: a held declaration, or `local` or `outer`.
fn write_meaning(out: &mut Writer, told: &Explanation, meaning: Meaning) -> Result<(), AllocError> {
    match meaning {
        Meaning::Held(place) => write_place(out, told, place),
        Meaning::Local => out.string("local"),
        Meaning::Outer => out.string("outer"),
        Meaning::Word => out.string("word"),
    }
}

/// Writes what is read in place of it.
fn write_read(out: &mut Writer, told: &Explanation, read: Read) -> Result<(), AllocError> {
    match read {
        Read::As(meaning) | Read::Twice(meaning) => write_meaning(out, told, meaning),
        Read::Nothing => out.token(Token::Null),
    }
}

fn cure_word(cure: Cure) -> &'static str {
    match cure {
        Cure::MangleRoot => "mangle_root",
        Cure::AnotherMangler => "mangler",
        Cure::ManglerAndRoot => "mangler_and_root",
        Cure::AnotherName | Cure::Rename => "name",
    }
}

fn write_cures(out: &mut Writer, cures: &[Cure]) -> Result<(), AllocError> {
    out.key("cures")?;
    out.begin_array()?;
    for cure in cures {
        out.string(cure_word(*cure))?;
    }
    out.end_array()
}

fn write_clash(out: &mut Writer, told: &Explanation, clash: &NameClash) -> Result<(), AllocError> {
    out.begin_object()?;
    write_cures(out, &clash.cures)?;
    out.key("meant")?;
    write_meaning(out, told, clash.meant)?;
    write_text(out, "name", clash.name.as_str())?;
    out.key("read")?;
    write_read(out, told, clash.read)?;
    out.key("within")?;
    match clash.within {
        Some(place) => write_place(out, told, place)?,
        None => out.token(Token::Null)?,
    }
    out.end_object()
}

fn write_clashes(
    out: &mut Writer,
    told: &Explanation,
    key: &str,
    clashes: &[NameClash],
) -> Result<(), AllocError> {
    out.key(key)?;
    out.begin_array()?;
    for clash in clashes {
        write_clash(out, told, clash)?;
    }
    out.end_array()
}

fn write_free_name(
    out: &mut Writer,
    told: &Explanation,
    free: &FreeName,
) -> Result<(), AllocError> {
    out.begin_object()?;
    write_text(out, "name", free.name.as_str())?;
    out.key("near")?;
    match free.near {
        Some((path, name)) => write_symbol(out, told, path, name)?,
        None => out.token(Token::Null)?,
    }
    out.end_object()
}

fn write_free(out: &mut Writer, told: &Explanation) -> Result<(), AllocError> {
    out.key("free")?;
    out.begin_array()?;
    for name in &told.free {
        write_free_name(out, told, name)?;
    }
    out.end_array()
}

fn write_import(
    out: &mut Writer,
    told: &Explanation,
    import: &UnusedImport,
) -> Result<(), AllocError> {
    out.begin_object()?;
    write_text(out, "bound", told.name(import.bound))?;
    out.key("by_unheld")?;
    out.token(Token::Bool(import.is_used_unheld))?;
    write_text(out, "module", told.path(import.path))?;
    out.key("target")?;
    write_symbol(out, told, import.from, import.item)?;
    out.end_object()
}

fn write_unused(out: &mut Writer, told: &Explanation) -> Result<(), AllocError> {
    out.key("unused_imports")?;
    out.begin_array()?;
    for import in &told.unused {
        write_import(out, told, import)?;
    }
    out.end_array()
}

/// Writes the members, in the order of their keys.
fn write_all(out: &mut Writer, alloc: Global, told: &Explanation) -> Result<(), AllocError> {
    out.begin_object()?;
    write_clashes(out, told, "clashes", &told.clashes.names)?;
    write_faults(out, alloc, told)?;
    write_free(out, told)?;
    write_held(out, alloc, told)?;
    write_modules(out, alloc, told)?;
    write_unused(out, told)?;
    write_clashes(out, told, "word_clashes", &told.clashes.words)?;
    out.end_object()
}

/// The explanation as compact JSON on a line, its keys in the order of their bytes.
pub fn json_of(alloc: Global, told: &Explanation) -> Result<String, AllocError> {
    let mut out = Writer::new(Vec::new(alloc));
    write_all(&mut out, alloc, told)?;
    let mut bytes = out.into_inner();
    bytes.push(b'\n')?;
    String::from_utf8(bytes).ok().ok_or(AllocError)
}
