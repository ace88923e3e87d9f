//! The source map of a linked text.
use crate::pairs::{Pair, Pairs};
use crate::reading::ReadText;
use serde_json::{Value, json};
use std::alloc::{AllocError, Global};
use wesl_text_mappings::{Mapping, mappings_text};
use wesl_tree::TranslationUnit;

/// A text and what it says.
#[derive(Clone, Copy)]
pub struct MapText<'s> {
    /// Its file, as the map names it; empty where it has none.
    pub file: &'s str,
    /// The text.
    pub text: &'s str,
    /// The unit that it says; of a module, as the features leave it.
    pub unit: &'s TranslationUnit,
}

/// Where a declaration of a linked text comes from.
#[derive(Clone, Copy)]
pub struct MapOrigin {
    /// The number of its source.
    pub source: usize,
    /// Its number among the declarations of the unit there.
    pub declaration: usize,
}

/// The source map of a linked text, a text of JSON. It leads from each identifier, expression, statement, attribute, member and
/// declaration of the text whose origin is told to its place in the source, and of an identifier that has another name there it tells
/// that name. `origins` tells of each declaration of the linked text where it comes from. Refused for want of memory alone.
pub fn source_map_of(
    alloc: Global,
    linked: MapText<'_>,
    sources: &[MapText<'_>],
    origins: &[Option<MapOrigin>],
) -> Result<String, AllocError> {
    let printed = ReadText::of(alloc, linked.text, linked.unit)?;
    let texts = read_sources(alloc, sources)?;
    let mut pairs = pairs_of(alloc, &printed, &texts, origins)?;
    pairs.put_in_order()?;
    let mappings = mappings_of(alloc, &pairs.all, &printed, &texts)?;
    let Pairs { all: _, names } = pairs;
    let names = names.into_texts(alloc)?;
    written(alloc, linked.file, sources, names, &mappings)
}

// The texts of sources, and what they say.
fn read_sources<'s>(
    alloc: Global,
    sources: &[MapText<'s>],
) -> Result<Vec<ReadText<'s>>, AllocError> {
    let mut texts = Vec::with_capacity(alloc, sources.len())?;
    for source in sources {
        texts.push(ReadText::of(alloc, source.text, source.unit)?)?;
    }
    Ok(texts)
}

// The pairs of all declarations.
fn pairs_of(
    alloc: Global,
    printed: &ReadText<'_>,
    texts: &[ReadText<'_>],
    origins: &[Option<MapOrigin>],
) -> Result<Pairs, AllocError> {
    let mut pairs = Pairs::new(alloc);
    for (number, origin) in origins.iter().enumerate() {
        if let Some(origin) = origin {
            if let Some(text) = texts.get(origin.source) {
                pairs.add_declaration(
                    alloc,
                    printed,
                    number,
                    origin.source,
                    text,
                    origin.declaration,
                )?;
            }
        }
    }
    Ok(pairs)
}

// The mappings of pairs.
fn mappings_of(
    alloc: Global,
    pairs: &[Pair],
    printed: &ReadText<'_>,
    texts: &[ReadText<'_>],
) -> Result<Vec<Mapping>, AllocError> {
    let mut mappings = Vec::with_capacity(alloc, pairs.len())?;
    for pair in pairs {
        if let Some(mapping) = mapping_of(pair, printed, texts) {
            mappings.push(mapping)?;
        }
    }
    Ok(mappings)
}

// The mapping of a pair.
fn mapping_of(pair: &Pair, printed: &ReadText<'_>, texts: &[ReadText<'_>]) -> Option<Mapping> {
    let text = texts.get(pair.source)?;
    Some(Mapping {
        generated: *printed.positions.get(pair.generated as usize)?,
        source: pair.source,
        original: *text.positions.get(pair.original as usize)?,
        name: pair.name,
    })
}

// The text of a map.
fn written(
    alloc: Global,
    file: &str,
    sources: &[MapText<'_>],
    names: Vec<String>,
    mappings: &[Mapping],
) -> Result<String, AllocError> {
    let files = files_of(alloc, sources)?;
    let names = values_of(alloc, names)?;
    let mappings = mappings_text(alloc, mappings)?;
    let map = if file.is_empty() {
        json!(in alloc; {"version": 3u64, "sources": files, "names": names, "mappings": mappings})?
    } else {
        json!(in alloc; {"version": 3u64, "file": file, "sources": files, "names": names, "mappings": mappings})?
    };
    map.to_string(alloc)
}

// The names of the files of sources.
fn files_of(alloc: Global, sources: &[MapText<'_>]) -> Result<Value, AllocError> {
    let mut files = Vec::with_capacity(alloc, sources.len())?;
    for source in sources {
        files.push(Value::try_from_str(alloc, source.file)?)?;
    }
    Ok(Value::Array(files))
}

// Texts as a value.
fn values_of(alloc: Global, texts: Vec<String>) -> Result<Value, AllocError> {
    let mut values = Vec::with_capacity(alloc, texts.len())?;
    for text in texts {
        values.push(Value::String(text))?;
    }
    Ok(Value::Array(values))
}
