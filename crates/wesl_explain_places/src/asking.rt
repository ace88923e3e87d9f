//! Where something is asked for.

use crate::modules::ReadModules;
use wesl_link_flaws::asker::Asker;
use wesl_link_symbols::ids::{NameId, PathId};
use wesl_tree::Span;

/// The number of an asker's identifier in its declaration.
pub fn identifier_of(read: &ReadModules, asker: Asker<PathId, NameId>) -> Option<usize> {
    match asker {
        Asker::Named(path, index, number) => read.asking_identifier(path, index, number),
        Asker::Unclear(path, index, number) => read.unclear_identifier(path, index, number),
        _ => None,
    }
}

/// Where an identifier stands in a declaration: the innermost node round it that is known, or else the declaration.
fn reference_span(
    read: &ReadModules,
    path: PathId,
    declaration: usize,
    identifier: Option<usize>,
) -> Option<Span> {
    if let Some(number) = identifier {
        let span = read.identifier_span(path, declaration, number);
        if span.is_some() {
            return span;
        }
    }
    read.declaration_span(path, declaration)
}

/// Where it is asked: at the identifier, which has this number in its declaration, or at the import.
pub fn span_of(
    read: &ReadModules,
    asker: Asker<PathId, NameId>,
    identifier: Option<usize>,
) -> Option<Span> {
    match asker {
        Asker::Named(path, index, _) | Asker::Unclear(path, index, _) => {
            reference_span(read, path, index, identifier)
        }
        Asker::Imported(path, number) => read.import_span(path, number),
        Asker::Kept(_) | Asker::Whole(_) => None,
    }
}
