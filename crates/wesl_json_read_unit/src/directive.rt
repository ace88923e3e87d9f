//! Reading directives (WGSL, "Directives").
ghost use Rattle.std.specs.Prelude.{codes};
ghost use Rattle.wesl_json_form.specs.View.{borrowed_view};
ghost use Rattle.wesl_tree_syntax.specs.View.{directive_view, directives_tree};
ghost use Rattle.wesl_json_form.specs.Schema.{a_directive, node as node_form};
ghost use Rattle.wesl_json_read.specs.Noted.{NotesForm, NotesMany};
ghost use Rattle.wesl_json_read_unit.specs.Worded.{NotesDirective, NotesDirectiveWord};
ghost use Rattle.wesl_json_read_unit.specs.UnitLists.{directive_tree, some_directives};

use crate::words::{DirectiveWord, directive_word};
use wesl_json_form::BorrowedValue;
use wesl_json_read::{Reader, TextKind};
use wesl_tree_syntax::{GlobalDirective, GlobalDirectiveNode, Spanned};

/// The directives at `directives`, a list.
pub(crate) fn directives(reader: &mut Reader, value: &BorrowedValue<'_>) -> Vec<GlobalDirectiveNode>
    ensures { NotesMany (codes "directives") some_directives (borrowed_view value.now) (directives_tree result) reader.old reader.new }
{
    let Some(items) = reader.list(value, "directives") else {
        return Vec::new(reader.alloc);
    };
    let mut directives = reader.room(items.len());
    for (index, item) in items.iter().enumerate() {
        if !reader.is_stopped() {
            let directive = directive(reader, item);
            reader.put(&mut directives, index, directive);
        }
    }
    reader.within("directives");
    directives
}

fn directive(reader: &mut Reader, value: &BorrowedValue<'_>) -> GlobalDirectiveNode
    ensures { NotesForm (node_form a_directive) (borrowed_view value.now) (directive_tree result) reader.old reader.new }
{
    let word = word_of_directive(reader, value);
    Spanned {
        span: reader.span(value),
        node: worded_directive(reader, value, word),
    }
}

// The word at `k`.
fn word_of_directive(reader: &mut Reader, value: &BorrowedValue<'_>) -> DirectiveWord
    ensures { NotesDirectiveWord (borrowed_view value.now) result reader.old reader.new }
{
    let Some(word) = reader.required(value, "k") else {
        return DirectiveWord::Enable;
    };
    match word.as_str().and_then(directive_word) {
        Some(word) => word,
        None => {
            reader.wrong();
            reader.within("k");
            DirectiveWord::Enable
        }
    }
}

fn worded_directive(
    reader: &mut Reader,
    value: &BorrowedValue<'_>,
    word: DirectiveWord,
) -> GlobalDirective
    ensures { NotesDirective word (borrowed_view value.now) (directive_view result) reader.old reader.new }
{
    match word {
        DirectiveWord::Enable => {
            reader.keys(value, reader.spans, &["k", "attrs", "names"]);
            GlobalDirective::Enable {
                attributes: reader.attributes(value, "attrs"),
                names: reader.names(value, "names"),
            }
        }
        DirectiveWord::Requires => {
            reader.keys(value, reader.spans, &["k", "attrs", "names"]);
            GlobalDirective::Requires {
                attributes: reader.attributes(value, "attrs"),
                names: reader.names(value, "names"),
            }
        }
        DirectiveWord::Diagnostic => {
            reader.keys(value, reader.spans, &["k", "attrs", "severity", "rule"]);
            GlobalDirective::Diagnostic {
                attributes: reader.attributes(value, "attrs"),
                severity: reader.text(value, "severity", TextKind::Any),
                rule: reader.text(value, "rule", TextKind::Any),
            }
        }
    }
}
