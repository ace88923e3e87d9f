//! Reading directives (WGSL, "Directives").
ghost use Rattle.std.specs.Prelude.{map, string_bytes};
ghost use Rattle.wesl_tree_syntax.specs.Tree.{diagnostic_directive, directive_node, enable_directive, requires_directive, texts};
ghost use Rattle.wesl_tree_syntax.specs.View.{directive_view, placed};
ghost use Rattle.wesl_text_form.specs.Productions.{a_bare_directive, a_directive, some_words};
ghost use Rattle.wesl_text_reading.specs.Leaves.{read_leaf};
ghost use Rattle.wesl_text_read.specs.Leads.{Reads, ReadsLabel};
ghost use Rattle.wesl_text_read.specs.Levels.{inner};
ghost use Rattle.wesl_text_read_imports.specs.Nodes.{kind_at};

use crate::directive_word::{DirectiveWord, directive_word};
use wesl_text_read::{Expected, Reader};
use wesl_text_read_ahead::{behind_attributes, skip_word};
use wesl_text_tokens::Symbol;
use wesl_tree_syntax::{GlobalDirective, GlobalDirectiveNode};

/// A directive.
pub fn read_directive(reader: &mut Reader<'_>) -> GlobalDirectiveNode
    ensures { Reads (inner reader.old.levels a_directive)
        (placed directive_view directive_node result) reader.old reader.new }
{
    let start = reader.place();
    let node = bare_directive(reader);
    reader.placed(start, node)
}

// The same without its span.
fn bare_directive(reader: &mut Reader<'_>) -> GlobalDirective
    ensures { Reads (inner reader.old.levels a_bare_directive) (directive_view result) reader.old reader.new }
{
    match directive_word(behind_attributes(reader)) {
        Some(DirectiveWord::Diagnostic) => diagnostic(reader),
        Some(DirectiveWord::Enable) => enable(reader),
        Some(DirectiveWord::Requires) => requires_names(reader),
        None => {
            reader.wrong(Expected::Declaration);
            no_directive(reader)
        }
    }
}

// A directive that takes no memory, in the place of one that is not read.
fn no_directive(reader: &Reader<'_>) -> GlobalDirective {
    GlobalDirective::Enable {
        attributes: Vec::new(reader.alloc),
        names: Vec::new(reader.alloc),
    }
}

// `diagnostic(severity, rule);`
fn diagnostic(reader: &mut Reader<'_>) -> GlobalDirective
    ensures { Reads (kind_at reader.old.levels a_bare_directive diagnostic_directive)
        (directive_view result) reader.old reader.new }
{
    let attributes = reader.attributes();
    skip_word(reader, "diagnostic");
    reader.skip_sign(Symbol::ParenLeft);
    let severity = reader.word();
    reader.skip_sign(Symbol::Comma);
    let rule = reader.rule();
    reader.skip_comma();
    reader.skip_sign(Symbol::ParenRight);
    reader.skip_sign(Symbol::Semicolon);
    GlobalDirective::Diagnostic {
        attributes,
        severity,
        rule,
    }
}

// `enable names;`
fn enable(reader: &mut Reader<'_>) -> GlobalDirective
    ensures { Reads (kind_at reader.old.levels a_bare_directive enable_directive)
        (directive_view result) reader.old reader.new }
{
    let attributes = reader.attributes();
    skip_word(reader, "enable");
    let names = names(reader);
    reader.skip_sign(Symbol::Semicolon);
    GlobalDirective::Enable { attributes, names }
}

// `requires names;`
fn requires_names(reader: &mut Reader<'_>) -> GlobalDirective
    ensures { Reads (kind_at reader.old.levels a_bare_directive requires_directive)
        (directive_view result) reader.old reader.new }
{
    let attributes = reader.attributes();
    skip_word(reader, "requires");
    let names = names(reader);
    reader.skip_sign(Symbol::Semicolon);
    GlobalDirective::Requires { attributes, names }
}

// Words with commas between, one at least.
fn names(reader: &mut Reader<'_>) -> Vec<String>
    ensures { ReadsLabel (read_leaf some_words) (texts (map string_bytes result.items)) reader.old reader.new }
{
    let is_wrong = reader.word_first().is_none();
    reader.wrong_if(is_wrong, Expected::Name);
    reader.words()
}
