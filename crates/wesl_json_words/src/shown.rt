//! Spans and names, as they are written.
ghost use Rattle.std.specs.Prelude.{◌≡◌};
ghost use Rattle.wesl_json_form.specs.Writing.{is_placed};
ghost use Rattle.wesl_tree_syntax.specs.Tree.{Kind};
ghost use Rattle.wesl_tree_syntax.specs.Unit.{name_in};
ghost use Rattle.wesl_json_words.specs.Values.{kind_text, place_label, truth_text};

use wesl_tree_names::{Ident, Names, Span};
use wesl_tree_syntax::DeclarationKind;

/// Whether a span is to be written: where spans are, and where it is some place.
pub fn is_shown(spans: bool, span: Span) -> bool
    ensures { (k : Kind) → result ≡ is_placed spans (place_label spans k span) }
{
    spans && !(span.start == 0 && span.end == 0)
}

/// The word of a truth value, where it stands as an object.
pub fn truth_word(truth: bool) -> &'static str
    ensures { result.now ≡ truth_text truth }
{
    if truth { "true" } else { "false" }
}

/// The name of an identifier, and the empty text of one that has none in the table.
pub fn spelling<'a>(names: &'a Names, ident: Ident) -> &'a str
    ensures { result.now ≡ name_in names.now ident.0 }
{
    if ident.0 < names.len() {
        names.name(ident)
    } else {
        ""
    }
}

/// The word of a declaration.
pub fn kind_word(kind: DeclarationKind) -> &'static str
    ensures { result.now ≡ kind_text kind }
{
    match kind {
        DeclarationKind::Const => "const",
        DeclarationKind::Override => "override",
        DeclarationKind::Let => "let",
        DeclarationKind::Var(_) => "var",
    }
}
