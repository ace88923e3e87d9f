//! The words of directives and declarations.
ghost use Rattle.std.specs.Prelude.{◌≡◌, Bool, IfSome, option_map};
ghost use Rattle.wesl_json_form.specs.Nodes.{declaration_words, directive_words};
ghost use Rattle.wesl_json_form.specs.Schema.{look};
ghost use Rattle.wesl_json_read_unit.specs.Forms.{declaration_of, declaration_text, directive_of, directive_text};

use wesl_json_read_statements::{DeclaredWord, declared_word};

/// The words at `k` of declarations.
#[derive(Clone, Copy)]
pub(crate) enum DeclarationWord {
    Alias,
    Struct,
    Function,
    Declared(DeclaredWord),
}

/// The words at `k` of directives.
#[derive(Clone, Copy)]
pub(crate) enum DirectiveWord {
    Enable,
    Requires,
    Diagnostic,
}

/// The declaration that a word names.
pub(crate) fn declaration_word(text: &str) -> Option<DeclarationWord>
    ensures node { (spans : Bool) → option_map (declaration_of spans) result ≡ look (declaration_words spans) text.now }
    ensures text { IfSome result (λ w. text.now ≡ declaration_text w) }
{
    match text {
        "alias" => Some(DeclarationWord::Alias),
        "struct" => Some(DeclarationWord::Struct),
        "fn" => Some(DeclarationWord::Function),
        _ => match declared_word(text) {
            Some(word) => Some(DeclarationWord::Declared(word)),
            None => None,
        },
    }
}

/// The directive that a word names.
pub(crate) fn directive_word(text: &str) -> Option<DirectiveWord>
    ensures node { (spans : Bool) → option_map (directive_of spans) result ≡ look (directive_words spans) text.now }
    ensures text { IfSome result (λ w. text.now ≡ directive_text w) }
{
    match text {
        "enable" => Some(DirectiveWord::Enable),
        "requires" => Some(DirectiveWord::Requires),
        "diagnostic" => Some(DirectiveWord::Diagnostic),
        _ => None,
    }
}
