//! The words of attributes.
ghost use Rattle.std.specs.Prelude.{◌≡◌, IfSome, option_map};
ghost use Rattle.wesl_text_tokens.specs.Symbols.{look_up};
ghost use Rattle.wesl_text_reading.specs.FirstTokens.{words_of_attributes};
ghost use Rattle.wesl_text_read.specs.AttributeWords.{attribute_kind, attribute_text};

/// The words of the attributes that have one operand, an expression.
#[derive(Clone, Copy, Drop)]
pub enum OperandWord {
    Align,
    Binding,
    BlendSrc,
    Group,
    Id,
    Location,
    Size,
    If,
    Elif,
}

/// The words of the attributes without operand.
#[derive(Clone, Copy, Drop)]
pub enum PlainWord {
    Const,
    Invariant,
    MustUse,
    Vertex,
    Fragment,
    Compute,
    Publish,
    Else,
}

/// The words that have attributes of their own.
#[derive(Clone, Copy, Drop)]
pub enum AttributeWord {
    Operand(OperandWord),
    Plain(PlainWord),
    Builtin,
    Diagnostic,
    Interpolate,
    WorkgroupSize,
}

/// The attribute of its own that a word has, if it has one.
pub fn attribute_word(word: &str) -> Option<AttributeWord>
    ensures kind { option_map attribute_kind result ≡ look_up word.now words_of_attributes }
    ensures text { IfSome result (λ w. word.now ≡ attribute_text w) }
{
    match word {
        "align" => Some(AttributeWord::Operand(OperandWord::Align)),
        "binding" => Some(AttributeWord::Operand(OperandWord::Binding)),
        "blend_src" => Some(AttributeWord::Operand(OperandWord::BlendSrc)),
        "builtin" => Some(AttributeWord::Builtin),
        "compute" => Some(AttributeWord::Plain(PlainWord::Compute)),
        "const" => Some(AttributeWord::Plain(PlainWord::Const)),
        "diagnostic" => Some(AttributeWord::Diagnostic),
        "elif" => Some(AttributeWord::Operand(OperandWord::Elif)),
        "else" => Some(AttributeWord::Plain(PlainWord::Else)),
        "fragment" => Some(AttributeWord::Plain(PlainWord::Fragment)),
        "group" => Some(AttributeWord::Operand(OperandWord::Group)),
        "id" => Some(AttributeWord::Operand(OperandWord::Id)),
        "if" => Some(AttributeWord::Operand(OperandWord::If)),
        "interpolate" => Some(AttributeWord::Interpolate),
        "invariant" => Some(AttributeWord::Plain(PlainWord::Invariant)),
        "location" => Some(AttributeWord::Operand(OperandWord::Location)),
        "must_use" => Some(AttributeWord::Plain(PlainWord::MustUse)),
        "publish" => Some(AttributeWord::Plain(PlainWord::Publish)),
        "size" => Some(AttributeWord::Operand(OperandWord::Size)),
        "vertex" => Some(AttributeWord::Plain(PlainWord::Vertex)),
        "workgroup_size" => Some(AttributeWord::WorkgroupSize),
        _ => None,
    }
}
