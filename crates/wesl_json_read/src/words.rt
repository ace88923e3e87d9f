//! The words of the form.
ghost use Rattle.std.specs.Prelude.{◌≡◌, Some, IfSome, option_map, true};
ghost use Rattle.serde_json.specs.Find.{as_str};
ghost use Rattle.wesl_json_form.specs.View.{borrowed_view};
ghost use Rattle.wesl_tree_syntax.specs.Tree.{binary, kind, unary};
ghost use Rattle.wesl_json_form.specs.Schema.{look};
ghost use Rattle.wesl_json_form.specs.Words.{attribute_words, unary_words, binary_words};
ghost use Rattle.wesl_json_form.specs.Nodes.{all_attribute_words, all_expression_words, plain_words, truth_words};
ghost use Rattle.wesl_json_read.specs.Forms.{attribute_named, attribute_of, attribute_text, expression_named, expression_of, expression_text, plain_kind, plain_text};

use wesl_json_form::BorrowedValue;
use wesl_tree_syntax::{BinaryOperator, UnaryOperator};

/// The words at `k` that tell which expression an object is.
#[derive(Clone, Copy)]
pub(crate) enum ExpressionWord {
    Literal,
    Truth(bool),
    Parenthesized,
    NamedComponent,
    Indexing,
    Unary,
    Binary,
    FunctionCall,
}

/// The expression that a word names. Truth values have words where spans are read.
pub(crate) fn expression_word(spans: bool, text: &str) -> Option<ExpressionWord>
    ensures node { option_map (expression_of spans) result ≡ look (all_expression_words spans) text.now }
    ensures text { IfSome result (λ w. text.now ≡ expression_text w) }
{
    match text {
        "lit" => Some(ExpressionWord::Literal),
        "paren" => Some(ExpressionWord::Parenthesized),
        "field" => Some(ExpressionWord::NamedComponent),
        "index" => Some(ExpressionWord::Indexing),
        "unary" => Some(ExpressionWord::Unary),
        "binary" => Some(ExpressionWord::Binary),
        "call" => Some(ExpressionWord::FunctionCall),
        _ => { if spans { truth_word(text) } else { None } }
    }
}

fn truth_word(text: &str) -> Option<ExpressionWord>
    ensures node { option_map (expression_of true) result ≡ look (truth_words true) text.now }
    ensures text { IfSome result (λ w. text.now ≡ expression_text w) }
{
    match text {
        "true" => Some(ExpressionWord::Truth(true)),
        "false" => Some(ExpressionWord::Truth(false)),
        _ => None,
    }
}

/// The expression that the word at `k` names.
pub(crate) fn expression_word_in(spans: bool, value: &BorrowedValue<'_>) -> Option<ExpressionWord>
    ensures node { option_map (expression_of spans) result ≡ expression_named spans (borrowed_view value.now) }
    ensures text { IfSome result (λ w. as_str (borrowed_view value.now) ≡ Some (expression_text w)) }
{
    match value.as_str() {
        Some(text) => expression_word(spans, text),
        None => None,
    }
}

/// The words at `k` of the attributes that have one operand, an expression.
#[derive(Clone, Copy)]
pub enum OperandWord {
    Align,
    Binding,
    BlendSrc,
    Group,
    Id,
    Location,
    Size,
    If,
    Elif,
}

/// The words of the attributes without operand.
#[derive(Clone, Copy)]
pub enum PlainWord {
    Const,
    Invariant,
    MustUse,
    Vertex,
    Fragment,
    Compute,
    Publish,
    Else,
}

/// The words at `k` that tell which attribute an object is.
#[derive(Clone, Copy)]
pub enum AttributeWord {
    Operand(OperandWord),
    WorkgroupSize,
    Builtin,
    Interpolate,
    Diagnostic,
    Custom,
    Plain(PlainWord),
}

/// The attribute that a word names. Those without operand have words at `k` where spans are read.
pub(crate) fn attribute_word(spans: bool, text: &str) -> Option<AttributeWord>
    ensures node { option_map (attribute_of spans) result ≡ look (all_attribute_words spans) text.now }
    ensures text { IfSome result (λ w. text.now ≡ attribute_text w) }
{
    match text {
        "align" => Some(AttributeWord::Operand(OperandWord::Align)),
        "binding" => Some(AttributeWord::Operand(OperandWord::Binding)),
        "blend_src" => Some(AttributeWord::Operand(OperandWord::BlendSrc)),
        "group" => Some(AttributeWord::Operand(OperandWord::Group)),
        "id" => Some(AttributeWord::Operand(OperandWord::Id)),
        "location" => Some(AttributeWord::Operand(OperandWord::Location)),
        "size" => Some(AttributeWord::Operand(OperandWord::Size)),
        "if" => Some(AttributeWord::Operand(OperandWord::If)),
        "elif" => Some(AttributeWord::Operand(OperandWord::Elif)),
        "workgroup_size" => Some(AttributeWord::WorkgroupSize),
        "builtin" => Some(AttributeWord::Builtin),
        "interpolate" => Some(AttributeWord::Interpolate),
        "diagnostic" => Some(AttributeWord::Diagnostic),
        "custom" => Some(AttributeWord::Custom),
        _ => {
            if spans {
                plain_attribute_word(text)
            } else {
                None
            }
        }
    }
}

fn plain_attribute_word(text: &str) -> Option<AttributeWord>
    ensures node { option_map (attribute_of true) result ≡ look (plain_words true) text.now }
    ensures text { IfSome result (λ w. text.now ≡ attribute_text w) }
{
    match plain_word(text) {
        Some(word) => Some(AttributeWord::Plain(word)),
        None => None,
    }
}

/// The attribute without operand that a word is.
pub(crate) fn plain_word(text: &str) -> Option<PlainWord>
    ensures node { option_map (λ w. kind (plain_kind w)) result ≡ look attribute_words text.now }
    ensures text { IfSome result (λ w. text.now ≡ plain_text w) }
{
    match text {
        "const" => Some(PlainWord::Const),
        "invariant" => Some(PlainWord::Invariant),
        "must_use" => Some(PlainWord::MustUse),
        "vertex" => Some(PlainWord::Vertex),
        "fragment" => Some(PlainWord::Fragment),
        "compute" => Some(PlainWord::Compute),
        "publish" => Some(PlainWord::Publish),
        "else" => Some(PlainWord::Else),
        _ => None,
    }
}

/// The attribute that the word at `k` names.
pub(crate) fn attribute_word_in(spans: bool, value: &BorrowedValue<'_>) -> Option<AttributeWord>
    ensures node { option_map (attribute_of spans) result ≡ attribute_named spans (borrowed_view value.now) }
    ensures text { IfSome result (λ w. as_str (borrowed_view value.now) ≡ Some (attribute_text w)) }
{
    match value.as_str() {
        Some(text) => attribute_word(spans, text),
        None => None,
    }
}

/// The operator of one operand that a text is.
pub(crate) fn unary_operator(text: &str) -> Option<UnaryOperator>
    ensures { option_map unary result ≡ look unary_words text.now }
{
    match text {
        "!" => Some(UnaryOperator::LogicalNegation),
        "-" => Some(UnaryOperator::Negation),
        "~" => Some(UnaryOperator::BitwiseComplement),
        "&" => Some(UnaryOperator::AddressOf),
        "*" => Some(UnaryOperator::Indirection),
        _ => None,
    }
}

/// The operator of two operands that a text is.
pub(crate) fn binary_operator(text: &str) -> Option<BinaryOperator>
    ensures { option_map binary result ≡ look binary_words text.now }
{
    match text {
        "||" => Some(BinaryOperator::ShortCircuitOr),
        "&&" => Some(BinaryOperator::ShortCircuitAnd),
        "+" => Some(BinaryOperator::Addition),
        "-" => Some(BinaryOperator::Subtraction),
        "*" => Some(BinaryOperator::Multiplication),
        "/" => Some(BinaryOperator::Division),
        "%" => Some(BinaryOperator::Remainder),
        "==" => Some(BinaryOperator::Equality),
        "!=" => Some(BinaryOperator::Inequality),
        "<" => Some(BinaryOperator::LessThan),
        "<=" => Some(BinaryOperator::LessThanEqual),
        ">" => Some(BinaryOperator::GreaterThan),
        ">=" => Some(BinaryOperator::GreaterThanEqual),
        "|" => Some(BinaryOperator::BitwiseOr),
        "&" => Some(BinaryOperator::BitwiseAnd),
        "^" => Some(BinaryOperator::BitwiseXor),
        "<<" => Some(BinaryOperator::ShiftLeft),
        ">>" => Some(BinaryOperator::ShiftRight),
        _ => None,
    }
}
