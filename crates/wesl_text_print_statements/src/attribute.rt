//! Printing attributes (WGSL, "Attributes"; WESL, "ConditionalTranslation" and "Visibility").
ghost use Rattle.std.specs.Prelude.{[], drop, take, ◌≡◌, ◌∷◌};
ghost use Rattle.wesl_text_form.specs.Names.{is_among, known_attributes};
ghost use Rattle.wesl_text_form.specs.Productions.{a_bare_attribute, a_custom, one_or_two};
ghost use Rattle.wesl_text_form.specs.Spelling.{leaf_slots};
ghost use Rattle.wesl_text_print.specs.Printing.{Prints, slots_in};
ghost use Rattle.wesl_text_print_statements.specs.Parts.{arguments_row, attribute_slots, attributes_slots, builtin_row, custom_tree, diagnosed_slots, operand_row, option_in, plain_slots, row_in, size_row, words_slots};
ghost use Rattle.wesl_tree_syntax.specs.Tree.{end, leaf, list, text as text_label, texts as texts_label};
ghost use Rattle.wesl_tree_syntax.specs.View.{expression_tree, listed, texts_of};
ghost use Rattle.wesl_tree_syntax.specs.declared.attribute.Attribute.TheVariants as attr;

use wesl_text_print::{
    TokenSink, Unwritable, end_commas, print_comma, print_expression, print_expressions,
};
use wesl_text_tokens::Symbol;
use wesl_tree_names::Names;
use wesl_tree_syntax::{Attribute, Attributes, ExpressionNode};

/// Prints attributes, one behind the other, each with a blank behind it.
pub fn print_attributes<S: TokenSink>(out: &mut S, names: &Names, attributes: &Attributes)
    ensures { Prints S.after out.old out.new (attributes_slots names.now attributes.now) }
{
    for attribute in attributes {
        print_attribute(out, names, &attribute.node);
        out.space();
    }
}

// Prints an attribute.
fn print_attribute<S: TokenSink>(out: &mut S, names: &Names, attribute: &Attribute)
    ensures { Prints S.after out.old out.new (attribute_slots names.now attribute.now) }
{
    match attribute {
        Attribute::Align(operand) => print_operand(out, names, "align", operand),
        Attribute::Binding(operand) => print_operand(out, names, "binding", operand),
        Attribute::BlendSrc(operand) => print_operand(out, names, "blend_src", operand),
        Attribute::Builtin(name) => print_builtin(out, name.as_str()),
        Attribute::Const => print_plain(out, "const"),
        Attribute::Diagnostic { severity, rule } => {
            print_plain(out, "diagnostic");
            print_diagnostic(out, severity.as_str(), rule.as_str());
        }
        Attribute::Group(operand) => print_operand(out, names, "group", operand),
        Attribute::Id(operand) => print_operand(out, names, "id", operand),
        Attribute::Interpolate(words) => print_interpolate(out, words),
        Attribute::Invariant => print_plain(out, "invariant"),
        Attribute::Location(operand) => print_operand(out, names, "location", operand),
        Attribute::MustUse => print_plain(out, "must_use"),
        Attribute::Size(operand) => print_operand(out, names, "size", operand),
        Attribute::WorkgroupSize { x, y, z } => print_workgroup(out, names, x, y, z),
        Attribute::Vertex => print_plain(out, "vertex"),
        Attribute::Fragment => print_plain(out, "fragment"),
        Attribute::Compute => print_plain(out, "compute"),
        Attribute::Publish => print_plain(out, "publish"),
        Attribute::If(operand) => print_operand(out, names, "if", operand),
        Attribute::Elif(operand) => print_operand(out, names, "elif", operand),
        Attribute::Else => print_plain(out, "else"),
        Attribute::Custom { name, arguments } => {
            print_custom(out, names, name.as_str(), arguments);
        }
    }
}

// Prints an attribute without operands.
fn print_plain<S: TokenSink>(out: &mut S, word: &str)
    ensures { Prints S.after out.old out.new (plain_slots word.now) }
{
    out.symbol(Symbol::At);
    out.keyword(word);
}

// Prints an attribute with one operand.
fn print_operand<S: TokenSink>(out: &mut S, names: &Names, word: &str, operand: &ExpressionNode)
    ensures { Prints S.after out.old out.new (row_in names.now (operand_row word.now) (expression_tree operand.now ∷ [])) }
{
    print_plain(out, word);
    out.symbol(Symbol::ParenLeft);
    print_expression(out, names, &operand.node);
    out.may(Symbol::Comma);
    out.symbol(Symbol::ParenRight);
}

// Prints `@builtin`.
fn print_builtin<S: TokenSink>(out: &mut S, name: &str)
    ensures { Prints S.after out.old out.new (row_in [] builtin_row (leaf (text_label name.now) ∷ [])) }
{
    print_plain(out, "builtin");
    out.symbol(Symbol::ParenLeft);
    out.word(name);
    out.may(Symbol::Comma);
    out.symbol(Symbol::ParenRight);
}

/// Prints the severity and the rule of a diagnostic in parentheses.
pub fn print_diagnostic<S: TokenSink>(out: &mut S, severity: &str, rule: &str)
    ensures { Prints S.after out.old out.new (diagnosed_slots severity.now rule.now) }
{
    out.symbol(Symbol::ParenLeft);
    out.word(severity);
    out.symbol(Symbol::Comma);
    out.space();
    out.rule(rule);
    out.may(Symbol::Comma);
    out.symbol(Symbol::ParenRight);
}

// Prints `@interpolate`.
fn print_interpolate<S: TokenSink>(out: &mut S, words: &Vec<String>)
    ensures { Prints S.after out.old out.new (attribute_slots [] (attr.Interpolate words.now)) }
{
    print_plain(out, "interpolate");
    out.symbol(Symbol::ParenLeft);
    print_one_or_two(out, words);
    out.symbol(Symbol::ParenRight);
}

// Prints words with commas between them: one or two.
fn print_one_or_two<S: TokenSink>(out: &mut S, words: &Vec<String>)
    ensures { Prints S.after out.old out.new (leaf_slots one_or_two (texts_label (texts_of words.now)) end) }
{
    if words.len() == 1 || words.len() == 2 {
        print_words(out, words);
    } else {
        out.refuse(Unwritable::Words);
    }
}

/// Prints words with commas between them.
pub fn print_words<S: TokenSink>(out: &mut S, words: &Vec<String>)
    ensures { Prints S.after out.old out.new (words_slots words.now) }
{
    let mut is_first = true;
    for word in words {
        print_comma(out, is_first);
        is_first = false;
        out.word(word.as_str());
    }
    end_commas(out, is_first);
}

// Prints `@workgroup_size`. A third size wants the second.
fn print_workgroup<S: TokenSink>(
    out: &mut S,
    names: &Names,
    x: &ExpressionNode,
    y: &Option<ExpressionNode>,
    z: &Option<ExpressionNode>,
)
    ensures { Prints S.after out.old out.new (attribute_slots names.now (attr.WorkgroupSize x.now y.now z.now)) }
{
    if y.is_none() && z.is_some() {
        out.refuse(Unwritable::Sizes);
    } else {
        print_plain(out, "workgroup_size");
        out.symbol(Symbol::ParenLeft);
        print_expression(out, names, &x.node);
        print_size(out, names, y);
        print_size(out, names, z);
        out.may(Symbol::Comma);
        out.symbol(Symbol::ParenRight);
    }
}

// Prints a size behind another, an option.
fn print_size<S: TokenSink>(out: &mut S, names: &Names, size: &Option<ExpressionNode>)
    ensures { Prints S.after out.old out.new (option_in names.now size_row expression_tree size.now) }
{
    match size {
        Some(size) => {
            out.symbol(Symbol::Comma);
            out.space();
            print_expression(out, names, &size.node);
        }
        None => {}
    }
}

// Prints an attribute of another name.
fn print_custom<S: TokenSink>(
    out: &mut S,
    names: &Names,
    name: &str,
    arguments: &Option<Vec<ExpressionNode>>,
)
    ensures { Prints S.after out.old out.new (slots_in names.now a_bare_attribute (custom_tree name.now arguments.now)) }
{
    out.symbol(Symbol::At);
    print_custom_name(out, name);
    print_custom_arguments(out, names, arguments);
}

// Prints the name of an attribute of another name.
fn print_custom_name<S: TokenSink>(out: &mut S, name: &str)
    ensures { Prints S.after out.old out.new (leaf_slots a_custom (text_label name.now) end) }
{
    if is_known_attribute(name) {
        out.refuse(Unwritable::KnownAttribute);
    } else {
        out.word(name);
    }
}

// Prints the arguments of an attribute of another name, an option.
fn print_custom_arguments<S: TokenSink>(
    out: &mut S,
    names: &Names,
    arguments: &Option<Vec<ExpressionNode>>,
)
    ensures { Prints S.after out.old out.new (option_in names.now arguments_row (listed expression_tree list) arguments.now) }
{
    match arguments {
        Some(arguments) => {
            out.symbol(Symbol::ParenLeft);
            print_expressions(out, names, arguments);
            out.symbol(Symbol::ParenRight);
        }
        None => {}
    }
}

// Whether an attribute has a node of its own.
fn is_known_attribute(name: &str) -> bool
    ensures { result ≡ is_among known_attributes name.now }
{
    is_known_to_else(name) || is_known_to_invariant(name) || is_known_to_workgroup_size(name)
}

// The same of those before `fragment` in the order of the alphabet.
fn is_known_to_else(name: &str) -> bool
    ensures { result ≡ is_among (take 9 known_attributes) name.now }
{
    name == "align"
        || name == "binding"
        || name == "blend_src"
        || name == "builtin"
        || name == "compute"
        || name == "const"
        || name == "diagnostic"
        || name == "elif"
        || name == "else"
}

// The same of those from there to `invariant`.
fn is_known_to_invariant(name: &str) -> bool
    ensures { result ≡ is_among (take 6 (drop 9 known_attributes)) name.now }
{
    name == "fragment"
        || name == "group"
        || name == "id"
        || name == "if"
        || name == "interpolate"
        || name == "invariant"
}

// The same of those from there on.
fn is_known_to_workgroup_size(name: &str) -> bool
    ensures { result ≡ is_among (drop 15 known_attributes) name.now }
{
    name == "location"
        || name == "must_use"
        || name == "publish"
        || name == "size"
        || name == "vertex"
        || name == "workgroup_size"
}
