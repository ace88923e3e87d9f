//! Printing attributes.
ghost use Rattle.serde_json.specs.Data.{array, string};
ghost use Rattle.wesl_json_form.specs.Writing.{texts_value};
ghost use Rattle.wesl_json_print_nodes.specs.Lists.{attribute_items};
ghost use Rattle.wesl_json_print_nodes.specs.Printing.{Prints, PrintsAttribute, PrintsList, custom_tree, diagnosed, interpolated, named, sized, with_operand};
ghost use Rattle.wesl_json_words.specs.Values.{attribute_at, attribute_in};
ghost use Rattle.wesl_tree_syntax.specs.View.{attribute_view, texts_of};

use crate::expression::{print_expression_at, print_expressions, print_optional_expression};
use crate::printer::Printer;
use crate::sink::Sink;
use wesl_json_words::is_shown;
use wesl_tree_names::{Names, Span};
use wesl_tree_syntax::{Attribute, Attributes, ExpressionNode};

/// Prints the attributes of a node at a key, unless there are none.
pub fn print_attributes<S: Sink>(
    out: &mut Printer<S>,
    spans: bool,
    names: &Names,
    key: &str,
    attributes: &Attributes,
)
    ensures { PrintsList S.after out.old out.new key.now (attribute_items spans names.now attributes.now) }
{
    if !attributes.is_empty() {
        out.key(key);
        print_each(out, spans, names, attributes);
    }
}

// Prints attributes as a list.
fn print_each<S: Sink>(out: &mut Printer<S>, spans: bool, names: &Names, attributes: &Attributes)
    ensures { Prints S.after out.old out.new (array (attribute_items spans names.now attributes.now)) }
{
    out.begin_list();
    for attribute in attributes {
        print_attribute(out, spans, names, &attribute.node, attribute.span);
    }
    out.close_list();
}

fn print_attribute<S: Sink>(
    out: &mut Printer<S>,
    spans: bool,
    names: &Names,
    attribute: &Attribute,
    span: Span,
)
    ensures { Prints S.after out.old out.new (attribute_at spans names.now span (attribute_view attribute.now)) }
{
    match attribute {
        Attribute::Align(operand) => print_operand(out, spans, names, "align", operand, span),
        Attribute::Binding(operand) => print_operand(out, spans, names, "binding", operand, span),
        Attribute::BlendSrc(operand) => {
            print_operand(out, spans, names, "blend_src", operand, span)
        }
        Attribute::Builtin(name) => print_named(out, spans, "builtin", name.as_str(), span),
        Attribute::Const => print_word(out, spans, "const", span),
        Attribute::Diagnostic { severity, rule } => {
            print_diagnostic(out, spans, severity.as_str(), rule.as_str(), span)
        }
        Attribute::Group(operand) => print_operand(out, spans, names, "group", operand, span),
        Attribute::Id(operand) => print_operand(out, spans, names, "id", operand, span),
        Attribute::Interpolate(texts) => print_interpolate(out, spans, texts, span),
        Attribute::Invariant => print_word(out, spans, "invariant", span),
        Attribute::Location(operand) => {
            print_operand(out, spans, names, "location", operand, span)
        }
        Attribute::MustUse => print_word(out, spans, "must_use", span),
        Attribute::Size(operand) => print_operand(out, spans, names, "size", operand, span),
        Attribute::WorkgroupSize { x, y, z } => {
            print_workgroup(out, spans, names, x, y, z, span)
        }
        Attribute::Vertex => print_word(out, spans, "vertex", span),
        Attribute::Fragment => print_word(out, spans, "fragment", span),
        Attribute::Compute => print_word(out, spans, "compute", span),
        Attribute::Publish => print_word(out, spans, "publish", span),
        Attribute::If(operand) => print_operand(out, spans, names, "if", operand, span),
        Attribute::Elif(operand) => print_operand(out, spans, names, "elif", operand, span),
        Attribute::Else => print_word(out, spans, "else", span),
        Attribute::Custom { name, arguments } => {
            print_custom(out, spans, names, name.as_str(), arguments, span)
        }
    }
}

fn print_operand<S: Sink>(
    out: &mut Printer<S>,
    spans: bool,
    names: &Names,
    word: &str,
    operand: &ExpressionNode,
    span: Span,
)
    ensures { PrintsAttribute S.after out.old out.new spans span (with_operand spans names.now word.now operand.now) }
{
    out.begin();
    print_expression_at(out, spans, names, "expr", &operand.node, operand.span);
    out.text_at("k", word);
    out.span(spans, span);
    out.close();
}

fn print_named<S: Sink>(out: &mut Printer<S>, spans: bool, word: &str, name: &str, span: Span)
    ensures { PrintsAttribute S.after out.old out.new spans span (named word.now name.now) }
{
    out.begin();
    out.text_at("k", word);
    out.text_at("name", name);
    out.span(spans, span);
    out.close();
}

// Prints an attribute that is a word alone: an object where it has a place.
fn print_word<S: Sink>(out: &mut Printer<S>, spans: bool, word: &str, span: Span)
    ensures { PrintsAttribute S.after out.old out.new spans span (string word.now) }
{
    if is_shown(spans, span) {
        out.begin();
        out.text_at("k", word);
        out.span(spans, span);
        out.close();
    } else {
        out.text(word);
    }
}

fn print_diagnostic<S: Sink>(
    out: &mut Printer<S>,
    spans: bool,
    severity: &str,
    rule: &str,
    span: Span,
)
    ensures { PrintsAttribute S.after out.old out.new spans span (diagnosed severity.now rule.now) }
{
    out.begin();
    out.text_at("k", "diagnostic");
    out.text_at("rule", rule);
    out.text_at("severity", severity);
    out.span(spans, span);
    out.close();
}

fn print_interpolate<S: Sink>(out: &mut Printer<S>, spans: bool, texts: &Vec<String>, span: Span)
    ensures { PrintsAttribute S.after out.old out.new spans span (interpolated texts.now) }
{
    out.begin();
    out.text_at("k", "interpolate");
    print_names(out, "names", texts);
    out.span(spans, span);
    out.close();
}

/// Prints names at a key, unless there are none.
pub fn print_names<S: Sink>(out: &mut Printer<S>, key: &str, texts: &Vec<String>)
    ensures { PrintsList S.after out.old out.new key.now (texts_value (texts_of texts.now)) }
{
    if !texts.is_empty() {
        out.key(key);
        print_texts(out, texts);
    }
}

fn print_texts<S: Sink>(out: &mut Printer<S>, texts: &Vec<String>)
    ensures { Prints S.after out.old out.new (array (texts_value (texts_of texts.now))) }
{
    out.begin_list();
    for text in texts {
        out.text(text.as_str());
    }
    out.close_list();
}

fn print_workgroup<S: Sink>(
    out: &mut Printer<S>,
    spans: bool,
    names: &Names,
    x: &ExpressionNode,
    y: &Option<ExpressionNode>,
    z: &Option<ExpressionNode>,
    span: Span,
)
    ensures { PrintsAttribute S.after out.old out.new spans span (sized spans names.now x.now y.now z.now) }
{
    out.begin();
    out.text_at("k", "workgroup_size");
    out.span(spans, span);
    print_expression_at(out, spans, names, "x", &x.node, x.span);
    print_optional_expression(out, spans, names, "y", y);
    print_optional_expression(out, spans, names, "z", z);
    out.close();
}

fn print_custom<S: Sink>(
    out: &mut Printer<S>,
    spans: bool,
    names: &Names,
    name: &str,
    arguments: &Option<Vec<ExpressionNode>>,
    span: Span,
)
    ensures { PrintsAttribute S.after out.old out.new spans span (attribute_in spans names.now (custom_tree name.now arguments.now)) }
{
    match arguments {
        None => print_named(out, spans, "custom", name, span),
        Some(arguments) => {
            out.begin();
            out.key("args");
            print_expressions(out, spans, names, arguments);
            out.text_at("k", "custom");
            out.text_at("name", name);
            out.span(spans, span);
            out.close();
        }
    }
}
