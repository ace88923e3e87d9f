//! Printing expressions and types.
ghost use Rattle.std.specs.Prelude.{codes};
ghost use Rattle.serde_json.specs.Data.{array, boolean, string};
ghost use Rattle.wesl_json_form.specs.Schema.{a_type, an_expression};
ghost use Rattle.wesl_json_print_nodes.specs.Lists.{argument_items, expression_items};
ghost use Rattle.wesl_json_print_nodes.specs.Printing.{Prints, PrintsList, PrintsMember, PrintsMembers, PrintsOption, literal_view, named_at, node_in, path_member, plain_type_tree};
ghost use Rattle.wesl_json_words.specs.Values.{bare, call_members, expression_at};
ghost use Rattle.wesl_tree_syntax.specs.View.{call_view, expression_tree, expression_view, type_view};

use crate::printer::Printer;
use crate::sink::Sink;
use wesl_json_words::{binary_word, is_shown, spelling, truth_word, unary_word};
use wesl_tree_names::{Ident, ModulePath, Names, Span};
use wesl_tree_syntax::{
    Expression, ExpressionNode, FunctionCall, Literal, TemplateArg, TypeExpression,
};

/// Prints an expression.
#[cycle(printing)]
pub(crate) fn print_expression<S: Sink>(
    out: &mut Printer<S>,
    spans: bool,
    names: &Names,
    expression: &Expression,
    span: Span,
)
    ensures { Prints S.after out.old out.new (expression_at spans names.now span (expression_view expression.now)) }
{
    match expression {
        Expression::Literal(literal) => print_literal(out, spans, names, literal, span),
        Expression::Parenthesized { expression } => {
            out.begin();
            print_expression_at(out, spans, names, "expr", &expression.node, expression.span);
            out.text_at("k", "paren");
            out.span(spans, span);
            out.close();
        }
        Expression::NamedComponent { base, component } => {
            out.begin();
            print_expression_at(out, spans, names, "base", &base.node, base.span);
            out.text_at("k", "field");
            out.text_at("name", component.as_str());
            out.span(spans, span);
            out.close();
        }
        Expression::Indexing { base, index } => {
            out.begin();
            print_expression_at(out, spans, names, "base", &base.node, base.span);
            print_expression_at(out, spans, names, "index", &index.node, index.span);
            out.text_at("k", "index");
            out.span(spans, span);
            out.close();
        }
        Expression::Unary { operator, operand } => {
            out.begin();
            print_expression_at(out, spans, names, "expr", &operand.node, operand.span);
            out.text_at("k", "unary");
            out.text_at("op", unary_word(*operator));
            out.span(spans, span);
            out.close();
        }
        Expression::Binary {
            operator,
            left,
            right,
        } => {
            out.begin();
            out.text_at("k", "binary");
            print_expression_at(out, spans, names, "left", &left.node, left.span);
            out.text_at("op", binary_word(*operator));
            print_expression_at(out, spans, names, "right", &right.node, right.span);
            out.span(spans, span);
            out.close();
        }
        Expression::FunctionCall(call) => {
            out.begin();
            print_arguments(out, spans, names, &call.arguments);
            out.text_at("k", "call");
            out.span(spans, span);
            print_type_at(out, spans, names, "ty", &call.ty);
            out.close();
        }
        Expression::TypeOrIdentifier(ty) => print_type(out, spans, names, ty, span),
    }
}

// Prints a literal.
fn print_literal<S: Sink>(
    out: &mut Printer<S>,
    spans: bool,
    names: &Names,
    literal: &Literal,
    span: Span,
)
    ensures { Prints S.after out.old out.new (expression_at spans names.now span (literal_view literal.now)) }
{
    match literal {
        Literal::Bool(truth) => print_truth(out, spans, *truth, span),
        Literal::Text(text) => {
            out.begin();
            out.text_at("k", "lit");
            out.span(spans, span);
            out.text_at("text", text.as_str());
            out.close();
        }
    }
}

// Prints a truth value, which is an object where it has a place.
fn print_truth<S: Sink>(out: &mut Printer<S>, spans: bool, truth: bool, span: Span)
    ensures { Prints S.after out.old out.new (named_at spans span (boolean truth)) }
{
    if is_shown(spans, span) {
        out.begin();
        out.text_at("k", truth_word(truth));
        out.span(spans, span);
        out.close();
    } else {
        out.truth(truth);
    }
}

/// Prints an expression at a key.
#[cycle(printing)]
pub(crate) fn print_expression_at<S: Sink>(
    out: &mut Printer<S>,
    spans: bool,
    names: &Names,
    key: &str,
    expression: &Expression,
    span: Span,
)
    ensures { PrintsMember S.after out.old out.new key.now (expression_at spans names.now span (expression_view expression.now)) }
{
    out.key(key);
    print_expression(out, spans, names, expression, span);
}

/// Prints an expression at a key, an option.
pub(crate) fn print_optional_expression<S: Sink>(
    out: &mut Printer<S>,
    spans: bool,
    names: &Names,
    key: &str,
    expression: &Option<ExpressionNode>,
)
    ensures { PrintsOption S.after out.old out.new key.now spans names.now an_expression expression_tree expression.now }
{
    match expression {
        Some(expression) => print_expression_at(
            out,
            spans,
            names,
            key,
            &expression.node,
            expression.span,
        ),
        None => {}
    }
}

/// Prints the arguments of a call, unless there are none.
#[cycle(printing)]
pub(crate) fn print_arguments<S: Sink>(
    out: &mut Printer<S>,
    spans: bool,
    names: &Names,
    nodes: &Vec<ExpressionNode>,
)
    ensures { PrintsList S.after out.old out.new (codes "args") (expression_items spans names.now nodes.now) }
{
    if !nodes.is_empty() {
        out.key("args");
        print_expressions(out, spans, names, nodes);
    }
}

/// Prints expressions as a list.
#[cycle(printing)]
pub(crate) fn print_expressions<S: Sink>(
    out: &mut Printer<S>,
    spans: bool,
    names: &Names,
    nodes: &Vec<ExpressionNode>,
)
    ensures { Prints S.after out.old out.new (array (expression_items spans names.now nodes.now)) }
{
    out.begin_list();
    for node in nodes {
        print_expression(out, spans, names, &node.node, node.span);
    }
    out.close_list();
}

/// Prints the members of a call as an object at `call`.
pub(crate) fn print_call<S: Sink>(
    out: &mut Printer<S>,
    spans: bool,
    names: &Names,
    call: &FunctionCall,
)
    ensures { PrintsMember S.after out.old out.new (codes "call") (bare (call_members spans names.now (call_view call.now))) }
{
    out.key("call");
    out.begin();
    print_arguments(out, spans, names, &call.arguments);
    print_type_at(out, spans, names, "ty", &call.ty);
    out.close();
}

// Prints a type with a place, which only that of an expression has: its name, where it has no path, no arguments and no place.
#[cycle(printing)]
fn print_type<S: Sink>(
    out: &mut Printer<S>,
    spans: bool,
    names: &Names,
    ty: &TypeExpression,
    span: Span,
)
    ensures { Prints S.after out.old out.new (named_at spans span (node_in spans names.now a_type (type_view ty.now))) }
{
    match &ty.template_args {
        None => print_plain_type(out, spans, names, &ty.path, ty.ident, span),
        Some(arguments) => {
            out.begin();
            out.key("args");
            print_type_arguments(out, spans, names, arguments);
            out.text_at("name", spelling(names, ty.ident));
            print_optional_path(out, spans, names, &ty.path);
            out.span(spans, span);
            out.close();
        }
    }
}

// Prints a type without arguments.
fn print_plain_type<S: Sink>(
    out: &mut Printer<S>,
    spans: bool,
    names: &Names,
    path: &Option<Box<ModulePath>>,
    ident: Ident,
    span: Span,
)
    ensures { Prints S.after out.old out.new (named_at spans span (node_in spans names.now a_type (plain_type_tree path.now ident))) }
{
    let name = spelling(names, ident);
    match path {
        None => print_name(out, spans, name, span),
        Some(path) => {
            out.begin();
            out.text_at("name", name);
            out.key("path");
            out.path(path);
            out.span(spans, span);
            out.close();
        }
    }
}

// Prints a name, which is an object where it has a place.
fn print_name<S: Sink>(out: &mut Printer<S>, spans: bool, name: &str, span: Span)
    ensures { Prints S.after out.old out.new (named_at spans span (string name.now)) }
{
    if is_shown(spans, span) {
        out.begin();
        out.text_at("name", name);
        out.span(spans, span);
        out.close();
    } else {
        out.text(name);
    }
}

/// Prints a type at a key.
#[cycle(printing)]
pub(crate) fn print_type_at<S: Sink>(
    out: &mut Printer<S>,
    spans: bool,
    names: &Names,
    key: &str,
    ty: &TypeExpression,
)
    ensures { PrintsMember S.after out.old out.new key.now (node_in spans names.now a_type (type_view ty.now)) }
{
    out.key(key);
    print_type(out, spans, names, ty, Span { start: 0, end: 0 });
}

/// Prints a type at a key, an option.
pub(crate) fn print_optional_type<S: Sink>(
    out: &mut Printer<S>,
    spans: bool,
    names: &Names,
    key: &str,
    ty: &Option<TypeExpression>,
)
    ensures { PrintsOption S.after out.old out.new key.now spans names.now a_type type_view ty.now }
{
    match ty {
        Some(ty) => print_type_at(out, spans, names, key, ty),
        None => {}
    }
}

// Prints the path of a type, an option.
fn print_optional_path<S: Sink>(
    out: &mut Printer<S>,
    spans: bool,
    names: &Names,
    path: &Option<Box<ModulePath>>,
)
    ensures { PrintsMembers S.after out.old out.new (path_member spans names.now path.now) }
{
    match path {
        Some(path) => {
            out.key("path");
            out.path(path);
        }
        None => {}
    }
}

// Prints the arguments of a type as a list.
#[cycle(printing)]
fn print_type_arguments<S: Sink>(
    out: &mut Printer<S>,
    spans: bool,
    names: &Names,
    arguments: &Vec<TemplateArg>,
)
    ensures { Prints S.after out.old out.new (array (argument_items spans names.now arguments.now)) }
{
    out.begin_list();
    for argument in arguments {
        print_expression(
            out,
            spans,
            names,
            &argument.expression.node,
            argument.expression.span,
        );
    }
    out.close_list();
}
