//! Printing expressions and types (WGSL, "Expressions", "Template Lists").
ghost use Rattle.std.specs.Prelude.{◌≡◌, map};
ghost use Rattle.wesl_text_form.specs.Operators.{is_tight as is_tight_class, operator_class, primary, same_class, takes_left as takes_on_left, takes_right as takes_on_right};
ghost use Rattle.wesl_text_form.specs.Productions.{a_call, a_literal, a_type, an_argument, an_expression};
ghost use Rattle.wesl_text_form.specs.Spelling.{leaf_slots};
ghost use Rattle.wesl_text_print.specs.Printing.{Prints, comma_slots, comma_unless, expression_slots, last_comma_unless, list_slots, literal_label, name_slots, operand_slots, path_and_name, path_slots, slots_in};
ghost use Rattle.wesl_tree_syntax.specs.Tree.{end, truth as truth_label};
ghost use Rattle.wesl_tree_syntax.specs.Unit.{name_in};
ghost use Rattle.wesl_tree_syntax.specs.View.{argument_view, call_view, expression_tree, type_view};

use crate::operand::{binary_symbol, is_primary, is_tight, takes_left, takes_right, unary_symbol};
use crate::path::print_path;
use crate::sink::{TokenSink, Unwritable};
use wesl_text_tokens::Symbol;
use wesl_tree_names::{Ident, ModulePath, Names};
use wesl_tree_syntax::{
    BinaryOperator, Expression, ExpressionNode, FunctionCall, Literal, TemplateArg, TypeExpression,
};

/// Prints an expression; the names of its identifiers are those of the table. Where no text says it, the sink is told why.
#[cycle(printing)]
pub fn print_expression<S: TokenSink>(out: &mut S, names: &Names, expression: &Expression)
    ensures { Prints S.after out.old out.new (expression_slots names.now expression.now) }
{
    match expression {
        Expression::Literal(literal) => print_literal(out, literal),
        Expression::Parenthesized { expression } => {
            out.symbol(Symbol::ParenLeft);
            print_expression(out, names, &expression.node);
            out.symbol(Symbol::ParenRight);
        }
        Expression::NamedComponent { base, component } => {
            print_base(out, names, &base.node);
            out.symbol(Symbol::Period);
            out.name(component.as_str());
        }
        Expression::Indexing { base, index } => {
            print_base(out, names, &base.node);
            out.symbol(Symbol::BracketLeft);
            print_expression(out, names, &index.node);
            out.symbol(Symbol::BracketRight);
        }
        Expression::Unary { operator, operand } => {
            out.symbol(unary_symbol(*operator));
            print_operand(out, names, &operand.node);
        }
        Expression::Binary {
            operator,
            left,
            right,
        } => {
            print_left(out, names, *operator, &left.node);
            out.space();
            out.symbol(binary_symbol(*operator));
            out.space();
            print_right(out, names, *operator, &right.node);
        }
        Expression::FunctionCall(call) => print_call(out, names, call),
        Expression::TypeOrIdentifier(ty) => print_type(out, names, ty),
    }
}

// Prints what stands before `.` or `[`: no operation without parentheses.
#[cycle(printing)]
fn print_base<S: TokenSink>(out: &mut S, names: &Names, base: &Expression)
    ensures { Prints S.after out.old out.new (operand_slots (same_class primary) names.now base.now) }
{
    if is_primary(base) {
        print_expression(out, names, base);
    } else {
        out.refuse(Unwritable::Operand);
    }
}

// Prints the operand of a unary operator: no operation of a binary one without parentheses.
#[cycle(printing)]
fn print_operand<S: TokenSink>(out: &mut S, names: &Names, operand: &Expression)
    ensures { Prints S.after out.old out.new (operand_slots is_tight_class names.now operand.now) }
{
    if is_tight(operand) {
        print_expression(out, names, operand);
    } else {
        out.refuse(Unwritable::Operand);
    }
}

// Prints the left operand of a binary operator, if that takes it without parentheses.
#[cycle(printing)]
fn print_left<S: TokenSink>(
    out: &mut S,
    names: &Names,
    operator: BinaryOperator,
    operand: &Expression,
)
    ensures { Prints S.after out.old out.new (operand_slots (takes_on_left (operator_class operator)) names.now operand.now) }
{
    if takes_left(operator, operand) {
        print_expression(out, names, operand);
    } else {
        out.refuse(Unwritable::Operand);
    }
}

// Prints the right operand of a binary operator, if that takes it without parentheses.
#[cycle(printing)]
fn print_right<S: TokenSink>(
    out: &mut S,
    names: &Names,
    operator: BinaryOperator,
    operand: &Expression,
)
    ensures { Prints S.after out.old out.new (operand_slots (takes_on_right (operator_class operator)) names.now operand.now) }
{
    if takes_right(operator, operand) {
        print_expression(out, names, operand);
    } else {
        out.refuse(Unwritable::Operand);
    }
}

// Prints a literal.
fn print_literal<S: TokenSink>(out: &mut S, literal: &Literal)
    ensures { Prints S.after out.old out.new (leaf_slots a_literal (literal_label literal.now) end) }
{
    match literal {
        Literal::Bool(truth) => print_truth(out, *truth),
        Literal::Text(text) => out.number(text.as_str()),
    }
}

// Prints `true` or `false`.
fn print_truth<S: TokenSink>(out: &mut S, truth: bool)
    ensures { Prints S.after out.old out.new (leaf_slots a_literal (truth_label truth) end) }
{
    if truth {
        out.keyword("true");
    } else {
        out.keyword("false");
    }
}

/// Prints a call of a function or of a type's constructor.
#[cycle(printing)]
pub fn print_call<S: TokenSink>(out: &mut S, names: &Names, call: &FunctionCall)
    ensures { Prints S.after out.old out.new (slots_in names.now a_call (call_view call.now)) }
{
    print_type(out, names, &call.ty);
    out.symbol(Symbol::ParenLeft);
    print_expressions(out, names, &call.arguments);
    out.symbol(Symbol::ParenRight);
}

/// Prints expressions with commas between them.
#[cycle(printing)]
pub fn print_expressions<S: TokenSink>(out: &mut S, names: &Names, nodes: &Vec<ExpressionNode>)
    ensures { Prints S.after out.old out.new (comma_slots names.now an_expression (map expression_tree nodes.now.items)) }
{
    let mut is_first = true;
    for node in nodes {
        print_comma(out, is_first);
        is_first = false;
        print_expression(out, names, &node.node);
    }
    end_commas(out, is_first);
}

/// Prints a comma before an item, unless it is the first one.
pub fn print_comma<S: TokenSink>(out: &mut S, is_first: bool)
    ensures { Prints S.after out.old out.new (comma_unless is_first) }
{
    if !is_first {
        out.symbol(Symbol::Comma);
        out.space();
    }
}

/// Prints the comma that may stand behind items, unless there are none.
pub fn end_commas<S: TokenSink>(out: &mut S, is_first: bool)
    ensures { Prints S.after out.old out.new (last_comma_unless is_first) }
{
    if !is_first {
        out.may(Symbol::Comma);
    }
}

/// Prints a type: a name with its path and its template list.
#[cycle(printing)]
pub fn print_type<S: TokenSink>(out: &mut S, names: &Names, ty: &TypeExpression)
    ensures { Prints S.after out.old out.new (slots_in names.now a_type (type_view ty.now)) }
{
    print_path_and_name(out, names, &ty.path, ty.ident);
    match &ty.template_args {
        Some(arguments) => print_template_list(out, names, arguments),
        None => {}
    }
}

// Prints a template list, which is not empty.
#[cycle(printing)]
fn print_template_list<S: TokenSink>(out: &mut S, names: &Names, arguments: &Vec<TemplateArg>)
    ensures { Prints S.after out.old out.new (list_slots names.now (map argument_view arguments.now.items)) }
{
    if arguments.is_empty() {
        out.refuse(Unwritable::EmptyList);
    } else {
        out.open_list();
        print_template_arguments(out, names, arguments);
        out.close_list();
    }
}

// Prints a name, and its path before it, an option.
fn print_path_and_name<S: TokenSink>(
    out: &mut S,
    names: &Names,
    path: &Option<Box<ModulePath>>,
    ident: Ident,
)
    ensures { Prints S.after out.old out.new (path_and_name names.now path.now ident) }
{
    print_optional_path(out, path);
    print_name(out, names, ident);
}

// Prints the path before a name, an option.
fn print_optional_path<S: TokenSink>(out: &mut S, path: &Option<Box<ModulePath>>)
    ensures { Prints S.after out.old out.new (path_slots path.now) }
{
    match path {
        Some(path) => print_path(out, path),
        None => {}
    }
}

/// Prints the name of an identifier.
pub fn print_name<S: TokenSink>(out: &mut S, names: &Names, ident: Ident)
    ensures { Prints S.after out.old out.new (name_slots (name_in names.now ident.0)) }
{
    out.name(spelling(names, ident));
}

/// The name of an identifier, and the empty text of one that has none in the table.
pub fn spelling<'a>(names: &'a Names, ident: Ident) -> &'a str
    ensures { result.now ≡ name_in names.now ident.0 }
{
    if ident.0 < names.len() {
        names.name(ident)
    } else {
        ""
    }
}

// Prints the arguments of a template list, with commas between them.
#[cycle(printing)]
fn print_template_arguments<S: TokenSink>(out: &mut S, names: &Names, arguments: &Vec<TemplateArg>)
    ensures { Prints S.after out.old out.new (comma_slots names.now an_argument (map argument_view arguments.now.items)) }
{
    let mut is_first = true;
    for argument in arguments {
        print_comma(out, is_first);
        is_first = false;
        print_expression(out, names, &argument.expression.node);
    }
    end_commas(out, is_first);
}
