//! Printing declarations.
ghost use Rattle.std.specs.Prelude.{codes};
ghost use Rattle.serde_json.specs.Data.{array};
ghost use Rattle.wesl_json_form.specs.Schema.{a_member, a_parameter};
ghost use Rattle.wesl_json_print_nodes.specs.Lists.{declaration_items, member_items, parameter_items};
ghost use Rattle.wesl_json_print_nodes.specs.Printing.{Prints, PrintsList, PrintsMembers, access_member, mode_member, node_in, space_member};
ghost use Rattle.wesl_json_words.specs.Values.{declaration_at, placed_at, statement_at};
ghost use Rattle.wesl_tree_syntax.specs.Tree.{member_node};
ghost use Rattle.wesl_tree_syntax.specs.View.{alias_view, assert_view, declaration_view, function_view, global_view, member_view, parameter_view, struct_view};

use crate::attribute::print_attributes;
use crate::expression::{
    print_expression_at, print_optional_expression, print_optional_type, print_type_at,
};
use crate::printer::Printer;
use crate::sink::Sink;
use crate::statement::{print_body_at, print_void};
use wesl_json_words::{access_word, kind_word, space_word, spelling};
use wesl_tree_names::{Names, Span};
use wesl_tree_syntax::{
    AccessMode, ConstAssert, Declaration, DeclarationKind, FormalParameter, Function,
    GlobalDeclaration, GlobalDeclarationNode, Struct, StructMember, StructMemberNode, TypeAlias,
};

/// Prints the member of the declarations of a module, unless there are none.
pub fn print_declarations<S: Sink>(
    out: &mut Printer<S>,
    spans: bool,
    names: &Names,
    declarations: &Vec<GlobalDeclarationNode>,
)
    ensures { PrintsList S.after out.old out.new (codes "declarations") (declaration_items spans names.now declarations.now) }
{
    if !declarations.is_empty() {
        out.key("declarations");
        print_each(out, spans, names, declarations);
    }
}

fn print_each<S: Sink>(
    out: &mut Printer<S>,
    spans: bool,
    names: &Names,
    declarations: &Vec<GlobalDeclarationNode>,
)
    ensures { Prints S.after out.old out.new (array (declaration_items spans names.now declarations.now)) }
{
    out.begin_list();
    for declaration in declarations {
        print_global(out, spans, names, &declaration.node, declaration.span);
    }
    out.close_list();
}

fn print_global<S: Sink>(
    out: &mut Printer<S>,
    spans: bool,
    names: &Names,
    declaration: &GlobalDeclaration,
    span: Span,
)
    ensures { Prints S.after out.old out.new (declaration_at spans names.now span (global_view declaration.now)) }
{
    match declaration {
        GlobalDeclaration::Void => print_void(out, spans, names, span),
        GlobalDeclaration::Declaration(declaration) => {
            print_declaration(out, spans, names, declaration, span)
        }
        GlobalDeclaration::TypeAlias(alias) => print_alias(out, spans, names, alias, span),
        GlobalDeclaration::Struct(structure) => print_struct(out, spans, names, structure, span),
        GlobalDeclaration::Function(function) => print_function(out, spans, names, function, span),
        GlobalDeclaration::ConstAssert(assertion) => {
            print_assertion(out, spans, names, assertion, span)
        }
    }
}

/// Prints a declaration, which is the same in a module and in a function.
pub(crate) fn print_declaration<S: Sink>(
    out: &mut Printer<S>,
    spans: bool,
    names: &Names,
    declaration: &Declaration,
    span: Span,
)
    ensures global { Prints S.after out.old out.new (declaration_at spans names.now span (declaration_view declaration.now)) }
    ensures local { Prints S.after out.old out.new (statement_at spans names.now span (declaration_view declaration.now)) }
{
    out.begin();
    print_access(out, declaration.kind);
    print_attributes(out, spans, names, "attrs", &declaration.attributes);
    print_optional_expression(out, spans, names, "init", &declaration.initializer);
    out.text_at("k", kind_word(declaration.kind));
    out.text_at("name", spelling(names, declaration.ident));
    print_space(out, declaration.kind);
    out.span(spans, span);
    print_optional_type(out, spans, names, "ty", &declaration.ty);
    out.close();
}

// Prints the access mode of a variable, where it has one.
fn print_access<S: Sink>(out: &mut Printer<S>, kind: DeclarationKind)
    ensures { PrintsMembers S.after out.old out.new (access_member kind) }
{
    match kind {
        DeclarationKind::Const => {}
        DeclarationKind::Override => {}
        DeclarationKind::Let => {}
        DeclarationKind::Var(None) => {}
        DeclarationKind::Var(Some(place)) => print_mode(out, place.1),
    }
}

fn print_mode<S: Sink>(out: &mut Printer<S>, mode: Option<AccessMode>)
    ensures { PrintsMembers S.after out.old out.new (mode_member mode) }
{
    match mode {
        None => {}
        Some(mode) => out.text_at("access", access_word(mode)),
    }
}

// Prints the address space of a variable, where it has one.
fn print_space<S: Sink>(out: &mut Printer<S>, kind: DeclarationKind)
    ensures { PrintsMembers S.after out.old out.new (space_member kind) }
{
    match kind {
        DeclarationKind::Const => {}
        DeclarationKind::Override => {}
        DeclarationKind::Let => {}
        DeclarationKind::Var(None) => {}
        DeclarationKind::Var(Some(place)) => out.text_at("space", space_word(place.0)),
    }
}

fn print_alias<S: Sink>(
    out: &mut Printer<S>,
    spans: bool,
    names: &Names,
    alias: &TypeAlias,
    span: Span,
)
    ensures { Prints S.after out.old out.new (declaration_at spans names.now span (alias_view alias.now)) }
{
    out.begin();
    print_attributes(out, spans, names, "attrs", &alias.attributes);
    out.text_at("k", "alias");
    out.text_at("name", spelling(names, alias.ident));
    out.span(spans, span);
    print_type_at(out, spans, names, "ty", &alias.ty);
    out.close();
}

fn print_struct<S: Sink>(
    out: &mut Printer<S>,
    spans: bool,
    names: &Names,
    structure: &Struct,
    span: Span,
)
    ensures { Prints S.after out.old out.new (declaration_at spans names.now span (struct_view structure.now)) }
{
    out.begin();
    print_attributes(out, spans, names, "attrs", &structure.attributes);
    out.text_at("k", "struct");
    print_members(out, spans, names, &structure.members);
    out.text_at("name", spelling(names, structure.ident));
    out.span(spans, span);
    out.close();
}

fn print_members<S: Sink>(
    out: &mut Printer<S>,
    spans: bool,
    names: &Names,
    members: &Vec<StructMemberNode>,
)
    ensures { PrintsList S.after out.old out.new (codes "members") (member_items spans names.now members.now) }
{
    if !members.is_empty() {
        out.key("members");
        print_each_member(out, spans, names, members);
    }
}

fn print_each_member<S: Sink>(
    out: &mut Printer<S>,
    spans: bool,
    names: &Names,
    members: &Vec<StructMemberNode>,
)
    ensures { Prints S.after out.old out.new (array (member_items spans names.now members.now)) }
{
    out.begin_list();
    for member in members {
        print_member(out, spans, names, &member.node, member.span);
    }
    out.close_list();
}

fn print_member<S: Sink>(
    out: &mut Printer<S>,
    spans: bool,
    names: &Names,
    member: &StructMember,
    span: Span,
)
    ensures { Prints S.after out.old out.new (placed_at spans names.now a_member member_node span (member_view member.now)) }
{
    out.begin();
    print_attributes(out, spans, names, "attrs", &member.attributes);
    out.text_at("name", member.name.as_str());
    out.span(spans, span);
    print_type_at(out, spans, names, "ty", &member.ty);
    out.close();
}

fn print_function<S: Sink>(
    out: &mut Printer<S>,
    spans: bool,
    names: &Names,
    function: &Function,
    span: Span,
)
    ensures { Prints S.after out.old out.new (declaration_at spans names.now span (function_view function.now)) }
{
    out.begin();
    print_attributes(out, spans, names, "attrs", &function.attributes);
    print_body_at(out, spans, names, &function.body);
    out.text_at("k", "fn");
    out.text_at("name", spelling(names, function.ident));
    print_parameters(out, spans, names, &function.parameters);
    print_optional_type(out, spans, names, "ret", &function.return_type);
    print_attributes(out, spans, names, "ret_attrs", &function.return_attributes);
    out.span(spans, span);
    out.close();
}

fn print_parameters<S: Sink>(
    out: &mut Printer<S>,
    spans: bool,
    names: &Names,
    parameters: &Vec<FormalParameter>,
)
    ensures { PrintsList S.after out.old out.new (codes "params") (parameter_items spans names.now parameters.now) }
{
    if !parameters.is_empty() {
        out.key("params");
        print_each_parameter(out, spans, names, parameters);
    }
}

fn print_each_parameter<S: Sink>(
    out: &mut Printer<S>,
    spans: bool,
    names: &Names,
    parameters: &Vec<FormalParameter>,
)
    ensures { Prints S.after out.old out.new (array (parameter_items spans names.now parameters.now)) }
{
    out.begin_list();
    for parameter in parameters {
        print_parameter(out, spans, names, parameter);
    }
    out.close_list();
}

fn print_parameter<S: Sink>(
    out: &mut Printer<S>,
    spans: bool,
    names: &Names,
    parameter: &FormalParameter,
)
    ensures { Prints S.after out.old out.new (node_in spans names.now a_parameter (parameter_view parameter.now)) }
{
    out.begin();
    print_attributes(out, spans, names, "attrs", &parameter.attributes);
    out.text_at("name", spelling(names, parameter.ident));
    print_type_at(out, spans, names, "ty", &parameter.ty);
    out.close();
}

/// Prints an assertion, which is the same in a module and in a function.
pub(crate) fn print_assertion<S: Sink>(
    out: &mut Printer<S>,
    spans: bool,
    names: &Names,
    assertion: &ConstAssert,
    span: Span,
)
    ensures global { Prints S.after out.old out.new (declaration_at spans names.now span (assert_view assertion.now)) }
    ensures local { Prints S.after out.old out.new (statement_at spans names.now span (assert_view assertion.now)) }
{
    out.begin();
    print_attributes(out, spans, names, "attrs", &assertion.attributes);
    print_expression_at(
        out,
        spans,
        names,
        "expr",
        &assertion.expression.node,
        assertion.expression.span,
    );
    out.text_at("k", "assert");
    out.span(spans, span);
    out.close();
}
