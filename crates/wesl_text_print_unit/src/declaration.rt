//! Printing declarations (WGSL, "Variable and Value Declarations", "Types", "Functions").
ghost use Rattle.std.specs.Prelude.{map, ◌≡◌};
ghost use Rattle.wesl_text_form.specs.Productions.{a_bare_declaration, a_bare_member, a_parameter};
ghost use Rattle.wesl_text_form.specs.Spelling.{is_kind};
ghost use Rattle.wesl_text_print.specs.Printing.{Prints, comma_slots, comma_unless, slots_in};
ghost use Rattle.wesl_text_print_statements.specs.Parts.{attributes_slots};
ghost use Rattle.wesl_text_print_statements.specs.Variables.{kind_label, unended_in};
ghost use Rattle.wesl_text_print_unit.specs.Units.{closing_slots, declared_slots, members_slots, no_result_slots, result_slots};
ghost use Rattle.wesl_tree_syntax.specs.Tree.{let_kind};
ghost use Rattle.wesl_tree_syntax.specs.View.{alias_view, declaration_view, function_view, global_view, member_view, parameter_view, struct_view};

use wesl_text_print::{TokenSink, Unwritable, end_commas, print_comma, print_name, print_type};
use wesl_text_print_statements::{print_assertion, print_attributes, print_body, print_variable};
use wesl_text_tokens::Symbol;
use wesl_tree_names::Names;
use wesl_tree_syntax::{
    Attributes, Declaration, DeclarationKind, FormalParameter, Function, GlobalDeclaration, Struct,
    StructMember, StructMemberNode, TypeAlias, TypeExpression,
};

/// Prints a global declaration; the names of its identifiers are those of the table.
///
/// Where no text says it, the sink is told why.
pub fn print_declaration<S: TokenSink>(out: &mut S, names: &Names, declaration: &GlobalDeclaration)
    ensures { Prints S.after out.old out.new (slots_in names.now a_bare_declaration (global_view declaration.now)) }
{
    match declaration {
        GlobalDeclaration::Void => out.symbol(Symbol::Semicolon),
        GlobalDeclaration::Declaration(declaration) => {
            print_global(out, names, declaration);
            out.symbol(Symbol::Semicolon);
        }
        GlobalDeclaration::TypeAlias(alias) => print_alias(out, names, alias),
        GlobalDeclaration::Struct(structure) => print_struct(out, names, structure),
        GlobalDeclaration::Function(function) => print_function(out, names, function),
        GlobalDeclaration::ConstAssert(assertion) => print_assertion(out, names, assertion),
    }
}

// Prints a declaration outside of functions, where no `let` stands, without its `;`.
fn print_global<S: TokenSink>(out: &mut S, names: &Names, declaration: &Declaration)
    ensures { Prints S.after out.old out.new (unended_in names.now a_bare_declaration (declaration_view declaration.now)) }
{
    if is_let(declaration.kind) {
        out.refuse(Unwritable::Let);
    } else {
        print_variable(out, names, declaration);
    }
}

// Whether a declaration is a `let`.
fn is_let(kind: DeclarationKind) -> bool
    ensures { result ≡ is_kind let_kind (kind_label kind) }
{
    match kind {
        DeclarationKind::Let => true,
        _ => false,
    }
}

// Prints an alias.
fn print_alias<S: TokenSink>(out: &mut S, names: &Names, alias: &TypeAlias)
    ensures { Prints S.after out.old out.new (slots_in names.now a_bare_declaration (alias_view alias.now)) }
{
    print_attributes(out, names, &alias.attributes);
    out.keyword("alias");
    out.space();
    print_name(out, names, alias.ident);
    out.space();
    out.symbol(Symbol::Equal);
    out.space();
    print_type(out, names, &alias.ty);
    out.symbol(Symbol::Semicolon);
}

// Prints a structure.
fn print_struct<S: TokenSink>(out: &mut S, names: &Names, structure: &Struct)
    ensures { Prints S.after out.old out.new (slots_in names.now a_bare_declaration (struct_view structure.now)) }
{
    print_attributes(out, names, &structure.attributes);
    out.keyword("struct");
    out.space();
    print_name(out, names, structure.ident);
    out.space();
    out.symbol(Symbol::BraceLeft);
    out.indent();
    print_members(out, names, &structure.members);
    out.outdent();
    close_members(out, structure.members.is_empty());
}

// Prints the `}` of a structure, on a line of its own unless the structure is empty.
fn close_members<S: TokenSink>(out: &mut S, is_empty: bool)
    ensures { Prints S.after out.old out.new closing_slots }
{
    if is_empty {
        out.symbol(Symbol::BraceRight);
    } else {
        out.line();
        out.symbol(Symbol::BraceRight);
    }
}

// Prints the members of a structure with commas between them, each on a line of its own.
fn print_members<S: TokenSink>(out: &mut S, names: &Names, members: &Vec<StructMemberNode>)
    ensures { Prints S.after out.old out.new (members_slots names.now members.now) }
{
    let mut is_first = true;
    for member in members {
        print_member_comma(out, is_first);
        is_first = false;
        out.line();
        print_member(out, names, &member.node);
    }
    end_commas(out, is_first);
}

// Prints a comma before a member, unless it is the first one.
fn print_member_comma<S: TokenSink>(out: &mut S, is_first: bool)
    ensures { Prints S.after out.old out.new (comma_unless is_first) }
{
    if !is_first {
        out.symbol(Symbol::Comma);
    }
}

// Prints a member of a structure.
fn print_member<S: TokenSink>(out: &mut S, names: &Names, member: &StructMember)
    ensures { Prints S.after out.old out.new (slots_in names.now a_bare_member (member_view member.now)) }
{
    print_attributes(out, names, &member.attributes);
    out.name(member.name.as_str());
    print_declared_type(out, names, &member.ty);
}

// Prints the type behind the name of a member or a parameter.
fn print_declared_type<S: TokenSink>(out: &mut S, names: &Names, ty: &TypeExpression)
    ensures { Prints S.after out.old out.new (declared_slots names.now ty.now) }
{
    out.symbol(Symbol::Colon);
    out.space();
    print_type(out, names, ty);
}

// Prints a function.
fn print_function<S: TokenSink>(out: &mut S, names: &Names, function: &Function)
    ensures { Prints S.after out.old out.new (slots_in names.now a_bare_declaration (function_view function.now)) }
{
    print_lined_attributes(out, names, &function.attributes);
    out.keyword("fn");
    out.space();
    print_name(out, names, function.ident);
    out.symbol(Symbol::ParenLeft);
    print_parameters(out, names, &function.parameters);
    out.symbol(Symbol::ParenRight);
    out.space();
    print_result(
        out,
        names,
        &function.return_attributes,
        &function.return_type,
    );
    print_body(out, names, &function.body);
}

// Prints attributes on a line of their own.
fn print_lined_attributes<S: TokenSink>(out: &mut S, names: &Names, attributes: &Attributes)
    ensures { Prints S.after out.old out.new (attributes_slots names.now attributes.now) }
{
    print_attributes(out, names, attributes);
    if !attributes.is_empty() {
        out.line();
    }
}

// Prints the parameters of a function with commas between them.
fn print_parameters<S: TokenSink>(out: &mut S, names: &Names, parameters: &Vec<FormalParameter>)
    ensures { Prints S.after out.old out.new (comma_slots names.now a_parameter (map parameter_view parameters.now.items)) }
{
    let mut is_first = true;
    for parameter in parameters {
        print_comma(out, is_first);
        is_first = false;
        print_parameter(out, names, parameter);
    }
    end_commas(out, is_first);
}

// Prints a parameter of a function.
fn print_parameter<S: TokenSink>(out: &mut S, names: &Names, parameter: &FormalParameter)
    ensures { Prints S.after out.old out.new (slots_in names.now a_parameter (parameter_view parameter.now)) }
{
    print_attributes(out, names, &parameter.attributes);
    print_name(out, names, parameter.ident);
    print_declared_type(out, names, &parameter.ty);
}

// Prints the type of a result with its attributes, an option. Without a type there are no attributes.
fn print_result<S: TokenSink>(
    out: &mut S,
    names: &Names,
    attributes: &Attributes,
    ty: &Option<TypeExpression>,
)
    ensures { Prints S.after out.old out.new (result_slots names.now attributes.now ty.now) }
{
    match ty {
        Some(ty) => {
            out.symbol(Symbol::Arrow);
            out.space();
            print_attributes(out, names, attributes);
            print_type(out, names, ty);
            out.space();
        }
        None => print_no_result(out, attributes),
    }
}

// Prints nothing, and refuses attributes of a result that is not there.
fn print_no_result<S: TokenSink>(out: &mut S, attributes: &Attributes)
    ensures { Prints S.after out.old out.new (no_result_slots attributes.now) }
{
    if !attributes.is_empty() {
        out.refuse(Unwritable::NoResult);
    }
}
