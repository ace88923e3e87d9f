//! Printing declarations of variables and values, and assertions (WGSL, "Variable and Value Declarations").
ghost use Rattle.std.specs.Prelude.{[], List, not, ◌≡◌, ◌||◌};
ghost use Rattle.wesl_text_form.specs.Operators.{access_word, space_word};
ghost use Rattle.wesl_text_form.specs.Productions.{a_bare_declaration, a_bare_statement, a_kind, a_space};
ghost use Rattle.wesl_text_form.specs.Spelling.{is_kind};
ghost use Rattle.wesl_text_print.specs.Printing.{Prints, slots_in};
ghost use Rattle.wesl_text_print_statements.specs.Parts.{option_in};
ghost use Rattle.wesl_text_print_statements.specs.Variables.{has_what_it_needs, kind_label, mode_row, space_row, typed_row, unended_in, valued_row, variable_slots};
ghost use Rattle.wesl_tree_names.specs.Path.{Text};
ghost use Rattle.wesl_tree_syntax.specs.Tree.{override_kind, var_kind};
ghost use Rattle.wesl_tree_syntax.specs.View.{access_tree, assert_view, declaration_view, expression_tree, kind_tree, space_tree, type_view};

use crate::attribute::print_attributes;
use wesl_text_print::{TokenSink, Unwritable, print_expression, print_name, print_type};
use wesl_text_tokens::Symbol;
use wesl_tree_names::Names;
use wesl_tree_syntax::{
    AccessMode, AddressSpace, ConstAssert, Declaration, DeclarationKind, ExpressionNode,
    TypeExpression,
};

/// Prints a declaration in a function, where no `override` stands, without its `;`.
pub(crate) fn print_local<S: TokenSink>(out: &mut S, names: &Names, declaration: &Declaration)
    ensures { Prints S.after out.old out.new (unended_in names.now a_bare_statement (declaration_view declaration.now)) }
{
    if is_override(declaration.kind) {
        out.refuse(Unwritable::Override);
    } else {
        print_variable(out, names, declaration);
    }
}

// Whether a declaration is an `override`.
fn is_override(kind: DeclarationKind) -> bool
    ensures { result ≡ is_kind override_kind (kind_label kind) }
{
    match kind {
        DeclarationKind::Override => true,
        _ => false,
    }
}

/// Prints a declaration without its `;`. Without a value only `var` and `override` are declared.
pub fn print_variable<S: TokenSink>(out: &mut S, names: &Names, declaration: &Declaration)
    ensures { Prints S.after out.old out.new (variable_slots names.now declaration.now) }
{
    if has_what_it_needs(declaration) {
        print_attributes(out, names, &declaration.attributes);
        print_kind(out, declaration.kind);
        out.space();
        print_name(out, names, declaration.ident);
        print_typed(out, names, &declaration.ty);
        print_value(out, names, &declaration.initializer);
    } else {
        out.refuse(Unwritable::NoValue);
    }
}

// Whether a declaration has a value, or is one that needs none.
fn has_what_it_needs(declaration: &Declaration) -> bool
    ensures { (names : List Text) → result ≡ has_what_it_needs names declaration.now }
{
    declaration.initializer.is_some() || needs_no_value(declaration.kind)
}

// Whether a declaration of this kind needs no value.
fn needs_no_value(kind: DeclarationKind) -> bool
    ensures { result ≡ (is_kind var_kind (kind_label kind) || is_kind override_kind (kind_label kind)) }
{
    match kind {
        DeclarationKind::Const | DeclarationKind::Let => false,
        DeclarationKind::Override | DeclarationKind::Var(_) => true,
    }
}

// Prints what a declaration begins with.
fn print_kind<S: TokenSink>(out: &mut S, kind: DeclarationKind)
    ensures { Prints S.after out.old out.new (slots_in [] a_kind (kind_tree kind)) }
{
    match kind {
        DeclarationKind::Const => out.keyword("const"),
        DeclarationKind::Override => out.keyword("override"),
        DeclarationKind::Let => out.keyword("let"),
        DeclarationKind::Var(space) => {
            out.keyword("var");
            print_space(out, space);
        }
    }
}

// Prints the address space of a variable in the brackets of a template list, an option.
fn print_space<S: TokenSink>(out: &mut S, space: Option<(AddressSpace, Option<AccessMode>)>)
    ensures { Prints S.after out.old out.new (option_in [] space_row space_tree space) }
{
    match space {
        Some(space) => {
            out.open_list();
            print_space_and_mode(out, space);
            out.may(Symbol::Comma);
            out.close_list();
        }
        None => {}
    }
}

// Prints an address space, and its access mode, an option.
fn print_space_and_mode<S: TokenSink>(out: &mut S, space: (AddressSpace, Option<AccessMode>))
    ensures { Prints S.after out.old out.new (slots_in [] a_space (space_tree space)) }
{
    out.keyword(space_word(space.0));
    print_mode(out, space.1);
}

// Prints an access mode behind an address space, an option.
fn print_mode<S: TokenSink>(out: &mut S, mode: Option<AccessMode>)
    ensures { Prints S.after out.old out.new (option_in [] mode_row access_tree mode) }
{
    match mode {
        Some(mode) => {
            out.symbol(Symbol::Comma);
            out.space();
            out.keyword(mode_word(mode));
        }
        None => {}
    }
}

// The word of an address space.
fn space_word(space: AddressSpace) -> &'static str
    ensures { result.now ≡ space_word space }
{
    match space {
        AddressSpace::Function => "function",
        AddressSpace::Private => "private",
        AddressSpace::Workgroup => "workgroup",
        AddressSpace::Uniform => "uniform",
        AddressSpace::Storage => "storage",
        AddressSpace::Handle => "handle",
    }
}

// The word of an access mode.
fn mode_word(mode: AccessMode) -> &'static str
    ensures { result.now ≡ access_word mode }
{
    match mode {
        AccessMode::Read => "read",
        AccessMode::Write => "write",
        AccessMode::ReadWrite => "read_write",
    }
}

// Prints the type behind a name, an option.
fn print_typed<S: TokenSink>(out: &mut S, names: &Names, ty: &Option<TypeExpression>)
    ensures { Prints S.after out.old out.new (option_in names.now typed_row type_view ty.now) }
{
    match ty {
        Some(ty) => {
            out.symbol(Symbol::Colon);
            out.space();
            print_type(out, names, ty);
        }
        None => {}
    }
}

// Prints the value of a declaration, an option.
fn print_value<S: TokenSink>(out: &mut S, names: &Names, value: &Option<ExpressionNode>)
    ensures { Prints S.after out.old out.new (option_in names.now valued_row expression_tree value.now) }
{
    match value {
        Some(value) => {
            out.space();
            out.symbol(Symbol::Equal);
            out.space();
            print_expression(out, names, &value.node);
        }
        None => {}
    }
}

/// Prints a `const_assert`, as a statement and as a declaration.
pub fn print_assertion<S: TokenSink>(out: &mut S, names: &Names, assertion: &ConstAssert)
    ensures statement { Prints S.after out.old out.new (slots_in names.now a_bare_statement (assert_view assertion.now)) }
    ensures declaration { Prints S.after out.old out.new (slots_in names.now a_bare_declaration (assert_view assertion.now)) }
{
    print_attributes(out, names, &assertion.attributes);
    out.keyword("const_assert");
    out.space();
    print_expression(out, names, &assertion.expression.node);
    out.symbol(Symbol::Semicolon);
}
