//! Reading declarations (WGSL, "Declaration and Scope").
ghost use Rattle.wesl_tree_syntax.specs.Tree.{declaration_node, type_alias, void};
ghost use Rattle.wesl_tree_syntax.specs.View.{alias_view, global_view, placed};
ghost use Rattle.wesl_text_form.specs.Productions.{a_bare_declaration, a_declaration};
ghost use Rattle.wesl_text_read.specs.Leads.{Reads};
ghost use Rattle.wesl_text_read.specs.Levels.{inner};
ghost use Rattle.wesl_text_read_imports.specs.Nodes.{kind_at};

use crate::declaration_start::{DeclarationStart, declaration_start};
use crate::function::function;
use crate::structure::structure;
use wesl_text_read::{Expected, Reader};
use wesl_text_read_ahead::{behind_attributes, skip_word};
use wesl_text_read_simple::{read_global_assertion, read_global_variable};
use wesl_text_tokens::Symbol;
use wesl_tree_syntax::{GlobalDeclaration, GlobalDeclarationNode, TypeAlias};

/// A declaration.
pub fn declaration(reader: &mut Reader<'_>) -> GlobalDeclarationNode
    ensures { Reads (inner reader.old.levels a_declaration)
        (placed global_view declaration_node result) reader.old reader.new }
{
    let start = reader.place();
    let node = bare_declaration(reader);
    reader.placed(start, node)
}

// The same without its span.
fn bare_declaration(reader: &mut Reader<'_>) -> GlobalDeclaration
    ensures { Reads (inner reader.old.levels a_bare_declaration) (global_view result) reader.old reader.new }
{
    match declaration_start(behind_attributes(reader)) {
        Some(DeclarationStart::Void) => void(reader),
        Some(DeclarationStart::Variable) => {
            GlobalDeclaration::Declaration(read_global_variable(reader))
        }
        Some(DeclarationStart::Assertion) => {
            GlobalDeclaration::ConstAssert(read_global_assertion(reader))
        }
        Some(DeclarationStart::Alias) => GlobalDeclaration::TypeAlias(alias(reader)),
        Some(DeclarationStart::Struct) => GlobalDeclaration::Struct(structure(reader)),
        Some(DeclarationStart::Function) => GlobalDeclaration::Function(function(reader)),
        None => {
            let _attributes = reader.attributes();
            reader.wrong(Expected::Declaration);
            GlobalDeclaration::Void
        }
    }
}

// `;`, which has no attributes.
fn void(reader: &mut Reader<'_>) -> GlobalDeclaration
    ensures { Reads (kind_at reader.old.levels a_bare_declaration void) (global_view result) reader.old reader.new }
{
    reader.skip_sign(Symbol::Semicolon);
    GlobalDeclaration::Void
}

// `alias name = ty;`
fn alias(reader: &mut Reader<'_>) -> TypeAlias
    ensures { Reads (kind_at reader.old.levels a_bare_declaration type_alias)
        (alias_view result) reader.old reader.new }
{
    let attributes = reader.attributes();
    skip_word(reader, "alias");
    let ident = reader.ident();
    reader.skip_sign(Symbol::Equal);
    let ty = reader.type_expression();
    reader.skip_sign(Symbol::Semicolon);
    TypeAlias {
        attributes,
        ident,
        ty,
    }
}
