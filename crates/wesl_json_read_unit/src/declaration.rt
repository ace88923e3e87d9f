//! Reading the declarations of a module (WGSL, "Declaration and Scope").
ghost use Rattle.std.specs.Prelude.{◌≡◌, codes};
ghost use Rattle.wesl_json_form.specs.View.{borrowed_view};
ghost use Rattle.wesl_tree_syntax.specs.View.{declarations_tree, function_view, global_view, parameter_view};
ghost use Rattle.wesl_json_form.specs.Schema.{a_declaration, a_member, a_parameter, node as node_form};
ghost use Rattle.wesl_json_read_statements.specs.Views.{declared_view};
ghost use Rattle.wesl_json_read_unit.specs.declared.words.DeclarationWord.TheVariants as globals;
ghost use Rattle.wesl_json_read.specs.Noted.{NotesForm, NotesMany};
ghost use Rattle.wesl_json_read_unit.specs.Worded.{NotesDeclaration, NotesDeclarationWord};
ghost use Rattle.wesl_json_read_unit.specs.UnitLists.{global_tree, member_tree, members_tree, parameters_tree, some_globals, some_members, some_parameters};

use crate::words::{DeclarationWord, declaration_word};
use wesl_json_form::BorrowedValue;
use wesl_json_read::{Reader, TextKind};
use wesl_json_read_statements::{Declared, body, read_declared};
use wesl_tree_syntax::{
    FormalParameter, Function, GlobalDeclaration, GlobalDeclarationNode, Spanned, Struct,
    StructMember, StructMemberNode, TypeAlias,
};

/// The declarations at `declarations`, a list.
pub(crate) fn declarations(
    reader: &mut Reader,
    value: &BorrowedValue<'_>,
) -> Vec<GlobalDeclarationNode>
    ensures { NotesMany (codes "declarations") some_globals (borrowed_view value.now) (declarations_tree result) reader.old reader.new }
{
    let Some(items) = reader.list(value, "declarations") else {
        return Vec::new(reader.alloc);
    };
    let mut declarations = reader.room(items.len());
    for (index, item) in items.iter().enumerate() {
        if !reader.is_stopped() {
            let declaration = declaration(reader, item);
            reader.put(&mut declarations, index, declaration);
        }
    }
    reader.within("declarations");
    declarations
}

fn declaration(reader: &mut Reader, value: &BorrowedValue<'_>) -> GlobalDeclarationNode
    ensures { NotesForm (node_form a_declaration) (borrowed_view value.now) (global_tree result) reader.old reader.new }
{
    let word = word_of_declaration(reader, value);
    Spanned {
        span: reader.span(value),
        node: worded_declaration(reader, value, word),
    }
}

// The word at `k`.
fn word_of_declaration(reader: &mut Reader, value: &BorrowedValue<'_>) -> DeclarationWord
    ensures { NotesDeclarationWord (borrowed_view value.now) result reader.old reader.new }
{
    let Some(word) = reader.required(value, "k") else {
        return DeclarationWord::Alias;
    };
    match word.as_str().and_then(declaration_word) {
        Some(word) => word,
        None => {
            reader.wrong();
            reader.within("k");
            DeclarationWord::Alias
        }
    }
}

fn worded_declaration(
    reader: &mut Reader,
    value: &BorrowedValue<'_>,
    word: DeclarationWord,
) -> GlobalDeclaration
    ensures { NotesDeclaration word (borrowed_view value.now) (global_view result) reader.old reader.new }
{
    match word {
        DeclarationWord::Alias => {
            reader.keys(value, reader.spans, &["k", "attrs", "name", "ty"]);
            GlobalDeclaration::TypeAlias(TypeAlias {
                attributes: reader.attributes(value, "attrs"),
                ident: reader.ident_at(value, "name"),
                ty: reader.type_at(value, "ty"),
            })
        }
        DeclarationWord::Struct => {
            reader.keys(value, reader.spans, &["k", "attrs", "name", "members"]);
            GlobalDeclaration::Struct(Struct {
                attributes: reader.attributes(value, "attrs"),
                ident: reader.ident_at(value, "name"),
                members: members(reader, value),
            })
        }
        DeclarationWord::Function => GlobalDeclaration::Function(function(reader, value)),
        DeclarationWord::Declared(word) => global_of(read_declared(reader, value, word)),
    }
}

fn function(reader: &mut Reader, value: &BorrowedValue<'_>) -> Function
    ensures { NotesDeclaration globals.Function (borrowed_view value.now) (function_view result) reader.old reader.new }
{
    let known = &["k", "attrs", "name", "params", "ret_attrs", "ret", "body"];
    reader.keys(value, reader.spans, known);
    Function {
        attributes: reader.attributes(value, "attrs"),
        ident: reader.ident_at(value, "name"),
        parameters: parameters(reader, value),
        return_attributes: reader.attributes(value, "ret_attrs"),
        return_type: reader.optional_type(value, "ret"),
        body: body(reader, value),
    }
}

// The members at `members`, a list.
fn members(reader: &mut Reader, value: &BorrowedValue<'_>) -> Vec<StructMemberNode>
    ensures { NotesMany (codes "members") some_members (borrowed_view value.now) (members_tree result) reader.old reader.new }
{
    let Some(items) = reader.list(value, "members") else {
        return Vec::new(reader.alloc);
    };
    let mut members = reader.room(items.len());
    for (index, item) in items.iter().enumerate() {
        if !reader.is_stopped() {
            let member = member(reader, item);
            reader.put(&mut members, index, member);
        }
    }
    reader.within("members");
    members
}

fn member(reader: &mut Reader, value: &BorrowedValue<'_>) -> StructMemberNode
    ensures { NotesForm (node_form a_member) (borrowed_view value.now) (member_tree result) reader.old reader.new }
{
    let span = reader.span(value);
    reader.keys(value, reader.spans, &["attrs", "name", "ty"]);
    Spanned {
        node: StructMember {
            attributes: reader.attributes(value, "attrs"),
            name: reader.text(value, "name", TextKind::Name),
            ty: reader.type_at(value, "ty"),
        },
        span,
    }
}

// The parameters at `params`, a list.
fn parameters(reader: &mut Reader, value: &BorrowedValue<'_>) -> Vec<FormalParameter>
    ensures { NotesMany (codes "params") some_parameters (borrowed_view value.now) (parameters_tree result) reader.old reader.new }
{
    let Some(items) = reader.list(value, "params") else {
        return Vec::new(reader.alloc);
    };
    let mut parameters = reader.room(items.len());
    for (index, item) in items.iter().enumerate() {
        if !reader.is_stopped() {
            let parameter = parameter(reader, item);
            reader.put(&mut parameters, index, parameter);
        }
    }
    reader.within("params");
    parameters
}

fn parameter(reader: &mut Reader, value: &BorrowedValue<'_>) -> FormalParameter
    ensures { NotesForm (node_form a_parameter) (borrowed_view value.now) (parameter_view result) reader.old reader.new }
{
    reader.keys(value, false, &["attrs", "name", "ty"]);
    FormalParameter {
        attributes: reader.attributes(value, "attrs"),
        ident: reader.ident_at(value, "name"),
        ty: reader.type_at(value, "ty"),
    }
}

// The declaration of a module that this is.
fn global_of(declared: Declared) -> GlobalDeclaration
    ensures { global_view result ≡ declared_view declared }
{
    match declared {
        Declared::Void => GlobalDeclaration::Void,
        Declared::Declaration(declaration) => GlobalDeclaration::Declaration(declaration),
        Declared::Assert(assertion) => GlobalDeclaration::ConstAssert(assertion),
    }
}
