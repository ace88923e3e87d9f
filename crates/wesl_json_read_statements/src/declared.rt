//! Reading what stands in modules and in functions: variables, values and assertions (WGSL, "Variable and Value
//! Declarations" and "Const Assertion Statement").
ghost use Rattle.std.specs.Prelude.{◌≡◌, [], codes};
ghost use Rattle.wesl_json_form.specs.View.{borrowed_view};
ghost use Rattle.wesl_tree_syntax.specs.Tree.{branch};
ghost use Rattle.wesl_tree_syntax.specs.View.{access_tree, declaration_view, kind_tree, optional as option_view, statement_view};
ghost use Rattle.wesl_json_form.specs.Schema.{leaf, one_of};
ghost use Rattle.wesl_json_form.specs.Words.{access_words};
ghost use Rattle.wesl_json_read.specs.Noted.{NotesMay};
ghost use Rattle.wesl_json_read_statements.specs.declared.words.DeclaredWord.TheVariants as declareds;
ghost use Rattle.wesl_json_read_statements.specs.Forms.{value_kind};
ghost use Rattle.wesl_json_read_statements.specs.Noted.{NotesDeclared, NotesSpace};
ghost use Rattle.wesl_json_read_statements.specs.Views.{declared_view};

use crate::words::{DeclaredWord, ValueWord, access_mode, address_space};
use wesl_json_form::BorrowedValue;
use wesl_json_read::Reader;
use wesl_tree_syntax::{
    AccessMode, AddressSpace, ConstAssert, Declaration, DeclarationKind, Statement,
};

/// What stands in modules and in functions.
#[derive(Drop)]
pub enum Declared {
    /// `;` alone
    Void,
    /// a variable or a value
    Declaration(Declaration),
    /// an assertion
    Assert(ConstAssert),
}

/// The statement that this is.
pub(crate) fn statement_of(declared: Declared) -> Statement
    ensures { statement_view result ≡ declared_view declared }
{
    match declared {
        Declared::Void => Statement::Void,
        Declared::Declaration(declaration) => Statement::Declaration(declaration),
        Declared::Assert(assertion) => Statement::ConstAssert(assertion),
    }
}

/// What an object with the word is.
pub fn read_declared(reader: &mut Reader, value: &BorrowedValue<'_>, word: DeclaredWord) -> Declared
    ensures { NotesDeclared word (borrowed_view value.now) (declared_view result) reader.old reader.new }
{
    match word {
        DeclaredWord::Value(word) => Declared::Declaration(constant(reader, value, word)),
        DeclaredWord::Var => Declared::Declaration(variable(reader, value)),
        DeclaredWord::Assert => {
            reader.keys(value, reader.spans, &["k", "attrs", "expr"]);
            Declared::Assert(ConstAssert {
                attributes: reader.attributes(value, "attrs"),
                expression: reader.expression_at(value, "expr"),
            })
        }
        DeclaredWord::Void => {
            reader.keys(value, reader.spans, &["k"]);
            Declared::Void
        }
    }
}

// A value, by its word.
fn constant(reader: &mut Reader, value: &BorrowedValue<'_>, word: ValueWord) -> Declaration
    ensures { NotesDeclared (declareds.Value word) (borrowed_view value.now) (declaration_view result) reader.old reader.new }
{
    reader.keys(value, reader.spans, &["k", "attrs", "name", "ty", "init"]);
    Declaration {
        attributes: reader.attributes(value, "attrs"),
        kind: kind_of(word),
        ident: reader.ident_at(value, "name"),
        ty: reader.optional_type(value, "ty"),
        initializer: reader.optional_expression(value, "init"),
    }
}

fn kind_of(word: ValueWord) -> DeclarationKind
    ensures { kind_tree result ≡ branch (value_kind word) [] }
{
    match word {
        ValueWord::Const => DeclarationKind::Const,
        ValueWord::Override => DeclarationKind::Override,
        ValueWord::Let => DeclarationKind::Let,
    }
}

// A variable. An access mode stands only with an address space.
fn variable(reader: &mut Reader, value: &BorrowedValue<'_>) -> Declaration
    ensures { NotesDeclared declareds.Var (borrowed_view value.now) (declaration_view result) reader.old reader.new }
{
    if value.get("space").is_some() {
        let known = &["k", "attrs", "space", "access", "name", "ty", "init"];
        reader.keys(value, reader.spans, known);
        let attributes = reader.attributes(value, "attrs");
        let space = space(reader, value);
        let access = access(reader, value);
        Declaration {
            attributes,
            kind: DeclarationKind::Var(Some((space, access))),
            ident: reader.ident_at(value, "name"),
            ty: reader.optional_type(value, "ty"),
            initializer: reader.optional_expression(value, "init"),
        }
    } else {
        reader.keys(value, reader.spans, &["k", "attrs", "name", "ty", "init"]);
        Declaration {
            attributes: reader.attributes(value, "attrs"),
            kind: DeclarationKind::Var(None),
            ident: reader.ident_at(value, "name"),
            ty: reader.optional_type(value, "ty"),
            initializer: reader.optional_expression(value, "init"),
        }
    }
}

// The address space at `space`.
fn space(reader: &mut Reader, value: &BorrowedValue<'_>) -> AddressSpace
    ensures { NotesSpace (borrowed_view value.now) result reader.old reader.new }
{
    let Some(word) = reader.required(value, "space") else {
        return AddressSpace::Private;
    };
    match word.as_str().and_then(address_space) {
        Some(space) => space,
        None => {
            reader.wrong();
            reader.within("space");
            AddressSpace::Private
        }
    }
}

// The access mode at `access`, an option.
fn access(reader: &mut Reader, value: &BorrowedValue<'_>) -> Option<AccessMode>
    ensures { NotesMay (codes "access") (leaf (one_of access_words)) (borrowed_view value.now) (option_view access_tree result) reader.old reader.new }
{
    let Some(word) = reader.optional(value, "access") else {
        return None;
    };
    match word.as_str().and_then(access_mode) {
        Some(mode) => Some(mode),
        None => {
            reader.wrong();
            reader.within("access");
            None
        }
    }
}
