//! Units: whole modules, each of whose identifiers has a name. With all that they are made of, under one name.
#![tactic(auto)]

mod clone;
pub mod laws;
mod unit;

pub use unit::TranslationUnit;
pub use wesl_tree_copies::TryClone;
pub use wesl_tree_interner::{Interner, NameId};
pub use wesl_tree_names::{
    CondCompError, Diagnostic, Error, Ident, ImportError, ModulePath, Names, PathOrigin,
    ResolveError, Span, ValidateError,
};
pub use wesl_tree_syntax::{
    AccessMode, AddressSpace, AssignmentOperator, Attribute, AttributeNode, Attributes,
    BinaryOperator, BreakIfStatement, CaseSelector, CompoundStatement, ConstAssert,
    ContinuingStatement, Declaration, DeclarationKind, ElseClause, ElseIfClause, Expression,
    ExpressionNode, FormalParameter, Function, FunctionCall, GlobalDeclaration,
    GlobalDeclarationNode, GlobalDirective, GlobalDirectiveNode, IfClause, Import, ImportContent,
    ImportItem, ImportStatement, ImportStatementNode, Literal, Spanned, Statement, StatementNode,
    Struct, StructMember, StructMemberNode, SwitchClause, TemplateArg, TypeAlias, TypeExpression,
    UnaryOperator,
};
