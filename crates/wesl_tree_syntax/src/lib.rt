//! Syntax trees of shader modules (WGSL, with the imports and conditional parts of WESL).
#![tactic(auto)]

mod attribute;
mod declaration;
mod expression;
mod import;
mod span;
mod statement;

pub use attribute::{Attribute, AttributeNode, Attributes};
pub use declaration::{
    AccessMode, AddressSpace, ConstAssert, Declaration, DeclarationKind, FormalParameter, Function,
    GlobalDeclaration, GlobalDeclarationNode, GlobalDirective, GlobalDirectiveNode, Struct,
    StructMember, StructMemberNode, TypeAlias,
};
pub use expression::{
    BinaryOperator, Expression, ExpressionNode, FunctionCall, Literal, TemplateArg, TypeExpression,
    UnaryOperator,
};
pub use import::{Import, ImportContent, ImportItem, ImportStatement, ImportStatementNode};
pub use span::{Spanned, law_of_equality};
pub use statement::{
    AssignmentOperator, BreakIfStatement, CaseSelector, CompoundStatement, ContinuingStatement,
    ElseClause, ElseIfClause, IfClause, Statement, StatementNode, SwitchClause,
};
