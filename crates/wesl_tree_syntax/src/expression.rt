//! Expressions and types (WGSL, "Expressions", and "Template Lists" for the arguments of types).
use crate::span::Spanned;
use wesl_tree_names::{Ident, ModulePath};

/// A unary operator (WGSL, "Expression Grammar Summary").
#[derive(Clone, Copy, Debug, PartialEq, Eq)]
pub enum UnaryOperator {
    /// `!`
    LogicalNegation,
    /// `-`
    Negation,
    /// `~`
    BitwiseComplement,
    /// `&`
    AddressOf,
    /// `*`
    Indirection,
}

/// A binary operator (WGSL, "Expression Grammar Summary").
#[derive(Clone, Copy, Debug, PartialEq, Eq)]
pub enum BinaryOperator {
    /// `||`
    ShortCircuitOr,
    /// `&&`
    ShortCircuitAnd,
    /// `+`
    Addition,
    /// `-`
    Subtraction,
    /// `*`
    Multiplication,
    /// `/`
    Division,
    /// `%`
    Remainder,
    /// `==`
    Equality,
    /// `!=`
    Inequality,
    /// `<`
    LessThan,
    /// `<=`
    LessThanEqual,
    /// `>`
    GreaterThan,
    /// `>=`
    GreaterThanEqual,
    /// `|`
    BitwiseOr,
    /// `&`
    BitwiseAnd,
    /// `^`
    BitwiseXor,
    /// `<<`
    ShiftLeft,
    /// `>>`
    ShiftRight,
}

/// A literal (WGSL, "Literals").
#[derive(Debug, PartialEq)]
pub enum Literal {
    /// `true` or `false`
    Bool(bool),
    /// a numeric literal, as it is written
    Text(String),
}

/// An expression with its span.
pub type ExpressionNode = Spanned<Expression>;

/// An expression (WGSL, "Expressions").
#[cycle(expression)]
#[derive(PartialEq)]
pub enum Expression {
    /// a literal value expression
    Literal(Literal),
    /// `(expression)`
    Parenthesized {
        /// what stands in the parentheses
        expression: Box<ExpressionNode>,
    },
    /// `base.component`: a member of a structure, or components of a vector
    NamedComponent {
        /// the value that is taken apart
        base: Box<ExpressionNode>,
        /// the name after the dot
        component: String,
    },
    /// `base[index]`
    Indexing {
        /// the array, vector or matrix
        base: Box<ExpressionNode>,
        /// which of its elements
        index: Box<ExpressionNode>,
    },
    /// `operator operand`
    Unary {
        /// the operator
        operator: UnaryOperator,
        /// the expression after it
        operand: Box<ExpressionNode>,
    },
    /// `left operator right`
    Binary {
        /// the operator
        operator: BinaryOperator,
        /// the expression before it
        left: Box<ExpressionNode>,
        /// the expression after it
        right: Box<ExpressionNode>,
    },
    /// a function call expression or a value constructor
    FunctionCall(FunctionCall),
    /// a type, or the name of a value: which of them, only its declaration tells
    TypeOrIdentifier(TypeExpression),
}

/// A call of a function or of a type's constructor, `ty(arguments)`.
#[cycle(expression)]
#[derive(PartialEq)]
pub struct FunctionCall {
    /// the function or the type
    pub ty: TypeExpression,
    /// its arguments, in source order
    pub arguments: Vec<ExpressionNode>,
}

/// A name with its template arguments, `path::ident<template_args>`: a type, a value or a function.
/// The path is WESL's ("Imports").
#[cycle(expression)]
#[derive(PartialEq)]
pub struct TypeExpression {
    /// the path of the module that declares it, where the name is qualified
    pub path: Option<Box<ModulePath>>,
    /// the name
    pub ident: Ident,
    /// the template list after the name, if there is one, also an empty one
    pub template_args: Option<Vec<TemplateArg>>,
}

/// An argument of a template list.
#[cycle(expression)]
#[derive(PartialEq)]
pub struct TemplateArg {
    /// a type or a value
    pub expression: ExpressionNode,
}

impl Drop for Literal {
    fn drop(self) {
        match self {
            Literal::Bool(_) => {}
            Literal::Text(_) => {}
        }
    }
}

impl Drop for Expression {
    #[cycle(letting_expression_go)]
    fn drop(self) {
        match self {
            Expression::Literal(_) => {}
            Expression::Parenthesized { expression: _ } => {}
            Expression::NamedComponent {
                base: _,
                component: _,
            } => {}
            Expression::Indexing { base: _, index: _ } => {}
            Expression::Unary {
                operator: _,
                operand: _,
            } => {}
            Expression::Binary {
                operator: _,
                left: _,
                right: _,
            } => {}
            Expression::FunctionCall(_) => {}
            Expression::TypeOrIdentifier(_) => {}
        }
    }
}

impl Drop for FunctionCall {
    #[cycle(letting_expression_go)]
    fn drop(self) {
        let FunctionCall {
            ty: _,
            arguments: _,
        } = self;
    }
}

impl Drop for TypeExpression {
    #[cycle(letting_expression_go)]
    fn drop(self) {
        let TypeExpression {
            path: _,
            ident: _,
            template_args: _,
        } = self;
    }
}

impl Drop for TemplateArg {
    #[cycle(letting_expression_go)]
    fn drop(self) {
        let TemplateArg { expression: _ } = self;
    }
}
