//! Declarations and directives (WGSL, "Directives", "Types", "Variable and Value Declarations" and "Functions").
use crate::attribute::Attributes;
use crate::expression::{ExpressionNode, TypeExpression};
use crate::span::Spanned;
use crate::statement::CompoundStatement;
use wesl_tree_names::Ident;

/// A directive (WGSL, "Directives").
#[derive(PartialEq)]
pub enum GlobalDirective {
    /// `diagnostic(severity, rule);`
    Diagnostic {
        /// its attributes, which only WESL has
        attributes: Attributes,
        /// `error`, `warning`, `info` or `off`
        severity: String,
        /// the name of the rule, of which the parts are joined by a dot
        rule: String,
    },
    /// `enable names;`
    Enable {
        /// its attributes, which only WESL has
        attributes: Attributes,
        /// the extensions that are enabled
        names: Vec<String>,
    },
    /// `requires names;`
    Requires {
        /// its attributes, which only WESL has
        attributes: Attributes,
        /// the language extensions that are needed
        names: Vec<String>,
    },
}

/// A directive with its span.
pub type GlobalDirectiveNode = Spanned<GlobalDirective>;

/// Where a variable's memory is (WGSL, "Address Spaces").
#[derive(Clone, Copy, Debug, PartialEq, Eq)]
pub enum AddressSpace {
    /// `function`
    Function,
    /// `private`
    Private,
    /// `workgroup`
    Workgroup,
    /// `uniform`
    Uniform,
    /// `storage`
    Storage,
    /// `handle`, which no source text says
    Handle,
}

/// How a variable's memory may be used (WGSL, "Memory Access Mode").
#[derive(Clone, Copy, Debug, PartialEq, Eq)]
pub enum AccessMode {
    /// `read`
    Read,
    /// `write`
    Write,
    /// `read_write`
    ReadWrite,
}

/// What a declaration declares (WGSL, "Variable and Value Declarations").
#[derive(Clone, Copy, Debug, PartialEq, Eq)]
pub enum DeclarationKind {
    /// `const`
    Const,
    /// `override`
    Override,
    /// `let`
    Let,
    /// `var`, `var<space>` or `var<space, access>`
    Var(Option<(AddressSpace, Option<AccessMode>)>),
}

/// `kind ident: ty = initializer;` in a module or a function.
#[derive(PartialEq)]
pub struct Declaration {
    /// its attributes
    pub attributes: Attributes,
    /// `const`, `override`, `let` or `var`
    pub kind: DeclarationKind,
    /// the declared name
    pub ident: Ident,
    /// its type, if that is written
    pub ty: Option<TypeExpression>,
    /// its first value, if there is one
    pub initializer: Option<ExpressionNode>,
}

/// `alias ident = ty;` (WGSL, "Type Aliases")
#[derive(PartialEq)]
pub struct TypeAlias {
    /// its attributes
    pub attributes: Attributes,
    /// the declared name
    pub ident: Ident,
    /// the type that it names
    pub ty: TypeExpression,
}

/// `name: ty` in a structure (WGSL, "Structure Types")
#[derive(PartialEq)]
pub struct StructMember {
    /// its attributes
    pub attributes: Attributes,
    /// the member's name, which declares nothing outside the structure
    pub name: String,
    /// its type
    pub ty: TypeExpression,
}

/// A member of a structure with its span.
pub type StructMemberNode = Spanned<StructMember>;

/// `struct ident { members }` (WGSL, "Structure Types")
#[derive(PartialEq)]
pub struct Struct {
    /// its attributes
    pub attributes: Attributes,
    /// the declared name
    pub ident: Ident,
    /// its members, in source order
    pub members: Vec<StructMemberNode>,
}

/// `ident: ty` among the parameters of a function (WGSL, "Functions")
#[derive(PartialEq)]
pub struct FormalParameter {
    /// its attributes
    pub attributes: Attributes,
    /// the declared name
    pub ident: Ident,
    /// its type
    pub ty: TypeExpression,
}

/// `fn ident(parameters) -> return_type body` (WGSL, "Functions")
#[derive(PartialEq)]
pub struct Function {
    /// its attributes
    pub attributes: Attributes,
    /// the declared name
    pub ident: Ident,
    /// its parameters, in source order
    pub parameters: Vec<FormalParameter>,
    /// the attributes of the return type
    pub return_attributes: Attributes,
    /// the return type, if it returns a value
    pub return_type: Option<TypeExpression>,
    /// its body
    pub body: CompoundStatement,
}

/// `const_assert expression;` in a module or a function (WGSL, "Const Assertion Statement")
#[derive(PartialEq)]
pub struct ConstAssert {
    /// its attributes
    pub attributes: Attributes,
    /// what has to be true
    pub expression: ExpressionNode,
}

/// What stands in a module after its imports and directives (WGSL, "Declaration and Scope").
#[derive(PartialEq)]
pub enum GlobalDeclaration {
    /// `;` alone
    Void,
    /// a variable or a value
    Declaration(Declaration),
    /// another name of a type
    TypeAlias(TypeAlias),
    /// a structure
    Struct(Struct),
    /// a function
    Function(Function),
    /// an assertion
    ConstAssert(ConstAssert),
}

/// A global declaration with its span.
pub type GlobalDeclarationNode = Spanned<GlobalDeclaration>;

impl Drop for GlobalDirective {
    fn drop(self) {
        match self {
            GlobalDirective::Diagnostic {
                attributes: _,
                severity: _,
                rule: _,
            } => {}
            GlobalDirective::Enable {
                attributes: _,
                names: _,
            } => {}
            GlobalDirective::Requires {
                attributes: _,
                names: _,
            } => {}
        }
    }
}

impl Drop for Declaration {
    fn drop(self) {
        let Declaration {
            attributes: _,
            kind: _,
            ident: _,
            ty: _,
            initializer: _,
        } = self;
    }
}

impl Drop for TypeAlias {
    fn drop(self) {
        let TypeAlias {
            attributes: _,
            ident: _,
            ty: _,
        } = self;
    }
}

impl Drop for StructMember {
    fn drop(self) {
        let StructMember {
            attributes: _,
            name: _,
            ty: _,
        } = self;
    }
}

impl Drop for Struct {
    fn drop(self) {
        let Struct {
            attributes: _,
            ident: _,
            members: _,
        } = self;
    }
}

impl Drop for FormalParameter {
    fn drop(self) {
        let FormalParameter {
            attributes: _,
            ident: _,
            ty: _,
        } = self;
    }
}

impl Drop for Function {
    fn drop(self) {
        let Function {
            attributes: _,
            ident: _,
            parameters: _,
            return_attributes: _,
            return_type: _,
            body: _,
        } = self;
    }
}

impl Drop for ConstAssert {
    fn drop(self) {
        let ConstAssert {
            attributes: _,
            expression: _,
        } = self;
    }
}

impl Drop for GlobalDeclaration {
    fn drop(self) {
        match self {
            GlobalDeclaration::Void => {}
            GlobalDeclaration::Declaration(_) => {}
            GlobalDeclaration::TypeAlias(_) => {}
            GlobalDeclaration::Struct(_) => {}
            GlobalDeclaration::Function(_) => {}
            GlobalDeclaration::ConstAssert(_) => {}
        }
    }
}
