//! The nodes that stand in judged lists, and what closes them.
ghost use Rattle.wesl_tree_syntax.specs.Tree.{declaration_node, directive_node, import_node, member_node};
ghost use Rattle.wesl_tree_syntax.specs.View.{break_if_view, clause_view, continuing_view, directive_view, global_view, import_view, member_view, parameter_view, placed, statement_tree};

use crate::conditions::recast;
use crate::lists::Conditional;
use wesl_cond_features::{Features, Role};
use wesl_tree_names::{Names, Span};
use wesl_tree_syntax::{
    AttributeNode, BreakIfStatement, CompoundStatement, ContinuingStatement, FormalParameter,
    GlobalDeclaration, GlobalDirective, ImportStatement, Spanned, Statement, StructMember,
    SwitchClause,
};

impl Conditional for Spanned<ImportStatement> {
    ghost tree = { placed import_view import_node };

    fn is_void(&self) -> bool {
        false
    }

    fn span(&self) -> Span {
        self.span
    }

    fn attributes(&self) -> &[AttributeNode] {
        &self.node.attributes
    }

    fn recast(&mut self, role: Role, names: &Names, features: &Features) {
        recast(&mut self.node.attributes, role, names, features);
    }
}

impl Conditional for Spanned<StructMember> {
    ghost tree = { placed member_view member_node };

    fn is_void(&self) -> bool {
        false
    }

    fn span(&self) -> Span {
        self.span
    }

    fn attributes(&self) -> &[AttributeNode] {
        &self.node.attributes
    }

    fn recast(&mut self, role: Role, names: &Names, features: &Features) {
        recast(&mut self.node.attributes, role, names, features);
    }
}

impl Conditional for FormalParameter {
    ghost tree = { parameter_view };

    fn is_void(&self) -> bool {
        false
    }

    fn span(&self) -> Span {
        Span { start: 0, end: 0 }
    }

    fn attributes(&self) -> &[AttributeNode] {
        &self.attributes
    }

    fn recast(&mut self, role: Role, names: &Names, features: &Features) {
        recast(&mut self.attributes, role, names, features);
    }
}

impl Conditional for SwitchClause {
    ghost tree = { clause_view };

    fn is_void(&self) -> bool {
        false
    }

    fn span(&self) -> Span {
        Span { start: 0, end: 0 }
    }

    fn attributes(&self) -> &[AttributeNode] {
        &self.attributes
    }

    fn recast(&mut self, role: Role, names: &Names, features: &Features) {
        recast(&mut self.attributes, role, names, features);
    }
}

impl Conditional for ContinuingStatement {
    ghost tree = { continuing_view };

    fn is_void(&self) -> bool {
        false
    }

    fn span(&self) -> Span {
        Span { start: 0, end: 0 }
    }

    fn attributes(&self) -> &[AttributeNode] {
        &self.attributes
    }

    fn recast(&mut self, role: Role, names: &Names, features: &Features) {
        recast(&mut self.attributes, role, names, features);
    }
}

impl Conditional for BreakIfStatement {
    ghost tree = { break_if_view };

    fn is_void(&self) -> bool {
        false
    }

    fn span(&self) -> Span {
        Span { start: 0, end: 0 }
    }

    fn attributes(&self) -> &[AttributeNode] {
        &self.attributes
    }

    fn recast(&mut self, role: Role, names: &Names, features: &Features) {
        recast(&mut self.attributes, role, names, features);
    }
}

impl Conditional for Spanned<GlobalDirective> {
    ghost tree = { placed directive_view directive_node };

    fn is_void(&self) -> bool {
        false
    }

    fn span(&self) -> Span {
        self.span
    }

    fn attributes(&self) -> &[AttributeNode] {
        match &self.node {
            GlobalDirective::Diagnostic { attributes, .. }
            | GlobalDirective::Enable { attributes, .. }
            | GlobalDirective::Requires { attributes, .. } => attributes,
        }
    }

    fn recast(&mut self, role: Role, names: &Names, features: &Features) {
        match &mut self.node {
            GlobalDirective::Diagnostic { attributes, .. } => {
                recast(attributes, role, names, features)
            }
            GlobalDirective::Enable { attributes, .. } => recast(attributes, role, names, features),
            GlobalDirective::Requires { attributes, .. } => {
                recast(attributes, role, names, features)
            }
        }
    }
}

impl Conditional for Spanned<GlobalDeclaration> {
    ghost tree = { placed global_view declaration_node };

    fn is_void(&self) -> bool {
        match &self.node {
            GlobalDeclaration::Void => true,
            GlobalDeclaration::Declaration(_)
            | GlobalDeclaration::TypeAlias(_)
            | GlobalDeclaration::Struct(_)
            | GlobalDeclaration::Function(_)
            | GlobalDeclaration::ConstAssert(_) => false,
        }
    }

    fn span(&self) -> Span {
        self.span
    }

    fn attributes(&self) -> &[AttributeNode] {
        match &self.node {
            GlobalDeclaration::Void => &[],
            GlobalDeclaration::Declaration(declaration) => &declaration.attributes,
            GlobalDeclaration::TypeAlias(alias) => &alias.attributes,
            GlobalDeclaration::Struct(structure) => &structure.attributes,
            GlobalDeclaration::Function(function) => &function.attributes,
            GlobalDeclaration::ConstAssert(assertion) => &assertion.attributes,
        }
    }

    fn recast(&mut self, role: Role, names: &Names, features: &Features) {
        match &mut self.node {
            GlobalDeclaration::Void => {}
            GlobalDeclaration::Declaration(declaration) => {
                recast(&mut declaration.attributes, role, names, features)
            }
            GlobalDeclaration::TypeAlias(alias) => {
                recast(&mut alias.attributes, role, names, features)
            }
            GlobalDeclaration::Struct(structure) => {
                recast(&mut structure.attributes, role, names, features)
            }
            GlobalDeclaration::Function(function) => {
                recast(&mut function.attributes, role, names, features)
            }
            GlobalDeclaration::ConstAssert(assertion) => {
                recast(&mut assertion.attributes, role, names, features)
            }
        }
    }
}

impl Conditional for Spanned<Statement> {
    ghost tree = { statement_tree };

    fn is_void(&self) -> bool {
        match &self.node {
            Statement::Void => true,
            _ => false,
        }
    }

    fn span(&self) -> Span {
        self.span
    }

    #[tactic(auto, using(wesl_tree_syntax::proofs::Views::view_compound))]
    fn attributes(&self) -> &[AttributeNode] {
        match &self.node {
            Statement::Void => &[],
            Statement::Compound(body) => &body.attributes,
            Statement::Assignment { attributes, .. }
            | Statement::Increment { attributes, .. }
            | Statement::Decrement { attributes, .. }
            | Statement::If { attributes, .. }
            | Statement::Switch { attributes, .. }
            | Statement::Loop { attributes, .. }
            | Statement::For { attributes, .. }
            | Statement::While { attributes, .. }
            | Statement::Break { attributes, .. }
            | Statement::Continue { attributes, .. }
            | Statement::Return { attributes, .. }
            | Statement::Discard { attributes, .. }
            | Statement::FunctionCall { attributes, .. } => attributes,
            Statement::ConstAssert(assertion) => &assertion.attributes,
            Statement::Declaration(declaration) => &declaration.attributes,
        }
    }

    #[tactic(auto, using(wesl_tree_syntax::proofs::Views::view_compound))]
    fn recast(&mut self, role: Role, names: &Names, features: &Features) {
        match &mut self.node {
            Statement::Void => {}
            Statement::Compound(body) => recast(&mut body.attributes, role, names, features),
            Statement::Assignment { attributes, .. } => recast(attributes, role, names, features),
            Statement::Increment { attributes, .. } => recast(attributes, role, names, features),
            Statement::Decrement { attributes, .. } => recast(attributes, role, names, features),
            Statement::If { attributes, .. } => recast(attributes, role, names, features),
            Statement::Switch { attributes, .. } => recast(attributes, role, names, features),
            Statement::Loop { attributes, .. } => recast(attributes, role, names, features),
            Statement::For { attributes, .. } => recast(attributes, role, names, features),
            Statement::While { attributes, .. } => recast(attributes, role, names, features),
            Statement::Break { attributes } => recast(attributes, role, names, features),
            Statement::Continue { attributes } => recast(attributes, role, names, features),
            Statement::Return { attributes, .. } => recast(attributes, role, names, features),
            Statement::Discard { attributes } => recast(attributes, role, names, features),
            Statement::FunctionCall { attributes, .. } => recast(attributes, role, names, features),
            Statement::ConstAssert(assertion) => {
                recast(&mut assertion.attributes, role, names, features)
            }
            Statement::Declaration(declaration) => {
                recast(&mut declaration.attributes, role, names, features)
            }
        }
    }
}
