//! What has nodes below it that can be collected.
ghost use Rattle.std.specs.Prelude.{◌≡◌, IfErr, IfOk};
ghost use Rattle.wesl_tree_names.specs.declared.errors.Error as error;
ghost use Rattle.wesl_visit_collect.specs.Lent.{views};
ghost use Rattle.wesl_visit_collect.specs.Walk.{strictly};

use std::alloc::Global;
use wesl_tree::TranslationUnit;
use wesl_tree_names::Error;
use wesl_tree_syntax::{
    Attribute, ConstAssert, Declaration, Expression, Function, GlobalDeclaration, Spanned,
    Statement, Struct, StructMember, TypeAlias, TypeExpression,
};
use wesl_visit_collect::{
    Collected, Kind, in_alias, in_assert, in_attribute, in_declaration, in_declarations,
    in_directives, in_expression, in_function, in_global, in_imports, in_member, in_statement,
    in_struct, in_type,
};
use wesl_visit_rewrite::Holder;

/// A part of a tree from which the nodes below it can be collected.
pub trait Collect: Holder {
    /// The nodes of a kind that lie strictly below, in document order: the outermost ones, or with `deep` also those
    /// inside them. Refused for want of memory alone.
    fn collect<'a, T: Kind>(&'a self, alloc: Global, deep: bool) -> Result<Vec<&'a T>, Error>
        ensures listed { IfOk result (λ nodes. views T.view nodes.items ≡ strictly T.sought deep (Self.tree self.now)) }
        ensures refused { IfErr result (λ e. e ≡ error.Memory) };
}

impl Collect for Expression {
    fn collect<'a, T: Kind>(&'a self, alloc: Global, deep: bool) -> Result<Vec<&'a T>, Error> {
        let mut found = Collected::new(alloc, deep);
        in_expression(self, &mut found);
        found.end()
    }
}

impl Collect for TypeExpression {
    fn collect<'a, T: Kind>(&'a self, alloc: Global, deep: bool) -> Result<Vec<&'a T>, Error> {
        let mut found = Collected::new(alloc, deep);
        in_type(self, &mut found);
        found.end()
    }
}

impl Collect for Statement {
    fn collect<'a, T: Kind>(&'a self, alloc: Global, deep: bool) -> Result<Vec<&'a T>, Error> {
        let mut found = Collected::new(alloc, deep);
        in_statement(self, &mut found);
        found.end()
    }
}

impl Collect for Attribute {
    fn collect<'a, T: Kind>(&'a self, alloc: Global, deep: bool) -> Result<Vec<&'a T>, Error> {
        let mut found = Collected::new(alloc, deep);
        in_attribute(self, &mut found);
        found.end()
    }
}

impl Collect for GlobalDeclaration {
    fn collect<'a, T: Kind>(&'a self, alloc: Global, deep: bool) -> Result<Vec<&'a T>, Error> {
        let mut found = Collected::new(alloc, deep);
        in_global(self, &mut found);
        found.end()
    }
}

impl Collect for Declaration {
    fn collect<'a, T: Kind>(&'a self, alloc: Global, deep: bool) -> Result<Vec<&'a T>, Error> {
        let mut found = Collected::new(alloc, deep);
        in_declaration(self, &mut found);
        found.end()
    }
}

impl Collect for TypeAlias {
    fn collect<'a, T: Kind>(&'a self, alloc: Global, deep: bool) -> Result<Vec<&'a T>, Error> {
        let mut found = Collected::new(alloc, deep);
        in_alias(self, &mut found);
        found.end()
    }
}

impl Collect for Struct {
    fn collect<'a, T: Kind>(&'a self, alloc: Global, deep: bool) -> Result<Vec<&'a T>, Error> {
        let mut found = Collected::new(alloc, deep);
        in_struct(self, &mut found);
        found.end()
    }
}

impl Collect for StructMember {
    fn collect<'a, T: Kind>(&'a self, alloc: Global, deep: bool) -> Result<Vec<&'a T>, Error> {
        let mut found = Collected::new(alloc, deep);
        in_member(self, &mut found);
        found.end()
    }
}

impl Collect for Function {
    fn collect<'a, T: Kind>(&'a self, alloc: Global, deep: bool) -> Result<Vec<&'a T>, Error> {
        let mut found = Collected::new(alloc, deep);
        in_function(self, &mut found);
        found.end()
    }
}

impl Collect for ConstAssert {
    fn collect<'a, T: Kind>(&'a self, alloc: Global, deep: bool) -> Result<Vec<&'a T>, Error> {
        let mut found = Collected::new(alloc, deep);
        in_assert(self, &mut found);
        found.end()
    }
}

/// A node with its span has what its plain node has.
impl<N: Collect> Collect for Spanned<N> {
    fn collect<'a, T: Kind>(&'a self, alloc: Global, deep: bool) -> Result<Vec<&'a T>, Error> {
        self.node.collect(alloc, deep)
    }
}

impl Collect for TranslationUnit {
    fn collect<'a, T: Kind>(&'a self, alloc: Global, deep: bool) -> Result<Vec<&'a T>, Error> {
        let mut found = Collected::new(alloc, deep);
        in_imports(self.imports(), &mut found);
        in_directives(self.global_directives(), &mut found);
        in_declarations(self.global_declarations(), &mut found);
        found.end()
    }
}
