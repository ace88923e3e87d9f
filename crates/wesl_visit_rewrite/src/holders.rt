//! What has nodes below it.
ghost use Rattle.std.specs.Prelude.{[], ◌∷◌, ◌≡◌, List, None, Option, Some, length};
ghost use Rattle.wesl_tree_base.specs.declared.span.Span.{Span};
ghost use Rattle.wesl_tree_names.specs.Path.{Text};
ghost use Rattle.wesl_visit_rewrite.specs.Holders.{KeepsNumbers, unit_tree};
ghost use Rattle.wesl_visit_rewrite.specs.Replaced.{rule};
ghost use Rattle.wesl_visit_rewrite.specs.Went.{WentBelow};
ghost use Rattle.wesl_tree_syntax.specs.Tree.{Tree};
ghost use Rattle.wesl_tree_syntax.specs.View.{alias_view, assert_view, attribute_view, declaration_view, expression_view, function_view, global_view, member_view, statement_view, struct_view, type_view};
ghost use Rattle.wesl_tree.specs.Translation.{unit_view};

use crate::replace::{attribute, declaration, expression, statement};
use std::alloc::Global;
use std::mem;
use wesl_tree::TranslationUnit;
use wesl_tree_syntax::{
    Attribute, ConstAssert, Declaration, Expression, Function, GlobalDeclaration, Spanned,
    Statement, Struct, StructMember, TypeAlias, TypeExpression,
};
use wesl_visit_collect::{Replace, Rewrite, law_of_variants};

/// A part of a tree that has nodes below it.
///
/// `tree` is what it says. `table` is its table of names, where it has one. `spans` are those that it carries itself, the
/// outermost first: none where it is a plain node.
pub trait Holder {
    ghost tree: { Self → Tree };

    ghost table: { Self → Option (List Text) };

    ghost spans: { Self → List Span };

    /// Replaces the nodes of a kind that lie strictly below: the outermost ones as they stand, or with `deep` all of
    /// them, those inside a node before it. Answers whether the rewriter refused none.
    fn replace<T: Replace, R: Rewrite<T>>(
        &mut self,
        alloc: Global,
        deep: bool,
        rewriter: &mut R,
    ) -> bool
        requires numbers { KeepsNumbers (table self.old) R.rewrites }
        ensures replaced { WentBelow (rule T.Kind.sought R.rewrites deep) (tree self.old) result (tree self.new) }
        ensures named { table self.new ≡ table self.old }
        ensures same_spans { spans self.new ≡ spans self.old };
}

impl Holder for Expression {
    ghost tree = { expression_view };

    ghost table = { λ _. None };

    ghost spans = { λ _. [] };

    fn replace<T: Replace, R: Rewrite<T>>(
        &mut self,
        _: Global,
        deep: bool,
        rewriter: &mut R,
    ) -> bool {
        law_of_variants();
        expression::in_expression(self, deep, rewriter, true)
    }
}

impl Holder for TypeExpression {
    ghost tree = { type_view };

    ghost table = { λ _. None };

    ghost spans = { λ _. [] };

    fn replace<T: Replace, R: Rewrite<T>>(
        &mut self,
        _: Global,
        deep: bool,
        rewriter: &mut R,
    ) -> bool {
        expression::in_type(self, deep, rewriter, true)
    }
}

impl Holder for Statement {
    ghost tree = { statement_view };

    ghost table = { λ _. None };

    ghost spans = { λ _. [] };

    fn replace<T: Replace, R: Rewrite<T>>(
        &mut self,
        _: Global,
        deep: bool,
        rewriter: &mut R,
    ) -> bool {
        law_of_variants();
        statement::in_statement(self, deep, rewriter, true)
    }
}

impl Holder for Attribute {
    ghost tree = { attribute_view };

    ghost table = { λ _. None };

    ghost spans = { λ _. [] };

    fn replace<T: Replace, R: Rewrite<T>>(
        &mut self,
        _: Global,
        deep: bool,
        rewriter: &mut R,
    ) -> bool {
        law_of_variants();
        attribute::in_attribute(self, deep, rewriter, true)
    }
}

impl Holder for GlobalDeclaration {
    ghost tree = { global_view };

    ghost table = { λ _. None };

    ghost spans = { λ _. [] };

    fn replace<T: Replace, R: Rewrite<T>>(
        &mut self,
        _: Global,
        deep: bool,
        rewriter: &mut R,
    ) -> bool {
        law_of_variants();
        declaration::in_global(self, deep, rewriter, true)
    }
}

impl Holder for Declaration {
    ghost tree = { declaration_view };

    ghost table = { λ _. None };

    ghost spans = { λ _. [] };

    fn replace<T: Replace, R: Rewrite<T>>(
        &mut self,
        _: Global,
        deep: bool,
        rewriter: &mut R,
    ) -> bool {
        statement::in_declaration(self, deep, rewriter, true)
    }
}

impl Holder for TypeAlias {
    ghost tree = { alias_view };

    ghost table = { λ _. None };

    ghost spans = { λ _. [] };

    fn replace<T: Replace, R: Rewrite<T>>(
        &mut self,
        _: Global,
        deep: bool,
        rewriter: &mut R,
    ) -> bool {
        declaration::in_alias(self, deep, rewriter, true)
    }
}

impl Holder for Struct {
    ghost tree = { struct_view };

    ghost table = { λ _. None };

    ghost spans = { λ _. [] };

    fn replace<T: Replace, R: Rewrite<T>>(
        &mut self,
        _: Global,
        deep: bool,
        rewriter: &mut R,
    ) -> bool {
        declaration::in_struct(self, deep, rewriter, true)
    }
}

impl Holder for StructMember {
    ghost tree = { member_view };

    ghost table = { λ _. None };

    ghost spans = { λ _. [] };

    fn replace<T: Replace, R: Rewrite<T>>(
        &mut self,
        _: Global,
        deep: bool,
        rewriter: &mut R,
    ) -> bool {
        declaration::in_member(self, deep, rewriter, true)
    }
}

impl Holder for Function {
    ghost tree = { function_view };

    ghost table = { λ _. None };

    ghost spans = { λ _. [] };

    fn replace<T: Replace, R: Rewrite<T>>(
        &mut self,
        _: Global,
        deep: bool,
        rewriter: &mut R,
    ) -> bool {
        declaration::in_function(self, deep, rewriter, true)
    }
}

impl Holder for ConstAssert {
    ghost tree = { assert_view };

    ghost table = { λ _. None };

    ghost spans = { λ _. [] };

    fn replace<T: Replace, R: Rewrite<T>>(
        &mut self,
        _: Global,
        deep: bool,
        rewriter: &mut R,
    ) -> bool {
        statement::in_assert(self, deep, rewriter, true)
    }
}

/// A node with its span has what its plain node has.
impl<N: Holder> Holder for Spanned<N> {
    ghost tree = { λ n. N.tree n.node };

    ghost table = { λ n. N.table n.node };

    ghost spans = { λ n. n.span ∷ N.spans n.node };

    fn replace<T: Replace, R: Rewrite<T>>(
        &mut self,
        alloc: Global,
        deep: bool,
        rewriter: &mut R,
    ) -> bool {
        self.node.replace(alloc, deep, rewriter)
    }
}

/// The unit is taken apart and put together again without memory.
impl Holder for TranslationUnit {
    ghost tree = { λ u. unit_tree (unit_view u) };

    ghost table = { λ u. Some (unit_view u).names };

    ghost spans = { λ _. [] };

    fn replace<T: Replace, R: Rewrite<T>>(
        &mut self,
        alloc: Global,
        deep: bool,
        rewriter: &mut R,
    ) -> bool {
        let whole = mem::replace(self, TranslationUnit::new(alloc));
        let (names, mut imports, mut directives, mut declarations) = whole.into_parts();
        let goes = declaration::in_imports(&mut imports, deep, rewriter, true);
        let goes = declaration::in_directives(&mut directives, deep, rewriter, goes);
        let goes = declaration::in_declarations(&mut declarations, deep, rewriter, goes);
        *self = TranslationUnit::from_parts(names, imports, directives, declarations).unwrap();
        goes
    }
}
