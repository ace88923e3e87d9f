//! Visits and rewriting of the nodes of a kind below a holder.
//!
//! A row has a unit. Its holder is the unit, its first global declaration or a part of that; its kind is one of types,
//! expressions, statements and lists of attributes. The answer lists the nodes that are met, and has the unit afterwards,
//! with its places where the row's unit has them.
ghost use Rattle.std.specs.Prelude.{◌≡◌};

use serde_json::Value;
use std::mem;
use wesl_rows_base::{List, Object, Row, is_refused};
use wesl_tree::{
    Attributes, Declaration, Error, Expression, ExpressionNode, GlobalDeclaration,
    GlobalDeclarationNode, Ident, Names, Span, Spanned, Statement, StatementNode, TemplateArg,
    TranslationUnit, TypeExpression,
};
use wesl_visit::{Kind, Replace, Rewrite, Visit, Visitor};

/// A node that is told in a few words.
trait Shown {
    /// The words.
    fn shown(&self, row: Row<'_>, names: &Names) -> Value;
}

/// A type as its name.
impl Shown for TypeExpression {
    fn shown(&self, row: Row<'_>, names: &Names) -> Value {
        if self.ident.0 < names.len() {
            row.text_value(names.name(self.ident))
        } else {
            Value::Null
        }
    }
}

/// A name as itself, an element of an array as `[]`, and null for all else.
impl Shown for ExpressionNode {
    fn shown(&self, row: Row<'_>, names: &Names) -> Value {
        match &self.node {
            Expression::TypeOrIdentifier(ty) => ty.shown(row, names),
            Expression::Indexing { base: _, index: _ } => row.text_value("[]"),
            _ => Value::Null,
        }
    }
}

/// An assignment as its two sides, and null for all else.
impl Shown for StatementNode {
    fn shown(&self, row: Row<'_>, names: &Names) -> Value {
        match &self.node {
            Statement::Assignment {
                attributes: _,
                operator: _,
                lhs,
                rhs,
            } => {
                let mut sides = List::new(row.alloc);
                sides.put(lhs.shown(row, names));
                sides.put(rhs.shown(row, names));
                sides.end(row)
            }
            _ => Value::Null,
        }
    }
}

/// A list of attributes as its length.
impl Shown for Attributes {
    fn shown(&self, _: Row<'_>, _: &Names) -> Value {
        Value::from(self.len())
    }
}

/// Lists the nodes that it meets, as many as it is told, and leaves them as they are.
#[derive(Drop)]
struct Met<'a> {
    row: Row<'a>,
    names: &'a Names,
    nodes: Vec<Value>,
    left: usize,
}

impl Met<'_> {
    /// Lists a node, and tells whether it did: no more than so many may be met.
    fn list<T: Shown>(&mut self, node: &T) -> bool {
        let is_listed = self.left > 0;
        if is_listed {
            self.left -= 1;
            self.row
                .push(&mut self.nodes, node.shown(self.row, self.names));
        }
        is_listed
    }

    /// Lists the nodes that a call collects, and tells whether that was refused.
    fn all<T: Shown>(&mut self, found: Result<Vec<&T>, Error>) -> bool {
        let nodes = self.row.or(found, Vec::new(self.row.alloc));
        let mut is_refused = false;
        for node in nodes.as_slice() {
            is_refused |= !self.list(*node);
        }
        is_refused
    }
}

impl<T: Kind + Shown> Visitor<T> for Met<'_> {
    ghost meets = { λ old node new. Unit {0} };

    ghost unchanged = { λ old new. Unit {0} };

    fn meet(&mut self, node: &T) -> Result<(), Error> {
        if self.list(node) {
            Ok(())
        } else {
            Err(Error::Memory)
        }
    }

    ghost stays = { λ visitor. tt };
}

impl<T: Kind + Shown> Rewrite<T> for Met<'_> {
    ghost rewrites = { λ before after. after ≡ before };

    fn rewrite(&mut self, node: &mut T) -> Result<(), Error> {
        if self.list(node) {
            Ok(())
        } else {
            Err(Error::Memory)
        }
    }
}

/// Meets the nodes of a kind below a holder, as the call of the row does, and tells whether it was refused, as all that
/// call it do.
fn walk<T: Replace + Shown + Visit<T>, N: Visit<T>>(holder: &mut N, met: &mut Met) -> bool {
    let alloc = met.row.alloc;
    match met.row.text("call") {
        "Visit::visit" => met.all(holder.visit(alloc)),
        "Visit::visit_rec" => is_refused(holder.visit_rec(alloc, met)),
        "Visit::rewrite" => is_refused(holder.rewrite(alloc, met)),
        _ => is_refused(holder.rewrite_rec(alloc, met)),
    }
}

/// Meets the lists of attributes below a holder, as the call of the row does. None stands in another, so the deep calls meet
/// the same, and `visit_rec` and `rewrite_rec` are there for the other kinds alone.
fn walk_lists<N: Visit<Attributes>>(holder: &mut N, met: &mut Met) -> bool {
    let alloc = met.row.alloc;
    match met.row.text("call") {
        "Visit::rewrite" => is_refused(holder.rewrite(alloc, met)),
        "Holder::replace with deep" => !holder.replace::<Attributes, Met>(alloc, true, met),
        "Collect::collect with deep" => met.all(holder.collect::<Attributes>(alloc, true)),
        _ => met.all(holder.visit(alloc)),
    }
}

/// Meets the nodes of the kind of the row below a holder of all kinds.
fn walk_kinds<N>(holder: &mut N, met: &mut Met) -> bool
where
    N: Visit<TypeExpression> + Visit<ExpressionNode> + Visit<StatementNode> + Visit<Attributes>,
{
    match met.row.text("kind") {
        "types" => walk::<TypeExpression, N>(holder, met),
        "expressions" => walk::<ExpressionNode, N>(holder, met),
        "statements" => walk::<StatementNode, N>(holder, met),
        _ => walk_lists(holder, met),
    }
}

/// Meets the types below a declaration or its first attribute, or the types or expressions below its initial value.
fn walk_declaration(declaration: &mut Declaration, met: &mut Met) -> bool {
    match met.row.text("holder") {
        "declaration" => walk::<TypeExpression, _>(declaration, met),
        "expression" => match &mut declaration.initializer {
            Some(value) if met.row.text("kind") == "types" => {
                walk::<TypeExpression, _>(&mut value.node, met)
            }
            Some(value) => walk::<ExpressionNode, _>(&mut value.node, met),
            None => false,
        },
        _ => match declaration.attributes.first_mut() {
            Some(first) => walk::<TypeExpression, _>(&mut first.node, met),
            None => false,
        },
    }
}

/// Meets the nodes below the holder of the row: a declaration that is no node of its own, or a part of it, which is the
/// first member of a structure, the first statement of a function, or the type of a type alias.
fn walk_part(global: &mut GlobalDeclaration, met: &mut Met) -> bool {
    let is_whole = matches!(met.row.text("holder"), "alias" | "struct" | "function");
    match global {
        GlobalDeclaration::Declaration(declaration) => walk_declaration(declaration, met),
        GlobalDeclaration::TypeAlias(alias) if is_whole => walk::<TypeExpression, _>(alias, met),
        GlobalDeclaration::TypeAlias(alias) => walk::<TypeExpression, _>(&mut alias.ty, met),
        GlobalDeclaration::Struct(structure) if is_whole => {
            walk::<TypeExpression, _>(structure, met)
        }
        GlobalDeclaration::Struct(structure) => match structure.members.first_mut() {
            Some(first) => walk::<TypeExpression, _>(&mut first.node, met),
            None => false,
        },
        GlobalDeclaration::Function(function) if is_whole => {
            walk::<TypeExpression, _>(function, met)
        }
        GlobalDeclaration::Function(function) => match function.body.statements.first_mut() {
            Some(first) => walk_kinds(&mut first.node, met),
            None => false,
        },
        GlobalDeclaration::ConstAssert(assertion) => walk::<TypeExpression, _>(assertion, met),
        GlobalDeclaration::Void => false,
    }
}

/// Puts `name<t>` in place of a type `t`, as often as it is told.
#[derive(Drop)]
struct Wrap<'a> {
    row: Row<'a>,
    name: Ident,
    left: usize,
}

impl Rewrite<TypeExpression> for Wrap<'_> {
    ghost rewrites = { λ before after. Unit {0} };

    fn rewrite(&mut self, node: &mut TypeExpression) -> Result<(), Error> {
        if self.left == 0 {
            return Err(Error::Memory);
        }
        self.left -= 1;
        let outer = TypeExpression {
            path: None,
            ident: self.name,
            template_args: None,
        };
        let inner = mem::replace(node, outer);
        node.template_args = Some(
            self.row.one(TemplateArg {
                expression: Spanned {
                    node: Expression::TypeOrIdentifier(inner),
                    span: Span { start: 0, end: 0 },
                },
            }),
        );
        Ok(())
    }
}

/// Wraps the types below a global declaration with its span, or below a part of it, as the call of the row does.
fn wrapped(row: Row<'_>, global: &mut GlobalDeclarationNode) -> bool {
    let alloc = row.alloc;
    let mut wrap = Wrap {
        row,
        name: Ident(0),
        left: row.number("wrap_at_most", 0),
    };
    if row.text("holder") != "global declaration" {
        wrapped_part(&mut global.node, &mut wrap)
    } else if row.text("call") == "Visit::rewrite" {
        is_refused(global.rewrite(alloc, &mut wrap))
    } else {
        is_refused(global.rewrite_rec(alloc, &mut wrap))
    }
}

/// Wraps the types below a type alias, or a declaration or its first attribute, as the call of the row does.
fn wrapped_part(global: &mut GlobalDeclaration, wrap: &mut Wrap) -> bool {
    let row = wrap.row;
    let alloc = row.alloc;
    match global {
        GlobalDeclaration::TypeAlias(alias) => {
            if row.text("call") == "Visit::rewrite" {
                is_refused(alias.rewrite(alloc, wrap))
            } else {
                is_refused(alias.rewrite_rec(alloc, wrap))
            }
        }
        GlobalDeclaration::Declaration(declaration) => {
            if row.text("holder") == "declaration" {
                is_refused(declaration.rewrite(alloc, wrap))
            } else {
                match declaration.attributes.first_mut() {
                    Some(first) => is_refused(first.node.rewrite(alloc, wrap)),
                    None => false,
                }
            }
        }
        _ => false,
    }
}

/// Meets or wraps the nodes of a kind below a global declaration or a part of it.
fn walk_global(global: &mut GlobalDeclarationNode, met: &mut Met) -> bool {
    if met.row.has("wrap_at_most") {
        wrapped(met.row, global)
    } else if met.row.text("holder") == "global declaration" {
        walk_kinds(global, met)
    } else {
        walk_part(&mut global.node, met)
    }
}

/// What a visit of a row answers, whose holder is a whole unit, or its first global declaration or a part of that: what was
/// met, and the unit afterwards.
pub fn answered(row: Row<'_>) -> Value {
    let mut unit = row.unit("unit");
    let names = row.or(unit.names().try_clone(row.alloc), Names::new(row.alloc));
    let mut met = Met {
        row,
        names: &names,
        nodes: Vec::new(row.alloc),
        left: row.number("at_most", 20),
    };
    let is_refused;
    if row.text("holder") == "unit" {
        is_refused = walk_kinds(&mut unit, &mut met);
    } else {
        let (table, imports, directives, mut declarations) = unit.into_parts();
        is_refused = match declarations.first_mut() {
            Some(global) => walk_global(global, &mut met),
            None => false,
        };
        unit = row.made(TranslationUnit::from_parts(table, imports, directives, declarations));
    }
    let mut answer = Object::new(row.alloc);
    answer.put("met", Value::Array(met.nodes));
    answer.put("unit", row.part("unit").written(&unit));
    if is_refused {
        answer.put("args", Value::Array(Vec::new(row.alloc)));
        answer.text("fault", "Memory");
    }
    answer.end(row)
}
