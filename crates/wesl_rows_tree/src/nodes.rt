//! Copies of nodes: of each node of a unit that stands no deeper than in a statement of a function.
use serde_json::Value;
use wesl_rows_base::{List, Row};
use wesl_tree::{
    Declaration, Expression, ExpressionNode, Function, GlobalDeclaration, ImportContent, Spanned,
    Statement, SwitchClause, TranslationUnit, TypeExpression,
};
use wesl_tree_copies::{Placed, TryClone};

/// The names of the types of the nodes whose copies are equal to them.
#[derive(Drop)]
struct EqualCopies<'a> {
    row: Row<'a>,
    equal: List,
}

impl EqualCopies<'_> {
    /// Copies a node, and lists the name of its type where the copy is equal to it.
    fn node<T: TryClone + PartialEq + Drop>(&mut self, name: &str, node: &T) {
        match node.try_clone(self.row.alloc).ok() {
            Some(copy) => {
                if copy == *node {
                    self.equal.text(name);
                }
            }
            None => self.row.refused_if(true),
        }
    }

    fn nodes<T: TryClone + PartialEq + Drop>(&mut self, name: &str, nodes: &[T]) {
        for node in nodes {
            self.node(name, node);
        }
    }

    /// Nodes with their places, each with its place and without.
    fn placed<T: Placed + PartialEq>(&mut self, name: &str, bare: &str, nodes: &[Spanned<T>]) {
        for node in nodes {
            self.node(name, node);
            self.node(bare, &node.node);
        }
    }

    fn content(&mut self, content: &ImportContent) {
        self.node("ImportContent", content);
        match content {
            ImportContent::Item(item) => self.node("ImportItem", item),
            ImportContent::Collection(entries) => self.nodes("Import", entries),
        }
    }

    /// A type with its template arguments.
    fn ty(&mut self, ty: &TypeExpression) {
        self.node("TypeExpression", ty);
        if let Some(arguments) = &ty.template_args {
            self.nodes("TemplateArg", arguments);
        }
    }

    /// An expression, with the literal that it is.
    fn expression(&mut self, expression: &ExpressionNode) {
        self.node("ExpressionNode", expression);
        self.node("Expression", &expression.node);
        if let Expression::Literal(literal) = &expression.node {
            self.node("Literal", literal);
        }
    }

    /// A declaration with its attributes, its type and its initial value.
    fn declaration(&mut self, declaration: &Declaration) {
        self.node("Declaration", declaration);
        self.placed("AttributeNode", "Attribute", &declaration.attributes);
        if let Some(ty) = &declaration.ty {
            self.ty(ty);
        }
        if let Some(value) = &declaration.initializer {
            self.expression(value);
        }
    }

    /// A function with its parameters, its body and the statements of that.
    fn function(&mut self, function: &Function) {
        let statements = &function.body.statements;
        self.node("Function", function);
        self.nodes("FormalParameter", &function.parameters);
        self.node("CompoundStatement", &function.body);
        self.placed("StatementNode", "Statement", statements);
        for statement in statements {
            self.parts(&statement.node);
        }
    }

    /// What a declaration is.
    fn global(&mut self, global: &GlobalDeclaration) {
        match global {
            GlobalDeclaration::Declaration(declaration) => self.declaration(declaration),
            GlobalDeclaration::TypeAlias(alias) => self.node("TypeAlias", alias),
            GlobalDeclaration::Struct(structure) => {
                self.node("Struct", structure);
                self.placed("StructMemberNode", "StructMember", &structure.members);
            }
            GlobalDeclaration::Function(function) => self.function(function),
            GlobalDeclaration::ConstAssert(assertion) => self.node("ConstAssert", assertion),
            GlobalDeclaration::Void => {}
        }
    }

    /// The parts of a statement that are nodes.
    fn parts(&mut self, statement: &Statement) {
        match statement {
            Statement::If {
                attributes: _,
                if_clause,
                else_if_clauses,
                else_clause,
            } => {
                self.node("IfClause", if_clause);
                self.nodes("ElseIfClause", else_if_clauses);
                if let Some(clause) = else_clause {
                    self.node("ElseClause", clause);
                }
            }
            Statement::Switch {
                attributes: _,
                expression: _,
                body_attributes: _,
                clauses,
            } => self.clauses(clauses),
            Statement::Loop {
                attributes: _,
                body: _,
                continuing: Some(continuing),
            } => {
                self.node("ContinuingStatement", continuing);
                if let Some(leaving) = &continuing.break_if {
                    self.node("BreakIfStatement", leaving);
                }
            }
            Statement::FunctionCall {
                attributes: _,
                call,
            } => self.node("FunctionCall", call),
            _ => {}
        }
    }

    fn clauses(&mut self, clauses: &[SwitchClause]) {
        for clause in clauses {
            self.node("SwitchClause", clause);
            self.nodes("CaseSelector", &clause.case_selectors);
        }
    }

    /// The nodes of a unit: of each of its lists the nodes first, and then what is in them.
    fn unit(&mut self, unit: &TranslationUnit) {
        self.placed("ImportStatementNode", "ImportStatement", unit.imports());
        for statement in unit.imports() {
            self.content(&statement.node.content);
        }
        self.placed(
            "GlobalDirectiveNode",
            "GlobalDirective",
            unit.global_directives(),
        );
        let declarations = unit.global_declarations();
        self.placed("GlobalDeclarationNode", "GlobalDeclaration", declarations);
        for declaration in declarations {
            self.global(&declaration.node);
        }
    }
}

/// The names of the types of the nodes of the `tree` whose copies are equal to them.
pub fn copied(row: Row<'_>) -> Value {
    let mut copies = EqualCopies {
        row,
        equal: List::new(row.alloc),
    };
    copies.unit(&row.tree());
    let EqualCopies { row: _, equal } = copies;
    equal.end(row)
}
