//! Reading expressions.
ghost use Rattle.std.specs.Prelude.{◌≡◌, None, Some, codes, is_some, true};
ghost use Rattle.serde_json.specs.Find.{as_object};
ghost use Rattle.wesl_json_form.specs.View.{borrowed_view};
ghost use Rattle.wesl_json_form.specs.Words.{binary_words, unary_words};
ghost use Rattle.wesl_json_form.specs.Schema.{a_call, a_type, an_expression, node as node_form};
ghost use Rattle.wesl_tree_syntax.specs.Tree.{binary, list, unary};
ghost use Rattle.wesl_tree_syntax.specs.View.{argument_view, call_view, expression_tree, expression_view, listed, optional as option_view, type_view};
ghost use Rattle.wesl_json_read.specs.Forms.{some_arguments, some_expressions};
ghost use Rattle.wesl_json_read.specs.Noted.{NotesForm, NotesMany, NotesMay, NotesNeeded};
ghost use Rattle.wesl_json_read.specs.NotedNodes.{NotesExpression, NotesExpressionWord, NotesOperator, NotesPlain, NotesType, held};
ghost use Rattle.wesl_json_read.specs.declared.words.ExpressionWord.TheVariants as words;

use crate::leaves::TextKind;
use crate::reader::Reader;
use crate::words::{ExpressionWord, binary_operator, expression_word_in, unary_operator};
use wesl_json_form::BorrowedValue;
use wesl_tree_names::{Ident, Span};
use wesl_tree_syntax::{
    BinaryOperator, Expression, ExpressionNode, FunctionCall, Literal, Spanned, TemplateArg,
    TypeExpression, UnaryOperator,
};

/// A node that stands in no source text.
pub(crate) fn unplaced<T>(node: T) -> Spanned<T>
    ensures { result ≡ record { node = node; span = record { start = 0; end = 0 } } }
{
    Spanned {
        node,
        span: Span { start: 0, end: 0 },
    }
}

// An expression that takes no memory, in the place of one that is not read.
fn no_expression() -> Expression {
    Expression::Literal(Literal::Bool(false))
}

// A type in the place of one that is not read.
fn no_type() -> TypeExpression {
    TypeExpression {
        path: None,
        ident: Ident(0),
        template_args: None,
    }
}

impl Reader {
    /// The expression that a value is: a truth value, an object, or the name of a type or an identifier.
    #[cycle(expressions)]
    pub fn expression(&mut self, value: &BorrowedValue<'_>) -> ExpressionNode
        ensures { NotesForm (node_form an_expression) (borrowed_view value.now) (expression_tree result) self.old self.new }
    {
        if let Some(truth) = value.as_bool() {
            return unplaced(Expression::Literal(Literal::Bool(truth)));
        }
        if value.is_object() {
            return self.expression_object(value);
        }
        unplaced(Expression::TypeOrIdentifier(self.plain_type(value)))
    }

    #[cycle(expressions)]
    fn expression_object(&mut self, value: &BorrowedValue<'_>) -> ExpressionNode
        requires { is_some (as_object (borrowed_view value.now)) ≡ true }
        ensures { NotesForm (node_form an_expression) (borrowed_view value.now) (expression_tree result) self.old self.new }
    {
        let word = self.expression_word(value);
        Spanned {
            span: self.span(value),
            node: self.worded_expression(value, word),
        }
    }

    // The word at `k`; without one the object is a type or an identifier.
    fn expression_word(&mut self, value: &BorrowedValue<'_>) -> Option<ExpressionWord>
        requires { is_some (as_object (borrowed_view value.now)) ≡ true }
        ensures { NotesExpressionWord (borrowed_view value.now) result self.old self.new }
    {
        let word = self.optional(value, "k")?;
        match expression_word_in(self.spans, word) {
            Some(word) => Some(word),
            None => {
                self.wrong();
                self.within("k");
                None
            }
        }
    }

    // The expression that an object with this word is, but for its span.
    #[cycle(expressions)]
    fn worded_expression(
        &mut self,
        value: &BorrowedValue<'_>,
        word: Option<ExpressionWord>,
    ) -> Expression
        ensures { NotesExpression word (borrowed_view value.now) (expression_view result) self.old self.new }
    {
        match word {
            Some(ExpressionWord::Literal) => {
                self.keys(value, self.spans, &["k", "text"]);
                let text = self.text(value, "text", TextKind::Literal);
                Expression::Literal(Literal::Text(text))
            }
            Some(ExpressionWord::Truth(truth)) => {
                self.keys(value, self.spans, &["k"]);
                Expression::Literal(Literal::Bool(truth))
            }
            Some(ExpressionWord::Parenthesized) => self.parenthesized(value),
            Some(ExpressionWord::NamedComponent) => self.component(value),
            Some(ExpressionWord::Indexing) => self.indexing(value),
            Some(ExpressionWord::Unary) => self.unary(value),
            Some(ExpressionWord::Binary) => self.binary(value),
            Some(ExpressionWord::FunctionCall) => {
                self.keys(value, self.spans, &["k", "ty", "args"]);
                Expression::FunctionCall(FunctionCall {
                    ty: self.type_at(value, "ty"),
                    arguments: self.expressions(value, "args"),
                })
            }
            None => Expression::TypeOrIdentifier(self.type_object(value, self.spans)),
        }
    }

    #[cycle(expressions)]
    fn parenthesized(&mut self, value: &BorrowedValue<'_>) -> Expression
        ensures { NotesExpression (Some words.Parenthesized) (borrowed_view value.now) (expression_view result) self.old self.new }
    {
        self.keys(value, self.spans, &["k", "expr"]);
        match self.boxed_at(value, "expr") {
            Some(expression) => Expression::Parenthesized { expression },
            None => no_expression(),
        }
    }

    #[cycle(expressions)]
    fn component(&mut self, value: &BorrowedValue<'_>) -> Expression
        ensures { NotesExpression (Some words.NamedComponent) (borrowed_view value.now) (expression_view result) self.old self.new }
    {
        self.keys(value, self.spans, &["k", "base", "name"]);
        let base = self.boxed_at(value, "base");
        let component = self.text(value, "name", TextKind::Name);
        match base {
            Some(base) => Expression::NamedComponent { base, component },
            None => no_expression(),
        }
    }

    #[cycle(expressions)]
    fn indexing(&mut self, value: &BorrowedValue<'_>) -> Expression
        ensures { NotesExpression (Some words.Indexing) (borrowed_view value.now) (expression_view result) self.old self.new }
    {
        self.keys(value, self.spans, &["k", "base", "index"]);
        let base = self.boxed_at(value, "base");
        let index = self.boxed_at(value, "index");
        match base {
            Some(base) => match index {
                Some(index) => Expression::Indexing { base, index },
                None => no_expression(),
            },
            None => no_expression(),
        }
    }

    #[cycle(expressions)]
    fn unary(&mut self, value: &BorrowedValue<'_>) -> Expression
        ensures { NotesExpression (Some words.Unary) (borrowed_view value.now) (expression_view result) self.old self.new }
    {
        self.keys(value, self.spans, &["k", "op", "expr"]);
        let operator = self.unary_operator(value);
        match self.boxed_at(value, "expr") {
            Some(operand) => Expression::Unary { operator, operand },
            None => no_expression(),
        }
    }

    #[cycle(expressions)]
    fn binary(&mut self, value: &BorrowedValue<'_>) -> Expression
        ensures { NotesExpression (Some words.Binary) (borrowed_view value.now) (expression_view result) self.old self.new }
    {
        self.keys(value, self.spans, &["k", "op", "left", "right"]);
        let operator = self.binary_operator(value);
        let left = self.boxed_at(value, "left");
        let right = self.boxed_at(value, "right");
        match left {
            Some(left) => match right {
                Some(right) => Expression::Binary {
                    operator,
                    left,
                    right,
                },
                None => no_expression(),
            },
            None => no_expression(),
        }
    }

    // The operator at `op`, of one operand.
    fn unary_operator(&mut self, value: &BorrowedValue<'_>) -> UnaryOperator
        ensures { NotesOperator unary_words (borrowed_view value.now) (unary result) self.old self.new }
    {
        let Some(word) = self.required(value, "op") else {
            return UnaryOperator::Negation;
        };
        match word.as_str().and_then(unary_operator) {
            Some(operator) => operator,
            None => {
                self.wrong();
                self.within("op");
                UnaryOperator::Negation
            }
        }
    }

    // The operator at `op`, of two operands.
    fn binary_operator(&mut self, value: &BorrowedValue<'_>) -> BinaryOperator
        ensures { NotesOperator binary_words (borrowed_view value.now) (binary result) self.old self.new }
    {
        let Some(word) = self.required(value, "op") else {
            return BinaryOperator::Addition;
        };
        match word.as_str().and_then(binary_operator) {
            Some(operator) => operator,
            None => {
                self.wrong();
                self.within("op");
                BinaryOperator::Addition
            }
        }
    }

    /// The expression at `key`, which must be there.
    #[cycle(expressions)]
    pub fn expression_at(&mut self, value: &BorrowedValue<'_>, key: &str) -> ExpressionNode
        ensures { NotesNeeded key.now (node_form an_expression) (borrowed_view value.now) (expression_tree result) self.old self.new }
    {
        let Some(member) = self.required(value, key) else {
            return unplaced(no_expression());
        };
        let expression = self.expression(member);
        self.within(key);
        expression
    }

    // The expression at `key`, in a box; none where memory was refused for it.
    #[cycle(expressions)]
    fn boxed_at(&mut self, value: &BorrowedValue<'_>, key: &str) -> Option<Box<ExpressionNode>>
        ensures noted { NotesNeeded key.now (node_form an_expression) (borrowed_view value.now) (held result) self.old self.new }
        ensures there { self.new.fault ≡ None → is_some result ≡ true }
    {
        let expression = self.expression_at(value, key);
        self.boxed(expression)
    }

    /// The expression at `key`, an option.
    pub fn optional_expression(
        &mut self,
        value: &BorrowedValue<'_>,
        key: &str,
    ) -> Option<ExpressionNode>
        ensures { NotesMay key.now (node_form an_expression) (borrowed_view value.now) (option_view expression_tree result) self.old self.new }
    {
        let Some(member) = self.optional(value, key) else {
            return None;
        };
        let expression = self.expression(member);
        self.within(key);
        Some(expression)
    }

    /// The expressions at `key`, a list.
    #[cycle(expressions)]
    pub fn expressions(&mut self, value: &BorrowedValue<'_>, key: &str) -> Vec<ExpressionNode>
        ensures { NotesMany key.now some_expressions (borrowed_view value.now) (listed expression_tree list result) self.old self.new }
    {
        let Some(items) = self.list(value, key) else {
            return Vec::new(self.alloc);
        };
        let mut expressions = self.room(items.len());
        for (index, item) in items.iter().enumerate() {
            if !self.is_stopped() {
                let expression = self.expression(item);
                self.put(&mut expressions, index, expression);
            }
        }
        self.within(key);
        expressions
    }

    /// The expressions at `key`, a list that may be absent.
    pub fn optional_expressions(
        &mut self,
        value: &BorrowedValue<'_>,
        key: &str,
    ) -> Option<Vec<ExpressionNode>>
        ensures { NotesMay key.now some_expressions (borrowed_view value.now) (option_view (listed expression_tree list) result) self.old self.new }
    {
        match value.get(key) {
            Some(_) => Some(self.expressions(value, key)),
            None => None,
        }
    }

    /// The type at `key`, which must be there.
    #[cycle(expressions)]
    pub fn type_at(&mut self, value: &BorrowedValue<'_>, key: &str) -> TypeExpression
        ensures { NotesNeeded key.now (node_form a_type) (borrowed_view value.now) (type_view result) self.old self.new }
    {
        let Some(member) = self.required(value, key) else {
            return no_type();
        };
        let ty = self.type_of(member);
        self.within(key);
        ty
    }

    /// The type at `key`, an option.
    pub fn optional_type(&mut self, value: &BorrowedValue<'_>, key: &str) -> Option<TypeExpression>
        ensures { NotesMay key.now (node_form a_type) (borrowed_view value.now) (option_view type_view result) self.old self.new }
    {
        let Some(member) = self.optional(value, key) else {
            return None;
        };
        let ty = self.type_of(member);
        self.within(key);
        Some(ty)
    }

    // The type that a value is: its name alone, or an object.
    #[cycle(expressions)]
    fn type_of(&mut self, value: &BorrowedValue<'_>) -> TypeExpression
        ensures { NotesForm (node_form a_type) (borrowed_view value.now) (type_view result) self.old self.new }
    {
        if value.is_object() {
            self.type_object(value, false)
        } else {
            self.plain_type(value)
        }
    }

    // A type by its name alone.
    fn plain_type(&mut self, value: &BorrowedValue<'_>) -> TypeExpression
        ensures { NotesPlain (borrowed_view value.now) (type_view result) self.old self.new }
    {
        TypeExpression {
            path: None,
            ident: self.ident(value),
            template_args: None,
        }
    }

    // The type that an object is, which may have a span where it takes one.
    #[cycle(expressions)]
    fn type_object(&mut self, value: &BorrowedValue<'_>, takes_span: bool) -> TypeExpression
        ensures { NotesType takes_span (borrowed_view value.now) (type_view result) self.old self.new }
    {
        self.keys(value, takes_span, &["path", "name", "args"]);
        TypeExpression {
            path: self.boxed_path(value),
            ident: self.ident_at(value, "name"),
            template_args: self.arguments(value),
        }
    }

    // The template arguments at `args`, an option.
    #[cycle(expressions)]
    fn arguments(&mut self, value: &BorrowedValue<'_>) -> Option<Vec<TemplateArg>>
        ensures { NotesMay (codes "args") some_arguments (borrowed_view value.now) (option_view (listed argument_view list) result) self.old self.new }
    {
        match value.get("args") {
            Some(_) => Some(self.argument_list(value)),
            None => None,
        }
    }

    #[cycle(expressions)]
    fn argument_list(&mut self, value: &BorrowedValue<'_>) -> Vec<TemplateArg>
        ensures { NotesMany (codes "args") some_arguments (borrowed_view value.now) (listed argument_view list result) self.old self.new }
    {
        let Some(items) = self.list(value, "args") else {
            return Vec::new(self.alloc);
        };
        let mut arguments = self.room(items.len());
        for (index, item) in items.iter().enumerate() {
            if !self.is_stopped() {
                let expression = self.expression(item);
                self.put(&mut arguments, index, TemplateArg { expression });
            }
        }
        self.within("args");
        arguments
    }

    /// The call that an object is, without a word.
    pub fn call(&mut self, value: &BorrowedValue<'_>) -> FunctionCall
        ensures { NotesForm (node_form a_call) (borrowed_view value.now) (call_view result) self.old self.new }
    {
        self.keys(value, false, &["ty", "args"]);
        FunctionCall {
            ty: self.type_at(value, "ty"),
            arguments: self.expressions(value, "args"),
        }
    }
}
