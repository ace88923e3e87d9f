//! Reading expressions.
ghost use Rattle.std.specs.Prelude.{◌≡◌, ◌∷◌, [], None, Some, is_some, true};
ghost use Rattle.wesl_tree_syntax.specs.Tree.{binary, branch, indexing, list, named_component, parenthesized, unary};
ghost use Rattle.wesl_tree_syntax.specs.View.{argument_view, call_view, expression_tree, expression_view, listed, optional as option_view, text_tree, type_view};
ghost use Rattle.wesl_text_form.specs.Productions.{a_call, a_type, an_argument, an_expression, commas, nothing, sym};
ghost use Rattle.wesl_text_tokens.specs.declared.symbol.Symbol.TheVariants as symbols;
ghost use Rattle.wesl_text_reading.specs.FirstTokens.{behind_first};
ghost use Rattle.wesl_text_reading.specs.Reading.{at_level, begins_post};
ghost use Rattle.wesl_text_read.specs.First.{number_first, truth_first, word_first};
ghost use Rattle.wesl_text_read.specs.Within.{allows};
ghost use Rattle.wesl_text_read.specs.Leads.{Builds, Reads, ReadsOn, ahead, node};
ghost use Rattle.wesl_text_read.specs.Levels.{bare_at, component_of, enclosed_at, indexing_at, inner, operand_at, operation_at, operations_at, post_at, posts_at, prefixed_at};
ghost use Rattle.wesl_text_read.specs.Parts.{ReadsRow, commas_at, list_at, template_at};

use crate::depth::levels_are_within;
use crate::reader::{Expected, Reader};
use crate::within::Within;
use wesl_text_operands::class_of;
use wesl_text_tokens::Symbol;
use wesl_tree_syntax::{
    BinaryOperator, Expression, ExpressionNode, FunctionCall, Literal, TemplateArg, TypeExpression,
    UnaryOperator,
};

// An expression that takes no memory, in the place of one that is not read.
fn no_expression() -> Expression {
    Expression::Literal(Literal::Bool(false))
}

impl<'t> Reader<'t> {
    /// An expression whose class may stand within these.
    #[cycle(expressions)]
    pub fn expression(&mut self, within: Within) -> ExpressionNode
        ensures { Reads (at_level self.old.levels (allows within) an_expression)
            (expression_tree result) self.old self.new }
    {
        if self.levels == 0 {
            self.wrong(Expected::FewerLevels);
            return self.placed(0, no_expression());
        }
        self.levels -= 1;
        let first = self.operand();
        let whole = self.operations(within, first);
        self.levels += 1;
        let fits = levels_are_within(&whole, self.levels);
        self.wrong_if(!fits, Expected::FewerLevels);
        whole
    }

    // Operations that go on behind an expression.
    #[cycle(expressions)]
    fn operations(&mut self, within: Within, first: ExpressionNode) -> ExpressionNode
        ensures { ReadsOn (operations_at self.old.levels (allows within) self.old.levels) (expression_tree first)
            (expression_tree result) self.old self.new }
    {
        let mut left = first;
        let mut room = self.levels;
        'operations: while let Some(operator) = self.next_operator(within, class_of(&left.node)) {
            if room == 0 {
                self.wrong(Expected::FewerLevels);
                return left;
            }
            room -= 1;
            left = self.operation(operator, left);
        }
        left
    }

    // The operation of an operator that comes first, with its left operand.
    #[cycle(expressions)]
    fn operation(&mut self, operator: BinaryOperator, left: ExpressionNode) -> ExpressionNode
        ensures { ReadsOn (operation_at self.old.levels operator) (expression_tree left)
            (expression_tree result) self.old self.new }
    {
        let start = left.span.start;
        self.step();
        let right = self.expression(Within::Right(operator));
        let node = self.binary(operator, left, right);
        self.placed(start, node)
    }

    fn binary(
        &mut self,
        operator: BinaryOperator,
        left: ExpressionNode,
        right: ExpressionNode,
    ) -> Expression
        ensures { Builds (node (binary operator) (expression_tree left ∷ expression_tree right ∷ []))
            (expression_view result) self.old self.new }
    {
        match self.boxed(left) {
            Some(left) => match self.boxed(right) {
                Some(right) => Expression::Binary {
                    operator,
                    left,
                    right,
                },
                None => no_expression(),
            },
            None => no_expression(),
        }
    }

    // An operand: behind a unary operator, or with what goes on behind it.
    #[cycle(expressions)]
    fn operand(&mut self) -> ExpressionNode
        ensures { Reads (operand_at self.old.levels) (expression_tree result) self.old self.new }
    {
        match self.unary_first() {
            Some(operator) => self.prefixed(operator),
            None => {
                let start = self.place();
                let node = self.bare_expression();
                let bare = self.placed(start, node);
                self.posts(bare)
            }
        }
    }

    // A unary operator that comes first, and its operand.
    #[cycle(expressions)]
    fn prefixed(&mut self, operator: UnaryOperator) -> ExpressionNode
        ensures { Reads (prefixed_at self.old.levels operator) (expression_tree result) self.old self.new }
    {
        let start = self.place();
        self.step();
        let operand = self.expression(Within::Prefix);
        let node = self.unary(operator, operand);
        self.placed(start, node)
    }

    fn unary(&mut self, operator: UnaryOperator, operand: ExpressionNode) -> Expression
        ensures { Builds (node (unary operator) (expression_tree operand ∷ []))
            (expression_view result) self.old self.new }
    {
        match self.boxed(operand) {
            Some(operand) => Expression::Unary { operator, operand },
            None => no_expression(),
        }
    }

    // `.` and `[..]` that go on behind an expression.
    #[cycle(expressions)]
    fn posts(&mut self, first: ExpressionNode) -> ExpressionNode
        ensures { ReadsOn (posts_at self.old.levels self.old.levels) (expression_tree first)
            (expression_tree result) self.old self.new }
    {
        let mut base = first;
        let mut room = self.levels;
        'posts: while self.begins_post() {
            if room == 0 {
                self.wrong(Expected::FewerLevels);
                return base;
            }
            room -= 1;
            base = self.post(base);
        }
        base
    }

    // One `.` or `[..]`, which comes first.
    #[cycle(expressions)]
    fn post(&mut self, base: ExpressionNode) -> ExpressionNode
        requires { begins_post (ahead self.old) ≡ true }
        ensures { ReadsOn (post_at self.old.levels) (expression_tree base) (expression_tree result) self.old self.new }
    {
        if self.begins_sign(Symbol::Period) {
            self.component(base)
        } else {
            self.index(base)
        }
    }

    // The first token, and behind it the name of a component of an expression.
    fn component(&mut self, base: ExpressionNode) -> ExpressionNode
        ensures { ReadsOn (λ e ts. component_of e (behind_first ts)) (expression_tree base)
            (expression_tree result) self.old self.new }
    {
        let start = base.span.start;
        self.step();
        let component = self.name();
        let node = self.named_component(base, component);
        self.placed(start, node)
    }

    fn named_component(&mut self, base: ExpressionNode, component: String) -> Expression
        ensures { Builds (branch named_component (expression_tree base ∷ text_tree component ∷ []))
            (expression_view result) self.old self.new }
    {
        match self.boxed(base) {
            Some(base) => Expression::NamedComponent { base, component },
            None => no_expression(),
        }
    }

    // The first token, and behind it the index of an element of an expression, with `]`.
    #[cycle(expressions)]
    fn index(&mut self, base: ExpressionNode) -> ExpressionNode
        ensures { ReadsOn (λ e ts. indexing_at self.old.levels e (behind_first ts)) (expression_tree base)
            (expression_tree result) self.old self.new }
    {
        let start = base.span.start;
        self.step();
        let index = self.expression(Within::Anything);
        self.skip_sign(Symbol::BracketRight);
        let node = self.indexing(base, index);
        self.placed(start, node)
    }

    fn indexing(&mut self, base: ExpressionNode, index: ExpressionNode) -> Expression
        ensures { Builds (branch indexing (expression_tree base ∷ expression_tree index ∷ []))
            (expression_view result) self.old self.new }
    {
        match self.boxed(base) {
            Some(base) => match self.boxed(index) {
                Some(index) => Expression::Indexing { base, index },
                None => no_expression(),
            },
            None => no_expression(),
        }
    }

    // An operand without operators, and without what goes on behind it.
    #[cycle(expressions)]
    fn bare_expression(&mut self) -> Expression
        ensures { Reads (bare_at self.old.levels) (expression_view result) self.old self.new }
    {
        if let Some(number) = self.number_first() {
            return self.number_expression(number);
        }
        if let Some(truth) = self.truth_first() {
            return self.truth_expression(truth);
        }
        if self.word_first().is_some() {
            return self.named_expression();
        }
        if self.begins_sign(Symbol::ParenLeft) {
            return self.enclosed();
        }
        self.wrong(Expected::Expression);
        no_expression()
    }

    // A number, which comes first.
    fn number_expression(&mut self, number: &str) -> Expression
        requires { number_first (ahead self.old) ≡ Some number.now }
        ensures { Reads (bare_at self.old.levels) (expression_view result) self.old self.new }
    {
        self.step();
        Expression::Literal(Literal::Text(self.own(number)))
    }

    // `true` or `false`, which comes first.
    fn truth_expression(&mut self, truth: bool) -> Expression
        requires { truth_first (ahead self.old) ≡ Some truth }
        ensures { Reads (bare_at self.old.levels) (expression_view result) self.old self.new }
    {
        self.step();
        Expression::Literal(Literal::Bool(truth))
    }

    // A call, or a type without one: an expression that begins with another word.
    #[cycle(expressions)]
    fn named_expression(&mut self) -> Expression
        requires word { is_some (word_first (ahead self.old)) ≡ true }
        requires truth { truth_first (ahead self.old) ≡ None }
        ensures { Reads (bare_at self.old.levels) (expression_view result) self.old self.new }
    {
        let ty = self.type_expression();
        if !self.begins_sign(Symbol::ParenLeft) {
            return Expression::TypeOrIdentifier(ty);
        }
        Expression::FunctionCall(FunctionCall {
            ty,
            arguments: self.arguments(),
        })
    }

    // An expression in parentheses.
    #[cycle(expressions)]
    fn enclosed(&mut self) -> Expression
        ensures { Reads (enclosed_at self.old.levels) (expression_view result) self.old self.new }
    {
        self.skip_sign(Symbol::ParenLeft);
        let expression = self.expression(Within::Anything);
        self.skip_sign(Symbol::ParenRight);
        self.parenthesized(expression)
    }

    fn parenthesized(&mut self, expression: ExpressionNode) -> Expression
        ensures { Builds (branch parenthesized (expression_tree expression ∷ []))
            (expression_view result) self.old self.new }
    {
        match self.boxed(expression) {
            Some(expression) => Expression::Parenthesized { expression },
            None => no_expression(),
        }
    }

    /// A call: a type, and arguments in parentheses.
    pub fn call(&mut self) -> FunctionCall
        ensures { Reads (inner self.old.levels a_call) (call_view result) self.old self.new }
    {
        FunctionCall {
            ty: self.type_expression(),
            arguments: self.arguments(),
        }
    }

    /// A name with its path and its template arguments.
    #[cycle(expressions)]
    pub fn type_expression(&mut self) -> TypeExpression
        ensures { Reads (inner self.old.levels a_type) (type_view result) self.old self.new }
    {
        TypeExpression {
            path: self.optional_path(),
            ident: self.ident(),
            template_args: self.template_arguments(),
        }
    }

    // Template arguments, where a template list opens.
    #[cycle(expressions)]
    fn template_arguments(&mut self) -> Option<Vec<TemplateArg>>
        ensures { Reads (template_at self.old.levels)
            (option_view (listed argument_view list) result) self.old self.new }
    {
        if !self.opens_list() {
            return None;
        }
        self.step();
        Some(self.template_list())
    }

    // The arguments of a template list, which has one at least, with the bracket that closes it.
    #[cycle(expressions)]
    fn template_list(&mut self) -> Vec<TemplateArg>
        ensures { Reads (list_at self.old.levels) (listed argument_view list result) self.old self.new }
    {
        if !self.begins_expression() {
            self.wrong(Expected::Expression);
            return Vec::new(self.alloc);
        }
        let arguments = self.list_arguments();
        self.skip_close();
        arguments
    }

    // Template arguments with commas between.
    #[cycle(expressions)]
    fn list_arguments(&mut self) -> Vec<TemplateArg>
        ensures { Reads (commas_at self.old.levels list an_argument)
            (listed argument_view list result) self.old self.new }
    {
        let mut arguments = Vec::new(self.alloc);
        let mut room = self.rest.len();
        let mut goes_on = self.begins_expression();
        'arguments: while goes_on && room > 0 {
            room -= 1;
            let expression = self.expression(Within::Anything);
            self.put(&mut arguments, TemplateArg { expression });
            goes_on = self.next_expression();
        }
        self.wrong_if(goes_on, Expected::CloseList);
        arguments
    }

    /// The arguments of a call, with their parentheses.
    #[cycle(expressions)]
    pub fn arguments(&mut self) -> Vec<ExpressionNode>
        ensures { ReadsRow (sym symbols.ParenLeft (commas list an_expression (sym symbols.ParenRight nothing)))
            (listed expression_tree list result) self.old self.new }
    {
        self.skip_sign(Symbol::ParenLeft);
        let arguments = self.expressions();
        self.skip_sign(Symbol::ParenRight);
        arguments
    }

    // Expressions with commas between.
    #[cycle(expressions)]
    fn expressions(&mut self) -> Vec<ExpressionNode>
        ensures { Reads (commas_at self.old.levels list an_expression)
            (listed expression_tree list result) self.old self.new }
    {
        let mut expressions = Vec::new(self.alloc);
        let mut room = self.rest.len();
        let mut goes_on = self.begins_expression();
        'expressions: while goes_on && room > 0 {
            room -= 1;
            let expression = self.expression(Within::Anything);
            self.put(&mut expressions, expression);
            goes_on = self.next_expression();
        }
        self.wrong_if(goes_on, Expected::CloseList);
        expressions
    }
}
