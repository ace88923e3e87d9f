//! Statements (WGSL, "Statements").
use crate::attribute::Attributes;
use crate::declaration::{ConstAssert, Declaration};
use crate::expression::{ExpressionNode, FunctionCall};
use crate::span::Spanned;

/// The operator of an assignment (WGSL, "Assignment Statement").
#[derive(Clone, Copy, Debug, PartialEq, Eq)]
pub enum AssignmentOperator {
    /// `=`
    Equal,
    /// `+=`
    PlusEqual,
    /// `-=`
    MinusEqual,
    /// `*=`
    TimesEqual,
    /// `/=`
    DivisionEqual,
    /// `%=`
    ModuloEqual,
    /// `&=`
    AndEqual,
    /// `|=`
    OrEqual,
    /// `^=`
    XorEqual,
    /// `<<=`
    ShiftLeftAssign,
    /// `>>=`
    ShiftRightAssign,
}

/// A statement with its span.
pub type StatementNode = Spanned<Statement>;

/// A statement (WGSL, "Statements").
#[cycle(statement)]
#[derive(PartialEq)]
pub enum Statement {
    /// `;` alone
    Void,
    /// `{ statements }`
    Compound(CompoundStatement),
    /// `lhs operator rhs;`
    Assignment {
        /// its attributes
        attributes: Attributes,
        /// `=`, or the operator that is joined to it
        operator: AssignmentOperator,
        /// what is written to, `_` for nothing
        lhs: ExpressionNode,
        /// the value
        rhs: ExpressionNode,
    },
    /// `expression++;`
    Increment {
        /// its attributes
        attributes: Attributes,
        /// what is written to
        expression: ExpressionNode,
    },
    /// `expression--;`
    Decrement {
        /// its attributes
        attributes: Attributes,
        /// what is written to
        expression: ExpressionNode,
    },
    /// `if .. else if .. else ..`
    If {
        /// its attributes
        attributes: Attributes,
        /// the condition and the body after `if`
        if_clause: IfClause,
        /// those after each `else if`
        else_if_clauses: Vec<ElseIfClause>,
        /// the body after `else`, if there is one
        else_clause: Option<ElseClause>,
    },
    /// `switch expression { clauses }`
    Switch {
        /// its attributes
        attributes: Attributes,
        /// the selector
        expression: ExpressionNode,
        /// the attributes before the braces
        body_attributes: Attributes,
        /// what stands in the braces
        clauses: Vec<SwitchClause>,
    },
    /// `loop { body continuing }`
    Loop {
        /// its attributes
        attributes: Attributes,
        /// the body without its last part
        body: CompoundStatement,
        /// `continuing` at the end of the body, if there is one
        continuing: Option<ContinuingStatement>,
    },
    /// `for (initializer; condition; update) body`
    For {
        /// its attributes
        attributes: Attributes,
        /// what is done first, if there is anything
        initializer: Option<Box<StatementNode>>,
        /// what is asked before each turn, if there is anything
        condition: Option<ExpressionNode>,
        /// what is done after each turn, if there is anything
        update: Option<Box<StatementNode>>,
        /// the body
        body: CompoundStatement,
    },
    /// `while condition body`
    While {
        /// its attributes
        attributes: Attributes,
        /// what is asked before each turn
        condition: ExpressionNode,
        /// the body
        body: CompoundStatement,
    },
    /// `break;`
    Break {
        /// its attributes
        attributes: Attributes,
    },
    /// `continue;`
    Continue {
        /// its attributes
        attributes: Attributes,
    },
    /// `return;` or `return expression;`
    Return {
        /// its attributes
        attributes: Attributes,
        /// the value, if there is one
        expression: Option<ExpressionNode>,
    },
    /// `discard;`
    Discard {
        /// its attributes
        attributes: Attributes,
    },
    /// `call;`
    FunctionCall {
        /// its attributes
        attributes: Attributes,
        /// the call
        call: FunctionCall,
    },
    /// an assertion
    ConstAssert(ConstAssert),
    /// the declaration of a local variable or value
    Declaration(Declaration),
}

/// `{ statements }` (WGSL, "Compound Statement")
#[cycle(statement)]
#[derive(PartialEq)]
pub struct CompoundStatement {
    /// the attributes before the braces
    pub attributes: Attributes,
    /// what stands in the braces, in source order
    pub statements: Vec<StatementNode>,
}

/// `if expression body` (WGSL, "If Statement")
#[cycle(statement)]
#[derive(PartialEq)]
pub struct IfClause {
    /// the condition
    pub expression: ExpressionNode,
    /// what is done where it is true
    pub body: CompoundStatement,
}

/// `else if expression body` (WGSL, "If Statement")
#[cycle(statement)]
#[derive(PartialEq)]
pub struct ElseIfClause {
    /// its attributes, which only WESL has
    pub attributes: Attributes,
    /// the condition
    pub expression: ExpressionNode,
    /// what is done where it is the first that is true
    pub body: CompoundStatement,
}

/// `else body` (WGSL, "If Statement")
#[cycle(statement)]
#[derive(PartialEq)]
pub struct ElseClause {
    /// its attributes, which only WESL has
    pub attributes: Attributes,
    /// what is done where no condition is true
    pub body: CompoundStatement,
}

/// One of the values after `case` (WGSL, "Switch Statement").
#[derive(PartialEq)]
pub enum CaseSelector {
    /// `default`, for every value that no other clause has
    Default,
    /// a value
    Expression(ExpressionNode),
}

/// `case case_selectors: body` or `default: body` (WGSL, "Switch Statement")
#[cycle(statement)]
#[derive(PartialEq)]
pub struct SwitchClause {
    /// its attributes, which only WESL has
    pub attributes: Attributes,
    /// the values that it is for; `default: body` has `default` alone
    pub case_selectors: Vec<CaseSelector>,
    /// what is done for them
    pub body: CompoundStatement,
}

/// `continuing { body break if }` (WGSL, "Continuing Statement")
#[cycle(statement)]
#[derive(PartialEq)]
pub struct ContinuingStatement {
    /// its attributes
    pub attributes: Attributes,
    /// the body without its last part
    pub body: CompoundStatement,
    /// `break if` at the end of the body, if there is one
    pub break_if: Option<BreakIfStatement>,
}

/// `break if expression;` (WGSL, "Break-If Statement")
#[derive(PartialEq)]
pub struct BreakIfStatement {
    /// its attributes
    pub attributes: Attributes,
    /// the condition that ends the loop
    pub expression: ExpressionNode,
}

impl Drop for Statement {
    #[cycle(letting_statement_go)]
    fn drop(self) {
        match self {
            Statement::Void => {}
            Statement::Compound(_) => {}
            Statement::Assignment {
                attributes: _,
                operator: _,
                lhs: _,
                rhs: _,
            } => {}
            Statement::Increment {
                attributes: _,
                expression: _,
            } => {}
            Statement::Decrement {
                attributes: _,
                expression: _,
            } => {}
            Statement::If {
                attributes: _,
                if_clause: _,
                else_if_clauses: _,
                else_clause: _,
            } => {}
            Statement::Switch {
                attributes: _,
                expression: _,
                body_attributes: _,
                clauses: _,
            } => {}
            Statement::Loop {
                attributes: _,
                body: _,
                continuing: _,
            } => {}
            Statement::For {
                attributes: _,
                initializer: _,
                condition: _,
                update: _,
                body: _,
            } => {}
            Statement::While {
                attributes: _,
                condition: _,
                body: _,
            } => {}
            Statement::Break { attributes: _ } => {}
            Statement::Continue { attributes: _ } => {}
            Statement::Return {
                attributes: _,
                expression: _,
            } => {}
            Statement::Discard { attributes: _ } => {}
            Statement::FunctionCall {
                attributes: _,
                call: _,
            } => {}
            Statement::ConstAssert(_) => {}
            Statement::Declaration(_) => {}
        }
    }
}

impl Drop for CompoundStatement {
    #[cycle(letting_statement_go)]
    fn drop(self) {
        let CompoundStatement {
            attributes: _,
            statements: _,
        } = self;
    }
}

impl Drop for IfClause {
    #[cycle(letting_statement_go)]
    fn drop(self) {
        let IfClause {
            expression: _,
            body: _,
        } = self;
    }
}

impl Drop for ElseIfClause {
    #[cycle(letting_statement_go)]
    fn drop(self) {
        let ElseIfClause {
            attributes: _,
            expression: _,
            body: _,
        } = self;
    }
}

impl Drop for ElseClause {
    #[cycle(letting_statement_go)]
    fn drop(self) {
        let ElseClause {
            attributes: _,
            body: _,
        } = self;
    }
}

impl Drop for CaseSelector {
    fn drop(self) {
        match self {
            CaseSelector::Default => {}
            CaseSelector::Expression(_) => {}
        }
    }
}

impl Drop for SwitchClause {
    #[cycle(letting_statement_go)]
    fn drop(self) {
        let SwitchClause {
            attributes: _,
            case_selectors: _,
            body: _,
        } = self;
    }
}

impl Drop for ContinuingStatement {
    #[cycle(letting_statement_go)]
    fn drop(self) {
        let ContinuingStatement {
            attributes: _,
            body: _,
            break_if: _,
        } = self;
    }
}

impl Drop for BreakIfStatement {
    fn drop(self) {
        let BreakIfStatement {
            attributes: _,
            expression: _,
        } = self;
    }
}
