//! The words of statements, and of what stands in modules and in functions.
ghost use Rattle.std.specs.Prelude.{◌≡◌, Bool, IfSome, option_map};
ghost use Rattle.wesl_tree_syntax.specs.Tree.{Kind, access, assignment, space};
ghost use Rattle.wesl_json_form.specs.Nodes.{declared_words, statement_words};
ghost use Rattle.wesl_json_form.specs.Schema.{look};
ghost use Rattle.wesl_json_form.specs.Words.{access_words, assignment_words, space_words};
ghost use Rattle.wesl_json_read_statements.specs.Forms.{declared_of, declared_text, statement_of, statement_text};

use wesl_tree_syntax::{AccessMode, AddressSpace, AssignmentOperator};

/// The words at `k` of a declaration that has no address space.
#[derive(Clone, Copy)]
pub enum ValueWord {
    Const,
    Override,
    Let,
}

/// The words at `k` of what stands in modules and in functions.
#[derive(Clone, Copy)]
pub enum DeclaredWord {
    Value(ValueWord),
    Var,
    Assert,
    Void,
}

/// The words at `k` of statements.
#[derive(Clone, Copy)]
pub(crate) enum StatementWord {
    Block,
    Assign,
    Increment,
    Decrement,
    If,
    Switch,
    Loop,
    For,
    While,
    Break,
    Continue,
    Discard,
    Return,
    Call,
    Declared(DeclaredWord),
}

/// The words at `k` of statements that have attributes and an operand.
#[derive(Clone, Copy)]
pub(crate) enum StepWord {
    Increment,
    Decrement,
}

/// The words at `k` of statements that have attributes alone.
#[derive(Clone, Copy)]
pub(crate) enum JumpWord {
    Break,
    Continue,
    Discard,
}

/// What a word names in modules and in functions.
pub fn declared_word(text: &str) -> Option<DeclaredWord>
    ensures node { (spans : Bool) (outer : Kind) → option_map (declared_of spans outer) result ≡ look (declared_words spans outer) text.now }
    ensures text { IfSome result (λ w. text.now ≡ declared_text w) }
{
    match text {
        "const" => Some(DeclaredWord::Value(ValueWord::Const)),
        "override" => Some(DeclaredWord::Value(ValueWord::Override)),
        "let" => Some(DeclaredWord::Value(ValueWord::Let)),
        "var" => Some(DeclaredWord::Var),
        "assert" => Some(DeclaredWord::Assert),
        "void" => Some(DeclaredWord::Void),
        _ => None,
    }
}

/// The statement that a word names.
pub(crate) fn statement_word(text: &str) -> Option<StatementWord>
    ensures node { (spans : Bool) → option_map (statement_of spans) result ≡ look (statement_words spans) text.now }
    ensures text { IfSome result (λ w. text.now ≡ statement_text w) }
{
    match text {
        "block" => Some(StatementWord::Block),
        "assign" => Some(StatementWord::Assign),
        "inc" => Some(StatementWord::Increment),
        "dec" => Some(StatementWord::Decrement),
        "if" => Some(StatementWord::If),
        "switch" => Some(StatementWord::Switch),
        "loop" => Some(StatementWord::Loop),
        "for" => Some(StatementWord::For),
        "while" => Some(StatementWord::While),
        "break" => Some(StatementWord::Break),
        "continue" => Some(StatementWord::Continue),
        "discard" => Some(StatementWord::Discard),
        "return" => Some(StatementWord::Return),
        "call" => Some(StatementWord::Call),
        _ => match declared_word(text) {
            Some(word) => Some(StatementWord::Declared(word)),
            None => None,
        },
    }
}

/// The operator of an assignment that a word names.
pub(crate) fn assignment_operator(text: &str) -> Option<AssignmentOperator>
    ensures { option_map assignment result ≡ look assignment_words text.now }
{
    match text {
        "=" => Some(AssignmentOperator::Equal),
        "+=" => Some(AssignmentOperator::PlusEqual),
        "-=" => Some(AssignmentOperator::MinusEqual),
        "*=" => Some(AssignmentOperator::TimesEqual),
        "/=" => Some(AssignmentOperator::DivisionEqual),
        "%=" => Some(AssignmentOperator::ModuloEqual),
        "&=" => Some(AssignmentOperator::AndEqual),
        "|=" => Some(AssignmentOperator::OrEqual),
        "^=" => Some(AssignmentOperator::XorEqual),
        "<<=" => Some(AssignmentOperator::ShiftLeftAssign),
        ">>=" => Some(AssignmentOperator::ShiftRightAssign),
        _ => None,
    }
}

/// The address space that a word names.
pub(crate) fn address_space(text: &str) -> Option<AddressSpace>
    ensures { option_map space result ≡ look space_words text.now }
{
    match text {
        "function" => Some(AddressSpace::Function),
        "private" => Some(AddressSpace::Private),
        "workgroup" => Some(AddressSpace::Workgroup),
        "uniform" => Some(AddressSpace::Uniform),
        "storage" => Some(AddressSpace::Storage),
        "handle" => Some(AddressSpace::Handle),
        _ => None,
    }
}

/// The access mode that a word names.
pub(crate) fn access_mode(text: &str) -> Option<AccessMode>
    ensures { option_map access result ≡ look access_words text.now }
{
    match text {
        "read" => Some(AccessMode::Read),
        "write" => Some(AccessMode::Write),
        "read_write" => Some(AccessMode::ReadWrite),
        _ => None,
    }
}
