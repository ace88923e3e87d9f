//! What matters of the nodes of a judged list, and chains in which no fault stands, whatever the flags.
ghost use Rattle.std.specs.Option.{option_map};
ghost use Rattle.std.specs.Prelude.{◌≡◌, Bool, map};
ghost use Rattle.wesl_cond_chains.specs.Chains.{follows_on};
ghost use Rattle.wesl_cond_chains.specs.Conditions.{first_condition};
ghost use Rattle.wesl_cond_chains.specs.Faults.{conditions};
ghost use Rattle.wesl_cond_chains.specs.FormulaFaults.{formula_faults};
ghost use Rattle.wesl_cond_chains.specs.Formulas.{form};
ghost use Rattle.wesl_cond_chains.specs.Nodes.{as_element, attributes_forest, condition_view};
ghost use Rattle.wesl_cond_features.specs.declared.features.Feature.TheVariants.{Keep};
ghost use Rattle.wesl_tree_syntax.specs.View.{expression_view};
ghost use Rattle.wesl_cond_alive.specs.Kept.{is_faultless};
ghost use Rattle.wesl_cond_alive.specs.Sound.{are_clean, is_chain_sound, is_rest_sound, is_whole, opens_chain, outline_of, whole_after};
ghost use Rattle.wesl_cond_alive.specs.Views.{outline_view};
ghost use Rattle.wesl_cond_alive.specs.Walk.{formula_of};

use wesl_cond_chains::{Condition, Conditional, condition_of};
use wesl_tree_syntax::{AttributeNode, BinaryOperator, Expression, Literal, UnaryOperator};

/// What matters of a node of a judged list.
#[derive(Clone, Copy)]
pub struct Outline<'a> {
    /// whether it is nothing but a `;`
    pub is_void: bool,
    /// its first condition
    pub condition: Option<Condition<'a>>,
    /// whether it has one condition at most, and that is a formula
    pub is_clean: bool,
}

impl<'a> Outline<'a> {
    /// That of a node.
    pub fn of<T: Conditional>(node: &'a T) -> Outline<'a>
        ensures { (closes : Bool) → outline_view result ≡ outline_of (as_element closes (T.tree node.now)) }
    {
        let attributes = node.attributes();
        Outline {
            is_void: node.is_void(),
            condition: first_condition(attributes),
            is_clean: are_clean(attributes),
        }
    }

    /// Whether the node goes on with a chain.
    pub fn follows_on(&self) -> bool
        ensures { result ≡ follows_on (outline_view self.now).condition }
    {
        match self.condition {
            Some(Condition::Elif(_) | Condition::Else) => true,
            Some(Condition::If(_)) | None => false,
        }
    }

    /// The formula of its first condition. No condition and an `@else` have none.
    pub fn formula(&self) -> Option<&'a Expression>
        ensures { option_map (λ e. form (expression_view e.now)) result ≡ formula_of (outline_view self.now).condition }
    {
        match self.condition {
            Some(Condition::If(formula) | Condition::Elif(formula)) => Some(&formula.node),
            Some(Condition::Else) | None => None,
        }
    }

    /// Whether an `@elif` or an `@else` may come next.
    fn opens_chain(&self) -> bool
        ensures { result ≡ opens_chain (outline_view self.now).condition }
    {
        match self.condition {
            Some(Condition::If(_) | Condition::Elif(_)) => true,
            Some(Condition::Else) | None => false,
        }
    }

    /// Whether the node stays whole, by whether the one before it does; of a void, the latter.
    pub fn whole_after(&self, before: bool, others: &[Outline<'a>]) -> bool
        ensures { result ≡ whole_after before (outline_view self.now) (map outline_view others.now) }
    {
        if self.is_void {
            return before;
        }
        self.is_whole(before, others)
    }

    /// Whether the node, which is no void, stays whole, by whether the one before it does.
    fn is_whole(&self, before: bool, others: &[Outline<'a>]) -> bool
        ensures { result ≡ is_whole before (outline_view self.now) (map outline_view others.now) }
    {
        match self.condition {
            Some(Condition::Elif(_) | Condition::Else) => before,
            Some(Condition::If(_)) => !self.is_chain_sound(others),
            None => true,
        }
    }

    /// Whether the chain that the node begins, before these others, is without fault.
    fn is_chain_sound(&self, others: &[Outline<'a>]) -> bool
        ensures { result ≡ is_chain_sound (outline_view self.now) (map outline_view others.now) }
    {
        self.is_clean && is_rest_sound(self.opens_chain(), others)
    }
}

/// The first condition among the attributes, if there is one.
#[tactic(auto, using(crate::proofs::Outlines::first_is))]
fn first_condition(attributes: &[AttributeNode]) -> Option<Condition<'_>>
    ensures { condition_view result ≡ first_condition (attributes_forest attributes.now) }
{
    for attribute in attributes {
        match condition_of(&attribute.node) {
            Some(condition) => return Some(condition),
            None => {}
        }
    }
    None
}

/// Whether one of the attributes is a condition at most, and that a formula.
fn are_clean(attributes: &[AttributeNode]) -> bool
    ensures { result ≡ are_clean (conditions (attributes_forest attributes.now)) }
{
    let mut seen = false;
    for attribute in attributes {
        match condition_of(&attribute.node) {
            Some(Condition::If(formula) | Condition::Elif(formula)) => {
                if seen || !is_formula(&formula.node) {
                    return false;
                }
                seen = true;
            }
            Some(Condition::Else) => {
                if seen {
                    return false;
                }
                seen = true;
            }
            None => {}
        }
    }
    true
}

/// Whether an expression is a formula: its flags have no template arguments, and nothing else stands in it.
#[cycle(formulas)]
#[tactic(auto, using(crate::proofs::Turns::faultless_both, wesl_tree_syntax::proofs::Views::view_binary))]
fn is_formula(expression: &Expression) -> bool
    ensures { result ≡ is_faultless (formula_faults (λ flag. Keep) (form (expression_view expression.now))) }
{
    match expression {
        Expression::Literal(Literal::Bool(true)) => true,
        Expression::Literal(Literal::Bool(false)) => true,
        Expression::Parenthesized { expression } => is_formula(&expression.node),
        Expression::Unary {
            operator: UnaryOperator::LogicalNegation,
            operand,
        } => is_formula(&operand.node),
        Expression::Binary {
            operator,
            left,
            right,
        } => match operator {
            BinaryOperator::ShortCircuitAnd | BinaryOperator::ShortCircuitOr => {
                is_formula(&left.node) && is_formula(&right.node)
            }
            BinaryOperator::Addition
            | BinaryOperator::Subtraction
            | BinaryOperator::Multiplication
            | BinaryOperator::Division
            | BinaryOperator::Remainder
            | BinaryOperator::Equality
            | BinaryOperator::Inequality
            | BinaryOperator::LessThan
            | BinaryOperator::LessThanEqual
            | BinaryOperator::GreaterThan
            | BinaryOperator::GreaterThanEqual
            | BinaryOperator::BitwiseOr
            | BinaryOperator::BitwiseAnd
            | BinaryOperator::BitwiseXor
            | BinaryOperator::ShiftLeft
            | BinaryOperator::ShiftRight => false,
        },
        Expression::TypeOrIdentifier(ty) => ty.template_args.is_none(),
        Expression::Literal(Literal::Text(_))
        | Expression::NamedComponent { .. }
        | Expression::Indexing { .. }
        | Expression::Unary { .. }
        | Expression::FunctionCall(_) => false,
    }
}

/// Whether what a list has of a chain, which is open or not, is without fault.
fn is_rest_sound(opened: bool, nodes: &[Outline<'_>]) -> bool
    ensures { result ≡ is_rest_sound opened (map outline_view nodes.now) }
{
    let mut opened = opened;
    for node in nodes {
        if !node.is_void {
            if !node.follows_on() {
                return true;
            }
            if !opened || !node.is_clean {
                return false;
            }
            opened = node.opens_chain();
        }
    }
    true
}
