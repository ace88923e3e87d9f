//! From trees to shader text: a node is printed into a sink of tokens, which is given exactly the tokens of its grammar.
#![tactic(auto)]

mod expression;
mod operand;
mod path;
mod sink;

pub use expression::{
    end_commas, print_call, print_comma, print_expression, print_expressions, print_name,
    print_type, spelling,
};
pub use path::{print_relative, print_step, print_steps};
pub use sink::{TokenSink, Unwritable};
