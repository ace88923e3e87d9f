//! Shader text: units read from it, and printed as it.
#![tactic(auto)]

mod fault;
pub mod laws;
mod printing;
mod reading;
mod text;

pub use fault::TextFault;
pub use printing::print_unit;
pub use reading::read_unit;
pub use text::WeslText;
pub use wesl_text_read::Expected;
pub use wesl_text_read_unit::MOST_LEVELS;
pub use wesl_text_sink::PrintFault;
pub use wesl_text_tokens::{Symbol, Token, TokenFault};
