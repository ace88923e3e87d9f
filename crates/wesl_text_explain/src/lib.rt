//! Why the link of a project is as it is: what `wesl-explain` tells of its bundle, with the files and lines of what is told.
//!
//! Each call is proved safe and ends. What is told of the bundle is what `explained` of `wesl_explain_world` promises; where it stands
//! no clause says.
#![tactic(auto)]

mod explaining;
mod paths;
mod placing;

pub use explaining::explanation_of;
pub use wesl_explain_text::Shown;
