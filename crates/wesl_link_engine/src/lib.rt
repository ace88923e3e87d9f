//! The engine of linking: symbol tables of units, what is reached, names and the linked unit. `wesl_link` has its calls.
#![tactic(auto)]

mod assemble;
mod given;
mod laws;
mod link;
mod loaded;
mod modules;
mod moving;
mod reasons;
mod refusals;
mod request;
mod resolutions;
mod resolve;
mod steps;

pub use laws::{law_of_eager_links, law_of_links};
pub use request::LinkRequest;
pub use resolutions::Resolutions;
pub use resolve::link_root;
pub use steps::Step;
