//! Linking: many modules into one unit (WESL, "Imports"), as they are, or as features leave them, and with a record of the
//! names that are printed (WESL, "NameMangling"). A `Resolutions` is what a link found: its modules, their order, the names
//! that they print as, and the linked unit. `wesl_link_engine` does the work.
#![tactic(auto)]

mod conditional;
pub mod laws;
mod mapped;
mod resolutions;
mod resolve;

pub use conditional::{link_at, link_under};
pub use mapped::{FoundLink, Mapped, find_mapped, link_mapped};
pub use resolutions::Resolutions;
pub use resolve::{resolve_eager, resolve_lazy};
pub use wesl_cond::condition;
pub use wesl_link_engine::{LinkRequest, Step};
pub use wesl_resolve_base::Resolver;
