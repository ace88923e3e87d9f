//! A refused link, told by the numbers of its symbol tables: each of its faults with who asks for it and through whom, the
//! names that are near, what a name may stand for, and what helps.
#![tactic(auto)]

mod conditions;
mod cures;
mod faults;
mod held;
mod names;
mod refused;
mod targets;
mod uses;

pub use cures::FaultCure;
pub use faults::{FaultAt, Wrong, faults_at};
pub use held::{HeldNodes, held_nodes};
pub use refused::{HeldUntil, LinkFault, RefusedLink, refused_link};
pub use targets::Target;
pub use uses::Use;
pub use wesl_explain_names::{NearNames, Texts};
pub use wesl_explain_places::{ReadModule, ReadModules};
pub use wesl_explain_ways::{Chain, Cut, Way, no_way, whoever_asks};
pub use wesl_link_flaws::asker::Asker;
pub use wesl_link_flaws::told::Flaw;
