//! From the bytes of a bundle to what is told of its link: what is held and why, what clashes, what stays free, the imports that
//! nothing uses, and every fault. The program `wesl-explain` writes it.
#![tactic(auto)]

mod asking;
mod explaining;
mod explanation;
mod faults;
mod freeing;
mod holding;
mod loading;
mod refusing;
mod sources;
mod world;

pub use explaining::explained;
pub use explanation::{Explanation, Fault, FaultLine, FreeName, HeldDeclaration, UnusedImport};
pub use wesl_explain_clashes::{Clashes, Cure, Meaning, NameClash, Read};
pub use wesl_explain_faults::{
    Asker, Chain, Cut, FaultCure, Flaw, HeldUntil, LinkFault, Target, Use, Way, Wrong, whoever_asks,
};
pub use wesl_link_reasons::node::Node;
pub use wesl_link_symbols::ids::{NameId, PathId};
pub use wesl_link_symbols::symbols::Symbol;
