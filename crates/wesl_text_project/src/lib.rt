//! Projects of shader text: a folder of modules with what describes it, the packages that its modules use, which file a module's
//! path stands for, and the line of a text in which something stands.
//!
//! Each call is proved safe and ends. What paths, words and names stand for is pinned; what the files of a folder are is not for a
//! clause to know.
#![tactic(auto)]

mod described;
mod description;
mod fault;
mod files;
mod layout;
mod packages;
mod paths;
mod places;
mod progress;
mod roots;

pub use description::{Description, FeatureSet, description_of, feature_of};
pub use fault::{ProjectFault, or_memory};
pub use files::{ModuleFile, module_file};
pub use layout::{Layout, PackageFolder};
pub use packages::{given_packages, layout_of};
pub use paths::{below, shown_below};
pub use places::line_at;
pub use progress::Progress;
pub use roots::{default_root, parsed_root, root_of_file};
