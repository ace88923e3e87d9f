//! The link of a project of shader text: from the files of its modules to the text of the linked unit, or to its faults, told by
//! file, line and column.
//!
//! Each module is read when the link asks for it. What is handed out is what `wesl_text` reads of the file's bytes, as the features
//! leave it; that the bytes are those of a file at the module's path no clause knows, so that the resolver's ghost members promise
//! nothing. That all of it is safe and ends is proved; what is linked and printed of the modules that were handed out is promised by
//! `linked_text` of `wesl_text_linked`, which it calls.
#![tactic(auto)]

mod asking;
mod clashing;
mod comments;
mod linking;
mod mapping;
mod modules;
mod places;
mod read_modules;
mod searching;
mod telling;
mod texts;

pub use asking::{bound_names, declared, name_of};
pub use linking::{LinkWish, LinkedText, Naming, copies, entry_points, linked_text};
pub use mapping::MapWish;
pub use modules::{ProjectModules, ReadModule, unit_of_module};
pub use read_modules::ReadModules;
pub use telling::refusal_line;
pub use wesl_text_linked::Validation;
