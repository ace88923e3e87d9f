//! What is told of a link, as text: with the files and lines in which declarations, imports and uses stand, as far as these are known.
#![tactic(auto)]

mod apart;
mod chains;
mod cures;
mod faults_text;
mod headings;
mod places;
mod shown;
mod text;
mod uses;

pub use chains::{chain_at, chain_of, loaded_in};
pub use cures::cure_word;
pub use places::{ModuleFile, Places};
pub use shown::Shown;
pub use text::text_of;
