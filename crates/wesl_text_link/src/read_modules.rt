//! What a link read, for those who tell of it.
use crate::modules::{ProjectModules, ReadModule};
use indexmap::IndexMap;
use std::alloc::{AllocError, Global};
use wesl_cond_features::Features;
use wesl_text_homes::Libraries;
use wesl_text_project::Layout;
use wesl_tree::ModulePath;

/// The modules that a link read, and what they were read by.
#[derive(Clone, Copy)]
pub struct ReadModules<'m> {
    /// Where the modules lie.
    pub layout: &'m Layout,
    /// The libraries of the project.
    pub libraries: &'m Libraries,
    /// The answers to flags, where conditions are judged.
    pub features: Option<&'m Features>,
    /// The modules by their paths, as a link has these, in the order in which they were asked for.
    pub read: &'m IndexMap<ModulePath, ReadModule>,
    // The flags that are asked for, and whether a module that was read has them.
    flags: &'m IndexMap<String, bool>,
}

impl<'r, R> ProjectModules<'r, R> {
    /// The modules that were read so far.
    pub fn read_modules(&self) -> ReadModules<'_> {
        ReadModules {
            layout: self.layout,
            libraries: self.libraries,
            features: self.features,
            read: &self.read,
            flags: &self.flags,
        }
    }
}

impl<'m> ReadModules<'m> {
    /// The files that were read, in the order in which they were asked for. Refused for want of memory alone.
    pub fn files(self, alloc: Global) -> Result<Vec<&'m str>, AllocError> {
        let mut files = Vec::new(alloc);
        for module in self.read.values() {
            files.push(module.file.as_str())?;
        }
        Ok(files)
    }

    /// The flags that were asked for and that no module has which was read. Refused for want of memory alone.
    pub fn unknown_flags(self, alloc: Global) -> Result<Vec<&'m str>, AllocError> {
        let mut unknown = Vec::new(alloc);
        for (flag, is_known) in self.flags.iter() {
            if !*is_known {
                unknown.push(flag.as_str())?;
            }
        }
        Ok(unknown)
    }
}
