//! The modules of a project, read when they are asked for.
use crate::asking::{declared, name_of};
use indexmap::IndexMap;
use std::alloc::{AllocError, Global};
use std::fs;
use std::rt::Files;
use wesl_cond::condition;
use wesl_cond_alive::flags_of_unit;
use wesl_cond_features::Features;
use wesl_resolve_base::{Resolver, copied, not_found, refused};
use wesl_text::{TextFault, read_unit};
use wesl_text_homes::Libraries;
use wesl_text_homes_rewrite::redirect;
use wesl_text_lines::LineStarts;
use wesl_text_project::{Layout, ModuleFile, Progress, module_file};
use wesl_tree::{Diagnostic, Error, ModulePath, ResolveError, Span, TranslationUnit};

/// A module that was read.
#[derive(Drop)]
pub struct ReadModule {
    /// Its file.
    pub file: String,
    /// What the file says, up to its first byte that is no text.
    pub text: String,
    /// Whether the whole file is text.
    pub is_text: bool,
    /// Where its lines begin.
    pub lines: LineStarts,
    /// The names that it declares, with the places of their declarations, in the order of the text.
    pub declared: Vec<(Span, String)>,
}

/// The modules of a project, as its features leave them, at the homes of their libraries. Each is read when it is asked for, and what
/// was read is kept, so that faults and comments can tell lines of it.
pub struct ProjectModules<'r, R> {
    pub(crate) rt: &'r R,
    pub(crate) layout: &'r Layout,
    pub(crate) libraries: &'r Libraries,
    pub(crate) features: Option<&'r Features>,
    pub(crate) read: IndexMap<ModulePath, ReadModule>,
    // The flags that are asked for, and whether a module that was read has them.
    pub(crate) flags: IndexMap<String, bool>,
    // What tells how far it is, if that is asked for.
    progress: Option<Progress>,
}

impl<'r, R> Drop for ProjectModules<'r, R> {
    fn drop(self) {
        let ProjectModules {
            rt: _,
            layout: _,
            libraries: _,
            features: _,
            read: _,
            flags: _,
            progress: _,
        } = self;
    }
}

impl<'r, R: Files + AllocGlobal> ProjectModules<'r, R> {
    /// Those of a layout with these libraries, under features; without features no condition is judged. The flags are asked for in the
    /// modules that are read. Where `progress` is given, it tells how many were read.
    pub fn new(
        rt: &'r R,
        layout: &'r Layout,
        libraries: &'r Libraries,
        features: Option<&'r Features>,
        flags: &[&str],
        progress: Option<Progress>,
    ) -> Result<ProjectModules<'r, R>, AllocError> {
        let alloc = rt.alloc();
        let mut asked = IndexMap::new(alloc);
        for flag in flags.iter() {
            asked.insert(String::from_str(alloc, flag)?, false)?;
        }
        Ok(ProjectModules {
            rt,
            layout,
            libraries,
            features,
            read: IndexMap::new(alloc),
            flags: asked,
            progress,
        })
    }

    // Reads a file, and keeps what it says.
    fn read_file(&mut self, path: ModulePath, file: String) -> Result<(), ResolveError> {
        let alloc = self.rt.alloc();
        let bytes = match fs::read(self.rt, file.as_str()) {
            Ok(bytes) => bytes,
            Err(fault) => {
                let reason = format!(in alloc; "{fault}")?;
                return Err(ResolveError::FileNotFound(file, reason));
            }
        };
        let (text, is_text) = text_of_bytes(alloc, bytes.as_slice())?;
        let lines = LineStarts::of(alloc, text.as_str())?;
        let module = ReadModule {
            file,
            text,
            is_text,
            lines,
            declared: Vec::new(alloc),
        };
        self.read.insert(path, module)?;
        let count = self.read.len();
        if let Some(progress) = &mut self.progress {
            progress.tell(count);
        }
        Ok(())
    }

    // The unit that a module says which was read.
    fn unit_read(&self, alloc: Global, path: &ModulePath) -> Result<TranslationUnit, ResolveError> {
        match self.read.get(path) {
            Some(module) => unit_of_module(alloc, path, module),
            None => Err(ResolveError::Memory),
        }
    }

    // Notes what a unit declares, and its flags among those that are asked for.
    fn note_unit(
        &mut self,
        alloc: Global,
        path: &ModulePath,
        unit: &TranslationUnit,
    ) -> Result<(), AllocError> {
        let declared = declared_in(alloc, unit)?;
        if let Some(module) = self.read.get_mut(path) {
            module.declared = declared;
        }
        self.note_flags(alloc, unit)
    }

    // Notes the flags of a unit among those that are asked for.
    fn note_flags(&mut self, alloc: Global, unit: &TranslationUnit) -> Result<(), AllocError> {
        if self.flags.len() == 0 {
            return Ok(());
        }
        for flag in flags_of_unit(alloc, unit)? {
            if let Some(is_known) = self.flags.get_mut(flag) {
                *is_known = true;
            }
        }
        Ok(())
    }

    // The unit of a file, as the features leave it, with paths to the homes of libraries.
    fn unit_of_file(
        &mut self,
        alloc: Global,
        path: &ModulePath,
        file: String,
    ) -> Result<TranslationUnit, ResolveError> {
        let Some(at) = copy_of(alloc, path) else {
            return Err(ResolveError::Memory);
        };
        self.read_file(at, file)?;
        let unit = self.unit_read(alloc, path)?;
        if self.note_unit(alloc, path, &unit).is_err() {
            return Err(ResolveError::Memory);
        }
        match condition(alloc, unit, self.features) {
            Ok(left) => Ok(redirect(alloc, left, path, self.libraries)?),
            Err(fault) => Err(refused(alloc, fault, path, None, None)),
        }
    }
}

// The names that a unit declares, with the places of their declarations.
fn declared_in(alloc: Global, unit: &TranslationUnit) -> Result<Vec<(Span, String)>, AllocError> {
    let mut names = Vec::new(alloc);
    for node in unit.global_declarations() {
        if let Some(ident) = declared(&node.node) {
            let name = String::from_str(alloc, name_of(unit.names(), ident))?;
            names.push((node.span, name))?;
        }
    }
    Ok(names)
}

// A copy of a path, none for want of memory.
fn copy_of(alloc: Global, path: &ModulePath) -> Option<ModulePath> {
    wesl_text_project::or_memory(path.try_clone(alloc)).ok()
}

// The text that bytes are, up to the first that is none, and whether that is all.
fn text_of_bytes(alloc: Global, bytes: &[u8]) -> Result<(String, bool), AllocError> {
    match std::str::from_utf8(bytes) {
        Ok(text) => Ok((String::from_str(alloc, text)?, true)),
        Err(fault) => {
            let text = match bytes.get(..fault.valid_up_to()) {
                Some(valid) => std::str::from_utf8(valid).unwrap_or(""),
                None => "",
            };
            Ok((String::from_str(alloc, text)?, false))
        }
    }
}

/// The unit that a module says at a path. Refused where its file has none, and for want of memory.
pub fn unit_of_module(
    alloc: Global,
    path: &ModulePath,
    module: &ReadModule,
) -> Result<TranslationUnit, ResolveError> {
    let text = module.text.as_str();
    if !module.is_text {
        let place = u32::try_from(text.len()).ok();
        let reason = String::from_str(alloc, "this byte is not UTF-8")?;
        return Err(unreadable(alloc, path, reason, place));
    }
    match read_unit(alloc, text) {
        Ok(unit) => Ok(unit),
        Err(TextFault::Memory) => Err(ResolveError::Memory),
        Err(fault) => {
            let reason = format!(in alloc; "{fault}")?;
            Err(unreadable(alloc, path, reason, fault.place()))
        }
    }
}

// The refusal of a module whose text cannot be read.
fn unreadable(
    alloc: Global,
    path: &ModulePath,
    reason: String,
    place: Option<u32>,
) -> ResolveError {
    let span = match place {
        Some(start) => Some(Span { start, end: start }),
        None => None,
    };
    let told = Diagnostic {
        error: Error::BadTree(reason),
        declaration: None,
        module: None,
        display: None,
        span,
        source: None,
    };
    match Box::new(alloc, told) {
        Ok(told) => refused(
            alloc,
            Error::Resolve(ResolveError::Error(told)),
            path,
            None,
            None,
        ),
        Err(_) => ResolveError::Memory,
    }
}

/// At each path what its file says, as the features leave it, with paths to the homes of libraries. No clause knows the files, so
/// nothing is promised of it.
impl<R: Files + AllocGlobal> Resolver for ProjectModules<'_, R> {
    ghost hands = { λ _ p u. Unit {0} };

    ghost refuses = { λ _ p e. Unit {0} };

    ghost source = { λ _ p text. Unit {0} };

    ghost shown = { λ _ p name. Unit {0} };

    fn resolve_source(&mut self, alloc: Global, path: &ModulePath) -> Result<String, ResolveError> {
        match self.read.get(path) {
            Some(module) => copied(alloc, module.text.as_str()),
            None => Err(not_found(alloc, path, "it was not read")),
        }
    }

    fn resolve_module(
        &mut self,
        alloc: Global,
        path: &ModulePath,
    ) -> Result<TranslationUnit, ResolveError> {
        let told = self.libraries.told_path(alloc, path)?;
        match module_file(self.rt, alloc, self.layout, &told) {
            Ok(ModuleFile::File(file)) => self.unit_of_file(alloc, path, file),
            Ok(ModuleFile::Folder) => Ok(TranslationUnit::new(alloc)),
            Ok(ModuleFile::Missing(reason)) => Err(not_found(alloc, path, reason.as_str())),
            Err(_) => Err(ResolveError::Memory),
        }
    }

    fn display_name(
        &self,
        _alloc: Global,
        _path: &ModulePath,
    ) -> Result<Option<String>, ResolveError> {
        Ok(None)
    }
}
