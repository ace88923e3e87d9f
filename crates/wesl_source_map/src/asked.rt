//! A mapper that is asked for modules by generic code, and what it keeps meanwhile.
ghost use Rattle.std.specs.Prelude.{Option, None};
ghost use Rattle.wesl_tree_names.specs.Path.{Text, Path};
ghost use Rattle.wesl_source_map_entries.specs.Records.{Items, Sources};

use crate::mapper::SourceMapper;
use std::alloc::Global;
use std::marker::{Brand, PhantomData};
use wesl_mangle_forms::Mangler;
use wesl_resolve_base::Resolver;
use wesl_tree::TranslationUnit;
use wesl_tree_names::{ModulePath, ResolveError};

/// What a mapper had recorded, what its resolver gave, and the names that its mangler gave, before it was asked. A call picks
/// them.
pub trait Start {
    // the items that names stood for
    ghost items: { Items };

    // what was known of the modules
    ghost sources: { Sources };

    // the source of what is in no module
    ghost default: { Option Text };

    // the text was given as the source at the path
    ghost gives: { Path → Text → Type 0 };

    // the path was shown by the name, or by none
    ghost shows: { Path → Option Text → Type 0 };

    // the name of an item of a module
    ghost name_of: { Path → Text → Text };
}

impl Start for Brand {
    ghost items = { λ name. None };

    ghost sources = { λ path. None };

    ghost default = { None };

    ghost gives = { λ path text. ⊥ };

    ghost shows = { λ path name. ⊥ };

    ghost name_of = { λ path item. item };
}

/// A mapper as a resolver alone: whoever asks it leaves the names that are recorded, those that the mangler gives, and the
/// default source. No source that was recorded is lost, and each that is recorded was, or is one of the resolver's.
///
/// That is part of when it may be asked, which no call of a resolver changes: so generic code keeps it.
#[derive(Drop)]
pub struct Asked<R, M, S: Start> {
    /// The mapper that is asked.
    pub mapper: SourceMapper<R, M>,
    /// What it had recorded before.
    pub start: PhantomData<S>,
}

impl<R: Resolver, M: Mangler, S: Start> Resolver for Asked<R, M, S> {
    ghost use Rattle.wesl_source_map.specs.Starting.{KeepsStart};

    ghost ready = { λ s. R.ready s.mapper.resolver × KeepsStart S.Start R.Resolver M.Mangler s.mapper };

    ghost hands = { λ s. R.hands s.mapper.resolver };

    ghost refuses = { λ s. R.refuses s.mapper.resolver };

    ghost source = { λ s. R.source s.mapper.resolver };

    ghost lacks = { λ s. R.lacks s.mapper.resolver };

    ghost shown = { λ s. R.shown s.mapper.resolver };

    fn resolve_source(&mut self, alloc: Global, path: &ModulePath) -> Result<String, ResolveError> {
        self.mapper.resolve_source(alloc, path)
    }

    fn resolve_module(
        &mut self,
        alloc: Global,
        path: &ModulePath,
    ) -> Result<TranslationUnit, ResolveError> {
        self.mapper.resolve_module(alloc, path)
    }

    fn display_name(
        &self,
        alloc: Global,
        path: &ModulePath,
    ) -> Result<Option<String>, ResolveError> {
        self.mapper.display_name(alloc, path)
    }
}
