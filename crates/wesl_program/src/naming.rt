//! The mangler that a bundle asks for.
ghost use Rattle.std.specs.Prelude.{None, false};
ghost use Rattle.wesl_program.specs.Naming.{named_by, read_by, variant_by};

use std::alloc::Global;
use wesl_mangle::{EscapeMangler, Mangler, NoMangler, UnicodeMangler};
use wesl_program_bundle::Naming;
use wesl_tree_names::{Error, ModulePath, Names};
use wesl_tree_syntax::TypeExpression;

/// Names items as the mangler does that a bundle asks for.
#[derive(Clone, Copy, Drop)]
pub struct BundleMangler {
    /// the mangler
    pub naming: Naming,
}

impl Mangler for BundleMangler {
    ghost use Rattle.wesl_program.specs.Naming.{named_by, read_by, variant_by};

    ghost name_of = { λ m. named_by m.naming };

    ghost recorded = { λ _ name. None };

    ghost writes = { λ _. false };

    ghost item_of = { λ m. read_by m.naming };

    ghost variant_of = { λ m. variant_by m.naming };

    fn mangle(&mut self, alloc: Global, path: &ModulePath, item: &str) -> Result<String, Error> {
        match self.naming {
            Naming::Escape => EscapeMangler.mangle(alloc, path, item),
            Naming::Unicode => UnicodeMangler.mangle(alloc, path, item),
            Naming::Own => NoMangler.mangle(alloc, path, item),
        }
    }

    fn unmangle(
        &self,
        alloc: Global,
        mangled: &str,
    ) -> Result<Option<(ModulePath, String)>, Error> {
        match self.naming {
            Naming::Escape => EscapeMangler.unmangle(alloc, mangled),
            Naming::Unicode => UnicodeMangler.unmangle(alloc, mangled),
            Naming::Own => NoMangler.unmangle(alloc, mangled),
        }
    }

    fn mangle_types(
        &self,
        alloc: Global,
        names: &Names,
        item: &str,
        variant: u32,
        types: &[TypeExpression],
    ) -> Result<String, Error> {
        match self.naming {
            Naming::Escape => EscapeMangler.mangle_types(alloc, names, item, variant, types),
            Naming::Unicode => UnicodeMangler.mangle_types(alloc, names, item, variant, types),
            Naming::Own => NoMangler.mangle_types(alloc, names, item, variant, types),
        }
    }
}
