//! Identifiers as they stand in a module.
ghost use Rattle.std.specs.Prelude.{◌≡◌};
ghost use Rattle.wesl_scope_occurrences.specs.Occurrences.{is_module_name, is_binder, is_reference, is_unqualified};
ghost use Rattle.wesl_scope_occurrences.specs.Walk.{ended_as};
ghost use Rattle.wesl_scope_occurrences.specs.Bare.{bare_as};
ghost use Rattle.wesl_scope_occurrences.specs.Views.{standing_view};

use wesl_tree::{Ident, ModulePath};

/// How an identifier stands (WGSL, "Declaration and Scope").
#[derive(Clone, Copy)]
pub enum Standing<'a> {
    /// the name of an import or of a global declaration
    ModuleName,
    /// the name of a parameter
    Parameter,
    /// the name of a declaration statement
    Local {
        /// the place at which that statement has ended
        end: usize,
    },
    /// a reference, with its path where it is qualified
    Reference(Option<&'a ModulePath>),
    /// a name in a condition, in an attribute of an import or a directive, or of an item that an import renames
    Word,
}

impl<'a> Standing<'a> {
    /// Whether it is the name of an import or of a global declaration.
    pub fn is_module_name(&self) -> bool
        ensures { result ≡ is_module_name (standing_view self.now) }
    {
        match self {
            Standing::ModuleName => true,
            _ => false,
        }
    }

    /// Whether what stands so declares its name.
    pub fn is_binder(&self) -> bool
        ensures { result ≡ is_binder (standing_view self.now) }
    {
        match self {
            Standing::ModuleName => true,
            Standing::Parameter => true,
            Standing::Local { end: _ } => true,
            Standing::Reference(_) => false,
            Standing::Word => false,
        }
    }

    /// Whether it is a reference.
    pub fn is_reference(&self) -> bool
        ensures { result ≡ is_reference (standing_view self.now) }
    {
        match self {
            Standing::Reference(_) => true,
            _ => false,
        }
    }

    /// Whether it is a reference without a path.
    pub fn is_unqualified(&self) -> bool
        ensures { result ≡ is_unqualified (standing_view self.now) }
    {
        match self {
            Standing::Reference(None) => true,
            _ => false,
        }
    }

    /// The same, where a reference has no path.
    pub(crate) fn without_path<'b>(&self) -> Standing<'b>
        ensures { standing_view result ≡ bare_as (standing_view self.now) }
    {
        match self {
            Standing::ModuleName => Standing::ModuleName,
            Standing::Parameter => Standing::Parameter,
            Standing::Local { end } => Standing::Local { end: *end },
            Standing::Reference(_) => Standing::Reference(None),
            Standing::Word => Standing::Word,
        }
    }

    /// The same, where the declaration has ended if it is of a local name.
    pub(crate) fn ended(self, end: usize) -> Standing<'a>
        ensures { standing_view result ≡ ended_as end (standing_view self.entry) }
    {
        match self {
            Standing::ModuleName => Standing::ModuleName,
            Standing::Parameter => Standing::Parameter,
            Standing::Local { end: _ } => Standing::Local { end },
            Standing::Reference(path) => Standing::Reference(path),
            Standing::Word => Standing::Word,
        }
    }
}

/// An identifier of a module.
#[derive(Clone, Copy)]
pub struct Occurrence<'a> {
    /// how it stands
    pub standing: Standing<'a>,
    /// its number
    pub ident: Ident,
    /// how many identifiers come before it
    pub place: usize,
    /// the number of the block that it stands in, 0 for the module's
    pub block: usize,
    /// the number of the global declaration that it lies in
    pub declaration: Option<usize>,
    /// whether it lies in the arguments of a custom attribute
    pub is_excused: bool,
}
