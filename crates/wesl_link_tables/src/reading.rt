//! A module as its identifiers are marked.
ghost use Rattle.std.specs.Prelude.{◌≡◌, [], option_map, IfOk, OnOk};
ghost use Rattle.wesl_tree_syntax.specs.Unit.{name_in};
ghost use Rattle.wesl_tree_syntax.specs.View.{global_view};
ghost use Rattle.wesl_link_tables.specs.Tables.{declared_name};
ghost use Rattle.wesl_link_tables.specs.Numbering.{AreRelated, IsRelatedOption, Grows, NameAt};
ghost use Rattle.wesl_link_tables.specs.NumbersView.{numbering};
ghost use Rattle.wesl_link_tables.specs.Reading.{NumbersNames};

use crate::numbers::{Numbers, spelling};
use std::alloc::AllocError;
use wesl_link_split::split::Scope;
use wesl_link_symbols::ids::{NameId, PathId};
use wesl_scope_meanings::Senses;
use wesl_tree::TranslationUnit;
use wesl_tree_names::{Ident, ModulePath, Names};
use wesl_tree_syntax::{GlobalDeclaration, GlobalDeclarationNode};

/// A module as its identifiers are marked.
#[derive(Clone, Copy)]
pub struct Reading<'a, 'b> {
    /// where it stands
    pub path: &'a ModulePath,
    /// the number of this path
    pub own: PathId,
    pub unit: &'a TranslationUnit,
    /// how its identifiers are read by plain scoping
    pub senses: &'a Senses<'b>,
    /// what its names stand for, by numbers
    pub scope: &'a Scope,
    /// of each of its names the number
    pub ids: &'a [NameId],
}

/// Adds the numbers of these names. Refused for want of memory alone.
pub fn add_ids(
    numbers: &mut Numbers,
    names: &Names,
    ids: &mut Vec<NameId>,
) -> Result<(), AllocError>
    requires { ids.old.items ≡ [] }
    ensures numbered { OnOk result (AreRelated (NameAt (numbering numbers.new)) ids.new.items names.now) }
    ensures grows { Grows (numbering numbers.old) (numbering numbers.new) }
{
    ids.reserve_exact(names.len())?;
    for i in 0..names.len() {
        let id = numbers.name(names.name(Ident(i)))?;
        ids.push(id)?;
    }
    Ok(())
}

/// The name that a global declaration binds; a const_assert and a void bind none.
pub fn declared_ident(declaration: &GlobalDeclaration) -> Option<Ident>
    ensures { option_map (λ i. i.0) result ≡ declared_name (global_view declaration.now).children }
{
    match declaration {
        GlobalDeclaration::Void => None,
        GlobalDeclaration::Declaration(declaration) => Some(declaration.ident),
        GlobalDeclaration::TypeAlias(alias) => Some(alias.ident),
        GlobalDeclaration::Struct(structure) => Some(structure.ident),
        GlobalDeclaration::Function(function) => Some(function.ident),
        GlobalDeclaration::ConstAssert(_) => None,
    }
}

/// The number of a name, if there is one.
fn number_ident(
    numbers: &mut Numbers,
    names: &Names,
    ident: Option<Ident>,
) -> Result<Option<NameId>, AllocError>
    ensures numbered { IfOk result (λ n. IsRelatedOption (NameAt (numbering numbers.new)) n (option_map (λ i. name_in names.now i.0) ident)) }
    ensures grows { Grows (numbering numbers.old) (numbering numbers.new) }
{
    match ident {
        Some(ident) => Ok(Some(numbers.name(spelling(names, ident))?)),
        None => Ok(None),
    }
}

/// Adds of each declaration the number of the name that it binds, if it binds one. Refused for want of memory alone.
pub fn add_names(
    numbers: &mut Numbers,
    names: &Names,
    nodes: &Vec<GlobalDeclarationNode>,
    found: &mut Vec<Option<NameId>>,
) -> Result<(), AllocError>
    requires { found.old.items ≡ [] }
    ensures numbered { OnOk result (NumbersNames (numbering numbers.new) names.now nodes.now found.new.items) }
    ensures grows { Grows (numbering numbers.old) (numbering numbers.new) }
{
    found.reserve_exact(nodes.len())?;
    for node in nodes {
        let ident = declared_ident(&node.node);
        let number = number_ident(numbers, names, ident)?;
        found.push(number)?;
    }
    Ok(())
}
