//! The faults of conditions in declarations. Nodes that do not stay are not entered.
ghost use Rattle.wesl_cond_chains.specs.Judging.{Checks};
ghost use Rattle.wesl_cond_chains.specs.Nodes.{replies};
ghost use Rattle.wesl_tree_syntax.specs.Tree.{before, end};
ghost use Rattle.wesl_tree_syntax.specs.View.{declarations_tree, global_view};

use crate::checks::check_body;
use std::alloc::Global;
use wesl_cond_chains::{check_list, stays};
use wesl_cond_features::{Chain, Features};
use wesl_tree_names::{Diagnostic, Names};
use wesl_tree_syntax::{GlobalDeclaration, GlobalDeclarationNode};

/// Judges the conditions of declarations, and in those that stay.
pub fn check_declarations(
    alloc: Global,
    declarations: &Vec<GlobalDeclarationNode>,
    names: &Names,
    features: &Features,
) -> Result<(), Diagnostic>
    ensures { Checks names.now (replies names.now features.now) (before (declarations_tree declarations.now) end) result }
{
    match check_list(alloc, declarations, names, features) {
        Ok(()) => {}
        Err(fault) => return Err(fault),
    }
    let mut chain = Chain::new();
    for node in declarations {
        if stays(node, &mut chain, names, features) {
            match check_global(alloc, &node.node, names, features) {
                Ok(()) => {}
                Err(fault) => return Err(fault),
            }
        }
    }
    Ok(())
}

/// Judges the conditions in a declaration.
fn check_global(
    alloc: Global,
    declaration: &GlobalDeclaration,
    names: &Names,
    features: &Features,
) -> Result<(), Diagnostic>
    ensures { Checks names.now (replies names.now features.now) (before (global_view declaration.now) end) result }
{
    match declaration {
        GlobalDeclaration::Struct(structure) => {
            check_list(alloc, &structure.members, names, features)
        }
        GlobalDeclaration::Function(function) => {
            match check_list(alloc, &function.parameters, names, features) {
                Ok(()) => check_body(alloc, &function.body, names, features),
                Err(fault) => Err(fault),
            }
        }
        GlobalDeclaration::Void
        | GlobalDeclaration::Declaration(_)
        | GlobalDeclaration::TypeAlias(_)
        | GlobalDeclaration::ConstAssert(_) => Ok(()),
    }
}
