//! All faults of conditions in imports, directives and declarations. Nodes that do not stay are not entered, and neither are
//! those of a list that has a fault.
ghost use Rattle.wesl_cond_faults.specs.Telling.{AddsInside, AddsStaying};
ghost use Rattle.wesl_tree_syntax.specs.Tree.{declaration_node};
ghost use Rattle.wesl_tree_syntax.specs.View.{declarations_tree, global_view, placed};

use crate::lists::{is_clear, tell_list};
use crate::statements::tell_body;
use crate::told::Told;
use wesl_cond_chains::{check_list, stays};
use wesl_cond_features::{Chain, Features};
use wesl_tree_names::Names;
use wesl_tree_syntax::{Function, GlobalDeclaration, GlobalDeclarationNode};

/// Tells the faults of the conditions of declarations, or those in the declarations that stay.
pub fn tell_declarations(
    told: &mut Told,
    declarations: &Vec<GlobalDeclarationNode>,
    names: &Names,
    features: &Features,
)
    ensures { AddsInside names.now features.now (declarations_tree declarations.now) told.old told.new }
{
    if is_clear(check_list(told.alloc, declarations, names, features)) {
        tell_in_declarations(told, declarations, names, features);
    } else {
        tell_list(told, declarations, names, features);
    }
}

/// Tells the faults of conditions in the declarations that stay.
fn tell_in_declarations(
    told: &mut Told,
    declarations: &Vec<GlobalDeclarationNode>,
    names: &Names,
    features: &Features,
)
    ensures { AddsStaying names.now features.now (placed global_view declaration_node) declarations.now.items told.old told.new }
{
    let mut chain = Chain::new();
    for node in declarations {
        if stays(node, &mut chain, names, features) {
            tell_global(told, &node.node, names, features);
        }
    }
}

/// Tells the faults of conditions in a declaration.
fn tell_global(told: &mut Told, declaration: &GlobalDeclaration, names: &Names, features: &Features)
    ensures { AddsInside names.now features.now (global_view declaration.now) told.old told.new }
{
    match declaration {
        GlobalDeclaration::Struct(structure) => {
            tell_list(told, &structure.members, names, features);
        }
        GlobalDeclaration::Function(function) => {
            tell_list(told, &function.parameters, names, features);
            tell_body(told, &function.body, names, features);
        }
        // no list lies in the others
        _ => {}
    }
}
