//! What is left of declarations.
ghost use Rattle.std.specs.Prelude.{◌≡◌};
ghost use Rattle.wesl_cond_chains.specs.Nodes.{answers};
ghost use Rattle.wesl_cond_chains.specs.Residual.{residual_tree};
ghost use Rattle.wesl_tree_syntax.specs.View.{declarations_tree, global_view};

use crate::statements::settle_body;
use wesl_cond_chains::settle_list;
use wesl_cond_features::Features;
use wesl_tree_names::Names;
use wesl_tree_syntax::{GlobalDeclaration, GlobalDeclarationNode};

/// Leaves what the features leave of declarations. No memory is taken.
pub fn settle_declarations(
    declarations: &mut Vec<GlobalDeclarationNode>,
    names: &Names,
    features: &Features,
)
    ensures { declarations_tree declarations.new ≡ residual_tree (answers names.now features.now) (declarations_tree declarations.old) }
{
    for node in declarations.iter_mut() {
        settle_global(&mut node.node, names, features);
    }
    settle_list(declarations, names, features);
}

/// Leaves what the features leave inside a declaration.
fn settle_global(declaration: &mut GlobalDeclaration, names: &Names, features: &Features)
    ensures { global_view declaration.new ≡ residual_tree (answers names.now features.now) (global_view declaration.old) }
{
    match declaration {
        GlobalDeclaration::Struct(structure) => {
            settle_list(&mut structure.members, names, features);
        }
        GlobalDeclaration::Function(function) => {
            settle_list(&mut function.parameters, names, features);
            settle_body(&mut function.body, names, features);
        }
        GlobalDeclaration::Void
        | GlobalDeclaration::Declaration(_)
        | GlobalDeclaration::TypeAlias(_)
        | GlobalDeclaration::ConstAssert(_) => {}
    }
}
