//! Entry points.
ghost use Rattle.std.specs.Prelude.{◌≡◌, ◌∷◌, [], map};
ghost use Rattle.std.specs.Option.{option_to_list};
ghost use Rattle.wesl_tree_syntax.specs.Tree.{forest_of};
ghost use Rattle.wesl_tree_syntax.specs.View.{attribute_view, attributes_tree, global_view};
ghost use Rattle.wesl_scope_strip.specs.Forests.{begins, one_begins};
ghost use Rattle.wesl_scope.specs.EntryPoints.{is_stage, entry_points_in};

use wesl_tree::{Attribute, AttributeNode, GlobalDeclaration, Ident};

/// The name of a declaration that is an entry point.
pub fn entry_point(declaration: &GlobalDeclaration) -> Option<Ident>
    ensures { map (λ i. i.0) (option_to_list result) ≡ entry_points_in (forest_of (global_view declaration.now ∷ [])) }
{
    match declaration {
        GlobalDeclaration::Function(function) if has_stage(&function.attributes) => {
            Some(function.ident)
        }
        _ => None,
    }
}

fn has_stage(attributes: &Vec<AttributeNode>) -> bool
    ensures { result ≡ one_begins is_stage (attributes_tree attributes.now).children }
{
    for attribute in attributes {
        if is_stage(&attribute.node) {
            return true;
        }
    }
    false
}

/// Whether it is `@vertex`, `@fragment` or `@compute`.
fn is_stage(attribute: &Attribute) -> bool
    ensures { result ≡ begins is_stage (forest_of (attribute_view attribute.now ∷ [])) }
{
    match attribute {
        Attribute::Vertex => true,
        Attribute::Fragment => true,
        Attribute::Compute => true,
        _ => false,
    }
}
