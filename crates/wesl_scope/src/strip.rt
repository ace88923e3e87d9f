//! A module without what nothing kept reaches.
ghost use Rattle.std.specs.Prelude.{◌≡◌, length, map, OnOk, IfErr};
ghost use Rattle.wesl_tree_names.specs.declared.errors.Error as error;
ghost use Rattle.wesl_tree_syntax.specs.View.{declarations_tree};
ghost use Rattle.wesl_scope.specs.Strip.{IsStripped, marked};
ghost use Rattle.wesl_tree.specs.Translation.{unit_view};

use std::alloc::Global;
use std::mem;
use wesl_scope_strip::kept_declarations;
use wesl_tree::{Error, GlobalDeclarationNode, TranslationUnit};

/// Keeps the marked declarations, in their order. It takes no memory.
fn keep_marked(declarations: &mut Vec<GlobalDeclarationNode>, kept: &[bool])
    requires { length kept.now ≡ length declarations.old.items }
    ensures { (declarations_tree declarations.new).children ≡ marked kept.now (declarations_tree declarations.old).children }
{
    let mut next = 0;
    for j in 0..kept.len() {
        if kept[j] {
            declarations.swap(next, j);
            next += 1;
        }
    }
    declarations.truncate(next);
}

/// Keeps the declarations that `keep` names, `const_assert`s and voids, and what these reach by numbers, in their
/// order. The table of names, imports and directives stay.
///
/// Refused for want of memory alone; the unit is then as before.
pub fn strip_except(alloc: Global, unit: &mut TranslationUnit, keep: &[&str]) -> Result<(), Error>
    ensures stripped { OnOk result (IsStripped (map (λ k. k.now) keep.now) (unit_view unit.old) (unit_view unit.new)) }
    ensures refused { IfErr result (λ e. e ≡ error.Memory) }
    ensures unchanged { IfErr result (λ _. unit_view unit.new ≡ unit_view unit.old) }
{
    let kept = kept_declarations(alloc, unit, keep)?;
    let whole = mem::replace(unit, TranslationUnit::new(alloc));
    let (names, imports, directives, mut declarations) = whole.into_parts();
    keep_marked(&mut declarations, &kept);
    *unit = TranslationUnit::from_parts(names, imports, directives, declarations).unwrap();
    Ok(())
}
