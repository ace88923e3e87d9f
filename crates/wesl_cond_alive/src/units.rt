//! The walk over a whole unit.
ghost use Rattle.std.specs.Prelude.{◌≡◌, map};
ghost use Rattle.wesl_tree_syntax.specs.Unit.{forest_of_unit, trees_of};
ghost use Rattle.wesl_tree.specs.Translation.{unit_view};
ghost use Rattle.wesl_cond_alive.specs.Noted.{Becomes, IfKept};
ghost use Rattle.wesl_cond_alive.specs.Sets.{declaration_places, import_places};
ghost use Rattle.wesl_cond_alive.specs.Walk.{all_choices, in_set, plain, walk};
ghost use Rattle.wesl_cond_alive.specs.Views.{here_view, state_of};

use crate::walk::{Here, Walk};
use wesl_tree::TranslationUnit;

/// Where the statements of a unit stand.
#[derive(Drop)]
pub struct Places {
    /// its imports
    pub imports: Vec<Here>,
    /// its global declarations
    pub declarations: Vec<Here>,
}

impl<'a> Walk<'a> {
    /// The identifiers of a whole unit; and where its statements stand.
    pub fn unit(&mut self, unit: &'a TranslationUnit) -> Places
        ensures found { Becomes self.old self.new (walk (plain (in_set all_choices)) (state_of self.old) (forest_of_unit (trees_of (unit_view unit.now)))) }
        ensures imports { IfKept self.new (map here_view result.imports.items ≡ import_places (state_of self.old) (trees_of (unit_view unit.now))) }
        ensures declarations { IfKept self.new (map here_view result.declarations.items ≡ declaration_places (state_of self.old) (trees_of (unit_view unit.now))) }
    {
        let statements = unit.imports();
        let imports = self.imports(statements);
        let directives = unit.global_directives();
        self.directives(directives);
        let globals = unit.global_declarations();
        let declarations = self.globals(globals);
        Places {
            imports,
            declarations,
        }
    }
}
