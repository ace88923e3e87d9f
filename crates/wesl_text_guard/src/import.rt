//! Parentheses in the attributes of imports and directives.
ghost use Rattle.wesl_tree_syntax.specs.View.{directive_view, directives_tree, import_view, imports_tree};
ghost use Rattle.wesl_text_guard.specs.Guards.{Guards};

use crate::guard::Guard;
use wesl_tree_syntax::{
    GlobalDirective, GlobalDirectiveNode, ImportStatement, ImportStatementNode,
};

impl Guard {
    fn import(&mut self, import: &mut ImportStatement)
        ensures { Guards self.old self.new import_view import.old import.new }
    {
        self.attributes(&mut import.attributes);
    }

    /// Puts parentheses in the attributes of imports.
    pub fn imports(&mut self, imports: &mut Vec<ImportStatementNode>)
        ensures { Guards self.old self.new imports_tree imports.old imports.new }
    {
        for import in imports.iter_mut() {
            self.import(&mut import.node);
        }
    }

    fn directive(&mut self, directive: &mut GlobalDirective)
        ensures { Guards self.old self.new directive_view directive.old directive.new }
    {
        match directive {
            GlobalDirective::Diagnostic {
                attributes,
                severity: _,
                rule: _,
            } => self.attributes(attributes),
            GlobalDirective::Enable {
                attributes,
                names: _,
            } => self.attributes(attributes),
            GlobalDirective::Requires {
                attributes,
                names: _,
            } => self.attributes(attributes),
        }
    }

    /// Puts parentheses in the attributes of directives.
    pub fn directives(&mut self, directives: &mut Vec<GlobalDirectiveNode>)
        ensures { Guards self.old self.new directives_tree directives.old directives.new }
    {
        for directive in directives.iter_mut() {
            self.directive(&mut directive.node);
        }
    }
}
