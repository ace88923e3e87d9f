//! Numbers for the identifiers of imports and directives.
ghost use Rattle.wesl_tree_syntax.specs.Tree.{list};
ghost use Rattle.wesl_tree_syntax.specs.View.{content_view, directive_view, directives_tree, entry_view, import_view, imports_tree, item_view, listed};
ghost use Rattle.wesl_tree_renumber.specs.Renumbers.{Renumbers};

use crate::renumbering::Renumbering;
use wesl_tree_syntax::{
    GlobalDirective, GlobalDirectiveNode, Import, ImportContent, ImportItem, ImportStatement,
    ImportStatementNode,
};

impl<'a> Renumbering<'a> {
    fn item(&mut self, item: &mut ImportItem)
        ensures { Renumbers self.old self.new item_view item.old item.new }
    {
        self.ident(&mut item.ident);
        match &mut item.rename {
            None => {}
            Some(rename) => self.ident(rename),
        }
    }

    #[cycle(imports)]
    fn content(&mut self, content: &mut ImportContent)
        ensures { Renumbers self.old self.new content_view content.old content.new }
    {
        match content {
            ImportContent::Item(item) => self.item(item),
            ImportContent::Collection(entries) => self.entries(entries),
        }
    }

    #[cycle(imports)]
    fn entries(&mut self, entries: &mut Vec<Import>)
        ensures { Renumbers self.old self.new (listed entry_view list) entries.old entries.new }
    {
        for entry in entries.iter_mut() {
            self.content(&mut entry.content);
        }
    }

    fn import(&mut self, import: &mut ImportStatement)
        ensures { Renumbers self.old self.new import_view import.old import.new }
    {
        self.attributes(&mut import.attributes);
        self.content(&mut import.content);
    }

    /// Gives numbers to the identifiers of imports.
    pub fn imports(&mut self, imports: &mut Vec<ImportStatementNode>)
        ensures { Renumbers self.old self.new imports_tree imports.old imports.new }
    {
        for import in imports.iter_mut() {
            self.import(&mut import.node);
        }
    }

    fn directive(&mut self, directive: &mut GlobalDirective)
        ensures { Renumbers self.old self.new directive_view directive.old directive.new }
    {
        match directive {
            GlobalDirective::Diagnostic {
                attributes,
                severity: _,
                rule: _,
            } => self.attributes(attributes),
            GlobalDirective::Enable {
                attributes,
                names: _,
            } => self.attributes(attributes),
            GlobalDirective::Requires {
                attributes,
                names: _,
            } => self.attributes(attributes),
        }
    }

    /// Gives numbers to the identifiers of directives.
    pub fn directives(&mut self, directives: &mut Vec<GlobalDirectiveNode>)
        ensures { Renumbers self.old self.new directives_tree directives.old directives.new }
    {
        for directive in directives.iter_mut() {
            self.directive(&mut directive.node);
        }
    }
}
