//! The identifiers of imports and directives.
ghost use Rattle.wesl_tree_syntax.specs.Tree.{list};
ghost use Rattle.wesl_tree_syntax.specs.View.{listed, item_view, content_view, entry_view, import_view, directive_view, imports_tree, directives_tree};
ghost use Rattle.wesl_scope_occurrences.specs.Views.{here_view};
ghost use Rattle.wesl_scope_occurrences.specs.Noted.{Walks};

use crate::handler::Handler;
use crate::here::Here;
use crate::occurrence::Standing;
use crate::walk::Walk;
use wesl_tree::{
    GlobalDirective, GlobalDirectiveNode, Import, ImportContent, ImportItem, ImportStatement,
    ImportStatementNode,
};

impl<'a, H: Handler> Walk<'a, H> {
    /// An item that is imported: the name that it binds, and its own as a word where it is renamed.
    fn item(&mut self, here: &Here, item: &'a ImportItem)
        ensures { Walks H.after (here_view here.now) self.old self.new (item_view item.now) }
    {
        match item.rename {
            None => self.meet(here, Standing::ModuleName, item.ident),
            Some(rename) => {
                self.meet(here, Standing::Word, item.ident);
                self.meet(here, Standing::ModuleName, rename);
            }
        }
    }

    /// What an import imports: an item, or entries in braces.
    #[cycle(imports)]
    fn content(&mut self, here: &Here, content: &'a ImportContent)
        ensures { Walks H.after (here_view here.now) self.old self.new (content_view content.now) }
    {
        match content {
            ImportContent::Item(item) => self.item(here, item),
            ImportContent::Collection(entries) => self.entries(here, entries),
        }
    }

    /// The entries of an import, in order.
    #[cycle(imports)]
    fn entries(&mut self, here: &Here, entries: &'a Vec<Import>)
        ensures { Walks H.after (here_view here.now) self.old self.new (listed entry_view list entries.now) }
    {
        for entry in entries {
            self.content(here, &entry.content);
        }
    }

    /// An import statement.
    fn import(&mut self, here: &Here, import: &'a ImportStatement)
        ensures { Walks H.after (here_view here.now) self.old self.new (import_view import.now) }
    {
        let here = here.in_words();
        self.attributes(&here, &import.attributes);
        self.content(&here, &import.content);
    }

    /// The import statements of a module, in order.
    pub fn imports(&mut self, here: &Here, imports: &'a Vec<ImportStatementNode>)
        ensures { Walks H.after (here_view here.now) self.old self.new (imports_tree imports.now) }
    {
        for import in imports {
            self.import(here, &import.node);
        }
    }

    /// A directive, in which all names are words.
    pub fn directive(&mut self, here: &Here, directive: &'a GlobalDirective)
        ensures { Walks H.after (here_view here.now) self.old self.new (directive_view directive.now) }
    {
        match directive {
            GlobalDirective::Diagnostic { attributes, .. }
            | GlobalDirective::Enable { attributes, .. }
            | GlobalDirective::Requires { attributes, .. } => {
                self.attributes(&here.in_words(), attributes);
            }
        }
    }

    /// The directives of a module, in order.
    pub fn directives(&mut self, here: &Here, directives: &'a Vec<GlobalDirectiveNode>)
        ensures { Walks H.after (here_view here.now) self.old self.new (directives_tree directives.now) }
    {
        for directive in directives {
            self.directive(here, &directive.node);
        }
    }
}
