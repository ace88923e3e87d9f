//! Copies of imports and directives.
ghost use Rattle.wesl_tree_syntax.specs.Tree.{directive_node, import_node, list};
ghost use Rattle.wesl_tree_syntax.specs.View.{content_view, directive_view, directives_tree, entry_view, import_view, imports_tree, item_view, listed, placed};
ghost use Rattle.wesl_tree_copies.specs.Copied.{Copies};

use crate::copying::Copying;
use wesl_tree_syntax::{
    GlobalDirective, GlobalDirectiveNode, Import, ImportContent, ImportItem, ImportStatement,
    ImportStatementNode, Spanned,
};

impl<'a> Copying<'a> {
    /// A copy of an imported item.
    pub fn item(&mut self, item: &ImportItem) -> ImportItem
        ensures { Copies self.old self.new item_view item.now result }
    {
        let ident = self.number(item.ident);
        let rename = match item.rename {
            None => None,
            Some(rename) => Some(self.number(rename)),
        };
        ImportItem { ident, rename }
    }

    /// A copy of what is imported.
    #[cycle(imports)]
    pub fn content(&mut self, content: &ImportContent) -> ImportContent
        ensures { Copies self.old self.new content_view content.now result }
    {
        match content {
            ImportContent::Item(item) => ImportContent::Item(self.item(item)),
            ImportContent::Collection(entries) => {
                ImportContent::Collection(self.entries(entries))
            }
        }
    }

    /// A copy of an entry of a collection of imports.
    #[cycle(imports)]
    pub fn entry(&mut self, entry: &Import) -> Import
        ensures { Copies self.old self.new entry_view entry.now result }
    {
        Import {
            path: self.texts(&entry.path),
            content: self.content(&entry.content),
        }
    }

    #[cycle(imports)]
    fn entries(&mut self, entries: &Vec<Import>) -> Vec<Import>
        ensures { Copies self.old self.new (listed entry_view list) entries.now result }
    {
        let mut copies = self.list(entries.len());
        for entry in entries {
            let copy = self.entry(entry);
            self.push(&mut copies, copy);
        }
        copies
    }

    /// A copy of an import.
    pub fn import(&mut self, import: &ImportStatement) -> ImportStatement
        ensures { Copies self.old self.new import_view import.now result }
    {
        ImportStatement {
            attributes: self.attributes(&import.attributes),
            path: self.path(&import.path),
            content: self.content(&import.content),
        }
    }

    /// A copy of an import.
    pub fn import_node(&mut self, node: &ImportStatementNode) -> ImportStatementNode
        ensures { Copies self.old self.new (placed import_view import_node) node.now result }
    {
        Spanned {
            node: self.import(&node.node),
            span: node.span,
        }
    }

    /// A copy of imports.
    pub fn imports(&mut self, imports: &Vec<ImportStatementNode>) -> Vec<ImportStatementNode>
        ensures { Copies self.old self.new imports_tree imports.now result }
    {
        let mut copies = self.list(imports.len());
        for import in imports {
            let copy = self.import_node(import);
            self.push(&mut copies, copy);
        }
        copies
    }

    /// A copy of a directive.
    pub fn directive(&mut self, directive: &GlobalDirective) -> GlobalDirective
        ensures { Copies self.old self.new directive_view directive.now result }
    {
        match directive {
            GlobalDirective::Diagnostic {
                attributes,
                severity,
                rule,
            } => GlobalDirective::Diagnostic {
                attributes: self.attributes(attributes),
                severity: self.text(severity),
                rule: self.text(rule),
            },
            GlobalDirective::Enable { attributes, names } => GlobalDirective::Enable {
                attributes: self.attributes(attributes),
                names: self.texts(names),
            },
            GlobalDirective::Requires { attributes, names } => GlobalDirective::Requires {
                attributes: self.attributes(attributes),
                names: self.texts(names),
            },
        }
    }

    /// A copy of a directive.
    pub fn directive_node(&mut self, node: &GlobalDirectiveNode) -> GlobalDirectiveNode
        ensures { Copies self.old self.new (placed directive_view directive_node) node.now result }
    {
        Spanned {
            node: self.directive(&node.node),
            span: node.span,
        }
    }

    /// A copy of directives.
    pub fn directives(&mut self, directives: &Vec<GlobalDirectiveNode>) -> Vec<GlobalDirectiveNode>
        ensures { Copies self.old self.new directives_tree directives.now result }
    {
        let mut copies = self.list(directives.len());
        for directive in directives {
            let copy = self.directive_node(directive);
            self.push(&mut copies, copy);
        }
        copies
    }
}
