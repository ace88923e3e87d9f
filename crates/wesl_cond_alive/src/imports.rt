//! The identifiers of imports and directives, and of global declarations with what they are made of.
ghost use Rattle.std.specs.Prelude.{◌≡◌, false, map};
ghost use Rattle.wesl_cond_chains.specs.Lists.{elements};
ghost use Rattle.wesl_tree_syntax.specs.Tree.{list};
ghost use Rattle.wesl_tree_syntax.specs.View.{content_view, declarations_tree, directive_view, directives_tree, entry_view, import_view, imports_tree, item_view, listed};
ghost use Rattle.wesl_cond_alive.specs.Sound.{outline_of};
ghost use Rattle.wesl_cond_alive.specs.Walk.{all_choices, in_set, places_in};
ghost use Rattle.wesl_cond_alive.specs.Views.{here_view, spot_view, state_of};
ghost use Rattle.wesl_cond_alive.specs.Noted.{IfKept, Leaves, Walks};

use crate::walk::{ALL_CHOICES, Here, Walk};
use wesl_tree_syntax::{
    GlobalDeclarationNode, GlobalDirective, GlobalDirectiveNode, Import, ImportContent, ImportItem,
    ImportStatement, ImportStatementNode,
};

impl<'a> Walk<'a> {
    fn item(&mut self, here: &Here, item: &'a ImportItem)
        ensures { Leaves (spot_view here.now) self.old self.new (item_view item.now) }
    {
        self.add(here, item.ident);
        match item.rename {
            None => {}
            Some(rename) => self.add(here, rename),
        }
    }

    #[cycle(imports)]
    fn content(&mut self, here: &Here, content: &'a ImportContent)
        ensures { Leaves (spot_view here.now) self.old self.new (content_view content.now) }
    {
        match content {
            ImportContent::Item(item) => self.item(here, item),
            ImportContent::Collection(entries) => self.entries(here, entries),
        }
    }

    #[cycle(imports)]
    fn entries(&mut self, here: &Here, entries: &'a Vec<Import>)
        ensures { Leaves (spot_view here.now) self.old self.new (listed entry_view list entries.now) }
    {
        for entry in entries {
            self.content(here, &entry.content);
        }
    }

    fn import(&mut self, here: &Here, import: &'a ImportStatement)
        ensures { Leaves (here_view here.now) self.old self.new (import_view import.now) }
    {
        self.attributes(here, &import.attributes);
        self.content(here, &import.content);
    }

    /// Those of imports; and where each of these stands.
    pub fn imports(&mut self, all: &'a Vec<ImportStatementNode>) -> Vec<Here>
        ensures found { Walks (in_set all_choices) self.old self.new (imports_tree all.now) }
        ensures places { IfKept self.new (map here_view result.items ≡ places_in all_choices (map outline_of (elements false (imports_tree all.now).children)) (state_of self.old)) }
    {
        let here = Here::in_set(ALL_CHOICES);
        let places = self.judge_list(ALL_CHOICES, all);
        for i in 0..all.len() {
            self.import(&here.place(&places, i), &all[i].node);
        }
        places
    }

    fn directive(&mut self, here: &Here, directive: &'a GlobalDirective)
        ensures { Leaves (here_view here.now) self.old self.new (directive_view directive.now) }
    {
        match directive {
            GlobalDirective::Diagnostic { attributes, .. }
            | GlobalDirective::Enable { attributes, .. }
            | GlobalDirective::Requires { attributes, .. } => self.attributes(here, attributes),
        }
    }

    /// Those of directives.
    pub fn directives(&mut self, all: &'a Vec<GlobalDirectiveNode>)
        ensures { Walks (in_set all_choices) self.old self.new (directives_tree all.now) }
    {
        let here = Here::in_set(ALL_CHOICES);
        let places = self.judge_list(ALL_CHOICES, all);
        for i in 0..all.len() {
            self.directive(&here.place(&places, i), &all[i].node);
        }
    }

    /// Those of global declarations; and where each of these stands.
    pub fn globals(&mut self, all: &'a Vec<GlobalDeclarationNode>) -> Vec<Here>
        ensures found { Walks (in_set all_choices) self.old self.new (declarations_tree all.now) }
        ensures places { IfKept self.new (map here_view result.items ≡ places_in all_choices (map outline_of (elements false (declarations_tree all.now).children)) (state_of self.old)) }
    {
        let here = Here::in_set(ALL_CHOICES);
        let places = self.judge_list(ALL_CHOICES, all);
        for i in 0..all.len() {
            self.global(&here.place(&places, i), &all[i].node);
        }
        places
    }
}
