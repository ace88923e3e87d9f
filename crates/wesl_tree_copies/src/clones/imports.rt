//! Copies of imports.
ghost use Rattle.wesl_tree_syntax.specs.Tree.{import_node};
ghost use Rattle.wesl_tree_syntax.specs.View.{content_view, entry_view, import_view, item_view};

use crate::clones::{Node, Placed};
use crate::copying::Copying;
use wesl_tree_syntax::{Import, ImportContent, ImportItem, ImportStatement};

impl Node for ImportStatement {
    ghost tree = { import_view };

    fn copied(&self, copying: &mut Copying<'_>) -> ImportStatement {
        copying.import(self)
    }
}

impl Placed for ImportStatement {
    ghost place = { import_node };
}

impl Node for ImportItem {
    ghost tree = { item_view };

    fn copied(&self, copying: &mut Copying<'_>) -> ImportItem {
        copying.item(self)
    }
}

impl Node for ImportContent {
    ghost tree = { content_view };

    fn copied(&self, copying: &mut Copying<'_>) -> ImportContent {
        copying.content(self)
    }
}

impl Node for Import {
    ghost tree = { entry_view };

    fn copied(&self, copying: &mut Copying<'_>) -> Import {
        copying.entry(self)
    }
}
