//! The identifiers of functions and of global declarations.
ghost use Rattle.wesl_tree_syntax.specs.View.{function_view, global_view, declarations_tree};
ghost use Rattle.wesl_scope_occurrences.specs.Views.{here_view};
ghost use Rattle.wesl_scope_occurrences.specs.Noted.{Walks, WalksModule, WalksNumbered};

use crate::handler::Handler;
use crate::here::Here;
use crate::occurrence::Standing;
use crate::walk::Walk;
use wesl_tree::{Function, GlobalDeclaration, GlobalDeclarationNode};

impl<'a, H: Handler> Walk<'a, H> {
    /// A function, which opens a block for its parameters and its body.
    fn function(&mut self, here: &Here, function: &'a Function)
        ensures { Walks H.after (here_view here.now) self.old self.new (function_view function.now) }
    {
        let here = self.open(here);
        self.attributes(&here, &function.attributes);
        self.meet(&here, Standing::ModuleName, function.ident);
        self.parameters(&here.inside(), &function.parameters);
        self.attributes(&here, &function.return_attributes);
        self.optional_type(&here, &function.return_type);
        self.compound(&here, &function.body);
        self.close();
    }

    /// What stands in a global declaration.
    fn global(&mut self, here: &Here, declaration: &'a GlobalDeclaration)
        ensures { Walks H.after (here_view here.now) self.old self.new (global_view declaration.now) }
    {
        match declaration {
            GlobalDeclaration::Void => {}
            GlobalDeclaration::Declaration(declaration) => self.declaration(here, declaration),
            GlobalDeclaration::TypeAlias(alias) => self.alias(here, alias),
            GlobalDeclaration::Struct(structure) => self.structure(here, structure),
            GlobalDeclaration::Function(function) => self.function(here, function),
            GlobalDeclaration::ConstAssert(assertion) => self.assertion(here, assertion),
        }
    }

    /// The identifiers of a global declaration of this number, which begins.
    fn numbered(&mut self, here: &Here, number: usize, declaration: &'a GlobalDeclaration)
        ensures { WalksNumbered H.after (here_view here.now) number self.old self.new (global_view declaration.now) }
    {
        let here = Here {
            declaration: Some(number),
            ..*here
        };
        self.begin();
        self.global(&here, declaration);
    }

    /// The identifiers of the global declarations of a module.
    pub fn globals(&mut self, here: &Here, declarations: &'a Vec<GlobalDeclarationNode>)
        ensures { WalksModule H.after (here_view here.now) self.old self.new (declarations_tree declarations.now) }
    {
        for i in 0..declarations.len() {
            self.numbered(here, i, &declarations[i].node);
        }
    }
}
