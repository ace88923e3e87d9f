//! Nodes of declarations.
ghost use Rattle.wesl_tree_syntax.specs.Tree.{member_node, members as members_kind, parameters as parameters_kind};
ghost use Rattle.wesl_tree_syntax.specs.View.{declarations_tree, function_view, global_view, listed, member_view, optional, parameter_view, placed, struct_view, type_view};
ghost use Rattle.wesl_cond_positions.specs.Found.{Finds};

use crate::lookup::Lookup;
use std::alloc::AllocError;
use wesl_cond_choices::choices::Choices;
use wesl_tree_syntax::{
    FormalParameter, Function, GlobalDeclaration, GlobalDeclarationNode, Struct, StructMemberNode,
    TypeExpression,
};

impl<'a> Lookup<'a> {
    fn members(
        &self,
        members: &Vec<StructMemberNode>,
        position: &[usize],
    ) -> Result<Choices, AllocError>
        ensures { Finds self.now position.now (listed (placed member_view member_node) members_kind members.now) result }
    {
        self.leaf(members, position)
    }

    fn parameters(
        &self,
        parameters: &Vec<FormalParameter>,
        position: &[usize],
    ) -> Result<Choices, AllocError>
        ensures { Finds self.now position.now (listed parameter_view parameters_kind parameters.now) result }
    {
        self.leaf(parameters, position)
    }

    fn structure(&self, structure: &Struct, position: &[usize]) -> Result<Choices, AllocError>
        ensures { Finds self.now position.now (struct_view structure.now) result }
    {
        match position {
            [] | [0 | 1, ..] => self.all(),
            [2, rest @ ..] => self.members(&structure.members, rest),
            _ => self.none(),
        }
    }

    fn return_type(
        &self,
        return_type: &Option<TypeExpression>,
        position: &[usize],
    ) -> Result<Choices, AllocError>
        ensures { Finds self.now position.now (optional type_view return_type.now) result }
    {
        match return_type {
            None => self.all_if(position.is_empty()),
            Some(_) => self.all(),
        }
    }

    fn function(&self, function: &Function, position: &[usize]) -> Result<Choices, AllocError>
        ensures { Finds self.now position.now (function_view function.now) result }
    {
        match position {
            [] | [0 | 1 | 3, ..] => self.all(),
            [2, rest @ ..] => self.parameters(&function.parameters, rest),
            [4, rest @ ..] => self.return_type(&function.return_type, rest),
            [5, rest @ ..] => self.compound(&function.body, rest),
            _ => self.none(),
        }
    }

    fn global(
        &self,
        declaration: &GlobalDeclaration,
        position: &[usize],
    ) -> Result<Choices, AllocError>
        ensures { Finds self.now position.now (global_view declaration.now) result }
    {
        match declaration {
            GlobalDeclaration::Void
            | GlobalDeclaration::Declaration(_)
            | GlobalDeclaration::TypeAlias(_)
            | GlobalDeclaration::ConstAssert(_) => self.all(),
            GlobalDeclaration::Struct(structure) => self.structure(structure, position),
            GlobalDeclaration::Function(function) => self.function(function, position),
        }
    }

    /// Those of global declarations.
    pub fn globals(
        &self,
        nodes: &Vec<GlobalDeclarationNode>,
        position: &[usize],
    ) -> Result<Choices, AllocError>
        ensures { Finds self.now position.now (declarations_tree nodes.now) result }
    {
        match position {
            [] => self.all(),
            [number, rest @ ..] => {
                if *number >= nodes.len() {
                    return self.none();
                }
                let mut kept = self.listed(nodes, *number)?;
                kept.and(&self.global(&nodes[*number].node, rest)?);
                Ok(kept)
            }
        }
    }
}
