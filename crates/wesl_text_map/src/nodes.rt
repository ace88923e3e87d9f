//! The spans of the nodes of a declaration.
use std::alloc::{AllocError, Global};
use wesl_tree::{
    AttributeNode, Attributes, ExpressionNode, GlobalDeclaration, GlobalDeclarationNode, Span,
    StatementNode,
};
use wesl_visit::Collect;

/// The spans of the nodes of a declaration, those of each kind in document order.
#[derive(Drop)]
pub(crate) struct NodeSpans {
    pub(crate) statements: Vec<Span>,
    pub(crate) expressions: Vec<Span>,
    pub(crate) attributes: Vec<Span>,
    pub(crate) members: Vec<Span>,
}

/// Those of a declaration.
pub(crate) fn node_spans(
    alloc: Global,
    declaration: &GlobalDeclarationNode,
) -> Result<NodeSpans, AllocError> {
    Ok(NodeSpans {
        statements: statements(alloc, &declaration.node)?,
        expressions: expressions(alloc, &declaration.node)?,
        attributes: attributes(alloc, &declaration.node)?,
        members: members(alloc, &declaration.node)?,
    })
}

fn statements(alloc: Global, declaration: &GlobalDeclaration) -> Result<Vec<Span>, AllocError> {
    let Ok(nodes) = declaration.collect::<StatementNode>(alloc, true) else {
        return Err(AllocError);
    };
    let mut spans = Vec::with_capacity(alloc, nodes.len())?;
    for node in nodes.iter() {
        spans.push(node.span)?;
    }
    Ok(spans)
}

fn expressions(alloc: Global, declaration: &GlobalDeclaration) -> Result<Vec<Span>, AllocError> {
    let Ok(nodes) = declaration.collect::<ExpressionNode>(alloc, true) else {
        return Err(AllocError);
    };
    let mut spans = Vec::with_capacity(alloc, nodes.len())?;
    for node in nodes.iter() {
        spans.push(node.span)?;
    }
    Ok(spans)
}

fn attributes(alloc: Global, declaration: &GlobalDeclaration) -> Result<Vec<Span>, AllocError> {
    let Ok(lists) = declaration.collect::<Attributes>(alloc, true) else {
        return Err(AllocError);
    };
    let mut spans = Vec::new(alloc);
    for list in lists.iter() {
        add_attributes(&mut spans, list)?;
    }
    Ok(spans)
}

// Adds the spans of the attributes of a node.
fn add_attributes(spans: &mut Vec<Span>, list: &Vec<AttributeNode>) -> Result<(), AllocError> {
    for node in list {
        spans.push(node.span)?;
    }
    Ok(())
}

fn members(alloc: Global, declaration: &GlobalDeclaration) -> Result<Vec<Span>, AllocError> {
    let mut spans = Vec::new(alloc);
    if let GlobalDeclaration::Struct(structure) = declaration {
        for member in &structure.members {
            spans.push(member.span)?;
        }
    }
    Ok(spans)
}
