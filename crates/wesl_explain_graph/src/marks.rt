//! What is faulty in a refused link, and who asks for it.

use crate::asked::node_of;
use crate::graph::Graph;
use std::alloc::{AllocError, Global};
use std::collections::HashMap;
use wesl_explain_world::{
    Asker, Explanation, Fault, FaultLine, Flaw, LinkFault, NameId, Node, PathId, Symbol, Use,
};
use wesl_link_symbols::keyed;

/// A node that is marked.
#[derive(Drop)]
pub struct Mark {
    pub node: Node<PathId, NameId>,
    /// Whether it is faulty itself, and does not only ask for what is.
    pub is_faulty: bool,
    /// The number of the first fault.
    pub first: usize,
    /// The numbers of the other faults, each once and in their order.
    pub others: Vec<usize>,
}

/// The text of a fault.
#[derive(Drop)]
pub struct FaultText {
    pub text: String,
    /// Whether no module is asked for what is faulty.
    pub is_alone: bool,
}

/// The nodes that are marked, in the order of the faults, and where each stands.
#[derive(Drop)]
pub struct Marks {
    pub list: Vec<Mark>,
    places: HashMap<Node<PathId, NameId>, usize>,
}

/// The name that is wrong, if one is.
fn name_of(flaw: Flaw<NameId>) -> Option<NameId> {
    match flaw {
        Flaw::NoModule => None,
        Flaw::Clash(name) | Flaw::Lacking(name) | Flaw::Hidden(name) | Flaw::Unsure(name) => {
            Some(name)
        }
    }
}

/// What is faulty: in a graph of declarations the name that is wrong, or else the module.
pub fn faulty_node(graph: Graph, link: &LinkFault) -> Node<PathId, NameId> {
    match (graph, name_of(link.wrong.flaw)) {
        (Graph::Declarations, Some(name)) => Node::Item(Symbol {
            path: link.wrong.at,
            name,
        }),
        _ => Node::Module(link.wrong.at),
    }
}

/// Who asks: a kept name, in a graph of declarations the declaration, or else the module.
pub fn asking_node(graph: Graph, asked: Use) -> Node<PathId, NameId> {
    match (graph, asked.asker) {
        (_, Asker::Kept(name)) => Node::KeptName(name),
        (Graph::Declarations, Asker::Named(path, _, _))
        | (Graph::Declarations, Asker::Unclear(path, _, _)) => node_of(path, asked.name),
        (_, Asker::Named(path, _, _))
        | (_, Asker::Unclear(path, _, _))
        | (_, Asker::Imported(path, _))
        | (_, Asker::Whole(path)) => Node::Module(path),
    }
}

impl Marks {
    /// The mark of a node, if it is marked.
    pub fn at(&self, node: Node<PathId, NameId>) -> Option<&Mark> {
        match keyed::value_at(&self.places, node) {
            Some(place) => self.list.get(place),
            None => None,
        }
    }

    /// Marks a node that is not marked yet.
    fn add(&mut self, mark: Mark) -> Result<(), AllocError> {
        keyed::put(&mut self.places, mark.node, self.list.len())?;
        self.list.push(mark)?;
        Ok(())
    }

    /// Marks a node for the fault with a number.
    fn put(
        &mut self,
        alloc: Global,
        node: Node<PathId, NameId>,
        is_faulty: bool,
        number: usize,
    ) -> Result<(), AllocError> {
        let place = keyed::value_at(&self.places, node);
        match self.list.get_mut(place.unwrap_or(usize::MAX)) {
            Some(mark) => mark.tell(is_faulty, number),
            None => self.add(Mark {
                node,
                is_faulty,
                first: number,
                others: Vec::new(alloc),
            }),
        }
    }

    /// Marks what is faulty, and who asks for it.
    fn put_fault(
        &mut self,
        alloc: Global,
        graph: Graph,
        number: usize,
        link: &LinkFault,
    ) -> Result<(), AllocError> {
        self.put(alloc, faulty_node(graph, link), true, number)?;
        for asked in &link.uses {
            self.put(alloc, asking_node(graph, *asked), false, number)?;
        }
        Ok(())
    }
}

impl Mark {
    /// The number of the last fault.
    fn last(&self) -> usize {
        self.others.last().copied().unwrap_or(self.first)
    }

    /// Tells one more fault, unless it was told last.
    fn tell(&mut self, is_faulty: bool, number: usize) -> Result<(), AllocError> {
        self.is_faulty = self.is_faulty || is_faulty;
        if self.last() != number {
            self.others.push(number)?;
        }
        Ok(())
    }
}

/// What is faulty, and who asks for it.
pub fn marks_of(alloc: Global, told: &Explanation, graph: Graph) -> Result<Marks, AllocError> {
    let mut marks = Marks {
        list: Vec::new(alloc),
        places: HashMap::new(alloc),
    };
    for (number, fault) in told.faults.iter().enumerate() {
        if let Some(link) = &fault.link {
            marks.put_fault(alloc, graph, number, link)?;
        }
    }
    Ok(marks)
}

/// The text of a fault, of which nothing else is needed any more.
fn text_of(fault: Fault) -> FaultText {
    let Fault {
        line,
        link,
        conditions: _,
        near_path: _,
        named_module: _,
    } = fault;
    let FaultLine {
        line: _,
        declaration: _,
        text,
    } = line;
    FaultText {
        text,
        is_alone: link.is_none(),
    }
}

/// The texts of faults, of which nothing else is needed any more.
pub fn texts_of(alloc: Global, faults: Vec<Fault>) -> Result<Vec<FaultText>, AllocError> {
    let mut texts = Vec::with_capacity(alloc, faults.len())?;
    for fault in faults {
        texts.push(text_of(fault))?;
    }
    Ok(texts)
}
