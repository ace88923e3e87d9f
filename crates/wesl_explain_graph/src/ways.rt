//! Who loads a module, and by what: an import, or a path that stands where a name is used.

use crate::asked::{Asked, asked_in, imports_in};
use crate::drawing::push_escaped;
use crate::nodes::{Arrow, Arrows};
use std::alloc::{AllocError, Global};
use wesl_explain_world::{Explanation, NameId, Node, PathId};
use wesl_link_symbols::keyed;
use wesl_link_symbols::symbols::LookUp;

/// Who loads which module, and of each in turn by what, a line each.
#[derive(Drop)]
pub struct Ways {
    pub arrows: Vec<Arrow>,
    pub labels: Vec<String>,
}

/// The same while look-ups are added.
#[derive(Drop)]
struct Gathered {
    arrows: Arrows,
    labels: Vec<String>,
}

/// From who asks to the module that is asked: none where a module asks itself.
fn arrow_of(look_up: LookUp<PathId, NameId>) -> Option<Arrow> {
    let from = match look_up.asker {
        Some(path) if path == look_up.path => return None,
        Some(path) => Node::Module(path),
        None => Node::KeptName(look_up.name),
    };
    Some(Arrow {
        from,
        to: Node::Module(look_up.path),
    })
}

/// Writes by what a look-up asks: an import that binds its name, or the path of the name.
fn push_way(
    label: &mut String,
    told: &Explanation,
    look_up: LookUp<PathId, NameId>,
    bound: Option<NameId>,
) -> Result<(), AllocError> {
    if look_up.asker.is_none() {
        return Ok(());
    }
    if !label.is_empty() {
        label.push_str("\\n")?;
    }
    let Some(bound) = bound else {
        push_escaped(label, told.path(look_up.path))?;
        label.push_str("::")?;
        return push_escaped(label, told.name(look_up.name));
    };
    label.push_str("import ")?;
    push_escaped(label, told.name(look_up.name))?;
    if bound == look_up.name {
        return Ok(());
    }
    label.push_str(" as ")?;
    push_escaped(label, told.name(bound))
}

impl Gathered {
    /// Adds the arrow of a look-up, unless it is there, and says where it stands.
    fn place(&mut self, alloc: Global, arrow: Arrow) -> Result<usize, AllocError> {
        if let Some(place) = self.arrows.place_of(arrow) {
            return Ok(place);
        }
        self.arrows.put(arrow)?;
        self.labels.push(String::new(alloc))?;
        Ok(self.labels.len().saturating_sub(1))
    }

    /// Adds a look-up that was not added before.
    fn add(
        &mut self,
        alloc: Global,
        told: &Explanation,
        look_up: LookUp<PathId, NameId>,
        bound: Option<NameId>,
    ) -> Result<(), AllocError> {
        let Some(arrow) = arrow_of(look_up) else {
            return Ok(());
        };
        let place = self.place(alloc, arrow)?;
        match self.labels.get_mut(place) {
            Some(label) => push_way(label, told, look_up, bound),
            None => Ok(()),
        }
    }
}

/// Who loads the modules of a link.
pub fn ways_of(alloc: Global, told: &Explanation) -> Result<Ways, AllocError> {
    let Asked { look_ups, held: _ } = asked_in(alloc, told)?;
    let imports = imports_in(alloc, told)?;
    let mut ways = Gathered {
        arrows: Arrows::new(alloc),
        labels: Vec::new(alloc),
    };
    for look_up in &look_ups {
        ways.add(alloc, told, *look_up, keyed::value_at(&imports, *look_up))?;
    }
    let Gathered { arrows, labels } = ways;
    Ok(Ways {
        arrows: arrows.into_list(),
        labels,
    })
}
