//! One walk over a module, which collects the branches of chains and tells each place its set of choices.
ghost use Rattle.std.specs.Prelude.{◌≡◌, ℕ, ◌&&◌, [], ◌∷◌, ◌++◌, cond, drop, false, map, true};
ghost use Rattle.wesl_cond_chains.specs.Lists.{elements};
ghost use Rattle.wesl_cond_chains.specs.Nodes.{condition_of_attribute, optional_forest};
ghost use Rattle.wesl_tree_syntax.specs.Tree.{end, forest_of};
ghost use Rattle.wesl_cond_alive.specs.Sound.{is_conditional, outline_of};
ghost use Rattle.wesl_cond_alive.specs.Walk.{bare_in, branched, in_set, listed, no_choices, place_of, set_count, standing, whole_here};
ghost use Rattle.wesl_cond_alive.specs.Views.{here_view, outline_view, spot_view, state_of};
ghost use Rattle.wesl_cond_alive.specs.Noted.{Becomes, IfKept, JudgesList, with_mark};

use crate::outline::Outline;
use std::alloc::Global;
use wesl_cond_chains::{Conditional, condition_of};
use wesl_tree_names::Ident;
use wesl_tree_syntax::{Attribute, Expression};

/// The number of the set of all choices.
pub const ALL_CHOICES: usize = 0;

/// The number of the empty set.
pub const NO_CHOICES: usize = 1;

/// Where a node stands.
#[derive(Clone, Copy)]
pub struct Here {
    /// the number of its set of choices
    pub set: usize,
    /// whether the conditions of its attributes are gone, as they are of a branch of a chain without fault
    pub is_bare: bool,
    /// whether it is part of a formula
    pub is_formula: bool,
}

impl Here {
    /// In a set.
    pub fn in_set(set: usize) -> Here
        ensures { here_view result ≡ in_set set }
    {
        Here {
            set,
            is_bare: false,
            is_formula: false,
        }
    }

    /// In the set of a branch of a chain without fault.
    fn bare_in(set: usize) -> Here
        ensures { here_view result ≡ bare_in set }
    {
        Here {
            set,
            is_bare: true,
            is_formula: false,
        }
    }

    /// Where no attributes are gone.
    pub fn whole(&self) -> Here
        ensures { here_view result ≡ whole_here (here_view self.now) }
    {
        Here {
            is_bare: false,
            ..*self
        }
    }

    /// Where an attribute here stands: a condition that is gone stands nowhere.
    pub fn at_attribute(&self, attribute: &Attribute) -> Here
        ensures { spot_view result ≡ cond (self.now.is_bare && is_conditional (condition_of_attribute attribute.now)) (record (spot_view self.now) { set = no_choices }) (spot_view self.now) }
    {
        if self.is_bare && condition_of(attribute).is_some() {
            return Here {
                set: NO_CHOICES,
                ..*self
            };
        }
        *self
    }

    /// In a formula.
    pub fn in_formula(&self) -> Here
        ensures { here_view result ≡ record (here_view self.now) { is_formula = true } }
    {
        Here {
            is_formula: true,
            ..*self
        }
    }

    /// Where a node of a judged list here stands.
    pub fn place(&self, places: &[Here], node: usize) -> Here
        ensures { here_view result ≡ standing {I = ℕ} (here_view self.now) (listed (drop node (map here_view places.now))) end }
    {
        if node < places.len() {
            Here {
                is_formula: self.is_formula,
                ..places[node]
            }
        } else {
            *self
        }
    }
}

/// A branch of a chain without fault.
#[derive(Clone, Copy)]
pub struct Branch<'a> {
    /// the number of the set of what holds the list
    pub holder: usize,
    /// whether it begins its chain
    pub begins: bool,
    /// its formula; an `@else` has none
    pub formula: Option<&'a Expression>,
}

/// An identifier, and the number of its set.
#[derive(Clone, Copy)]
pub struct Mark {
    /// the identifier
    pub ident: Ident,
    /// the number of its set
    pub set: usize,
}

/// What a walk has found so far.
#[derive(Drop)]
pub struct Walk<'a> {
    /// what memory is taken from
    pub alloc: Global,
    /// the branches of chains without fault; the first has set number 2
    pub branches: Vec<Branch<'a>>,
    /// the identifiers, in document order
    pub marks: Vec<Mark>,
    /// those that are part of formulas
    pub flags: Vec<Ident>,
    /// whether memory was wanting, so that some of what there is was not taken down
    pub is_refused: bool,
}

impl<'a> Walk<'a> {
    /// Nothing found yet.
    pub fn new(alloc: Global) -> Walk<'a>
        ensures { state_of result ≡ record { branches = []; marks = []; flags = [] } }
    {
        Walk {
            alloc,
            branches: Vec::new(alloc),
            marks: Vec::new(alloc),
            flags: Vec::new(alloc),
            is_refused: false,
        }
    }

    /// Takes down an identifier.
    pub fn add(&mut self, here: &Here, ident: Ident)
        ensures { Becomes self.old self.new (with_mark (here_view here.now) ident.0 (state_of self.old)) }
    {
        let mark = Mark {
            ident,
            set: here.set,
        };
        self.is_refused |= self.marks.push(mark).is_err();
        if here.is_formula {
            self.is_refused |= self.flags.push(ident).is_err();
        }
    }

    /// Puts an outline behind others.
    fn put(&mut self, outlines: &mut Vec<Outline<'a>>, outline: Outline<'a>)
        ensures same { Becomes self.old self.new (state_of self.old) }
        ensures put { IfKept self.new (outlines.new.items ≡ outlines.old.items ++ outline.entry ∷ []) }
    {
        self.is_refused |= outlines.push(outline).is_err();
    }

    /// Puts a place behind others.
    fn put_place(&mut self, places: &mut Vec<Here>, place: Here)
        ensures same { Becomes self.old self.new (state_of self.old) }
        ensures put { IfKept self.new (places.new.items ≡ places.old.items ++ place ∷ []) }
    {
        self.is_refused |= places.push(place).is_err();
    }

    /// What matters of the nodes of a list is put behind that of others.
    fn outline<T: Conditional>(&mut self, outlines: &mut Vec<Outline<'a>>, nodes: &'a Vec<T>)
        ensures same { Becomes self.old self.new (state_of self.old) }
        ensures put { IfKept self.new (map outline_view outlines.new.items ≡ map outline_view outlines.old.items ++ map outline_of (elements false (forest_of (map T.tree nodes.now.items)))) }
    {
        for node in nodes {
            self.put(outlines, Outline::of(node));
        }
    }

    /// The same of what closes a list.
    fn outline_last<T: Conditional>(&mut self, outlines: &mut Vec<Outline<'a>>, last: &'a Option<T>)
        ensures same { Becomes self.old self.new (state_of self.old) }
        ensures put { IfKept self.new (map outline_view outlines.new.items ≡ map outline_view outlines.old.items ++ map outline_of (elements true (optional_forest T.tree last.now))) }
    {
        match last {
            Some(node) => self.put(outlines, Outline::of(node)),
            None => {}
        }
    }

    /// Takes down the branch of a node, if it is one, and tells where the node stands.
    fn judge_node(&mut self, holder: usize, node: &Outline<'a>, is_whole: bool) -> Here
        ensures branch { Becomes self.old self.new (branched holder is_whole (outline_view node.now) (state_of self.old)) }
        ensures place { here_view result ≡ place_of holder (set_count (state_of self.old)) is_whole (outline_view node.now) }
    {
        if node.is_void {
            return Here::in_set(NO_CHOICES);
        }
        if is_whole {
            return Here::in_set(holder);
        }
        let set = 2 + self.branches.len();
        let branch = Branch {
            holder,
            begins: !node.follows_on(),
            formula: node.formula(),
        };
        self.is_refused |= self.branches.push(branch).is_err();
        Here::bare_in(set)
    }

    /// Takes down the branches of a list, and tells where its nodes stand.
    fn judge(&mut self, holder: usize, nodes: &[Outline<'a>]) -> Vec<Here>
        ensures { JudgesList holder self.old self.new (map outline_view nodes.now) result.items }
    {
        let mut places = Vec::new(self.alloc);
        let mut is_whole = true;
        for i in 0..nodes.len() {
            let node = &nodes[i];
            let others = &nodes[i + 1..];
            is_whole = node.whole_after(is_whole, others);
            let here = self.judge_node(holder, node, is_whole);
            self.put_place(&mut places, here);
        }
        places
    }

    /// The same of a list that stands alone.
    pub fn judge_list<T: Conditional>(&mut self, holder: usize, nodes: &'a Vec<T>) -> Vec<Here>
        ensures { JudgesList holder self.old self.new (map outline_of (elements false (forest_of (map T.tree nodes.now.items)))) result.items }
    {
        let mut outlines = Vec::new(self.alloc);
        self.outline(&mut outlines, nodes);
        self.judge(holder, &outlines)
    }

    /// The same of a list and of what closes it.
    pub fn judge_both<T: Conditional, L: Conditional>(
        &mut self,
        holder: usize,
        nodes: &'a Vec<T>,
        last: &'a Option<L>,
    ) -> Vec<Here>
        ensures { JudgesList holder self.old self.new (map outline_of (elements false (forest_of (map T.tree nodes.now.items)) ++ elements true (optional_forest L.tree last.now))) result.items }
    {
        let mut outlines = Vec::new(self.alloc);
        self.outline(&mut outlines, nodes);
        self.outline_last(&mut outlines, last);
        self.judge(holder, &outlines)
    }
}
