//! What the identifiers of a module are to a link.
ghost use Rattle.std.specs.Prelude.{◌≡◌, ◌<◌, ◌≤◌, ◌++◌, ◌∷◌, [], All, length, get_or, drop, IfOk, OnOk};
ghost use Rattle.wesl_tree_names.specs.Path.{path_view};
ghost use Rattle.wesl_scope_meanings.specs.Senses.{IsSenseBelow, sense_view};
ghost use Rattle.wesl_link_tables.specs.Aims.{IsKnown};
ghost use Rattle.wesl_link_tables.specs.Marks.{IsMark};
ghost use Rattle.wesl_link_tables.specs.Numbering.{AreRelated, AreNumberedNames, AreNumberedReferences, Grows};
ghost use Rattle.wesl_link_tables.specs.NumbersView.{numbering};
ghost use Rattle.wesl_link_tables.specs.Reading.{IsRead, IsNumberedBy, IsPackage, Marks, MarksName, MarksUnder, plain_in, mark_of, aimed_in, used_as, use_at, all_uses, references_in, unclear_names, span};
ghost use Rattle.wesl_link_tables.specs.declared.marks.Mark.TheVariants as marks;

use crate::aims::aim;
use crate::numbers::Numbers;
use crate::reading::Reading;
use std::alloc::{AllocError, Global};
use wesl_cond_choices::place::Place;
use wesl_link_split::binders::{Binder, Start};
use wesl_link_symbols::ids::{NameId, PathId};
use wesl_link_symbols::symbols::Reference;
use wesl_scope_meanings::Sense;
use wesl_tree_names::{Ident, ModulePath, PathOrigin};

/// What an identifier of a declaration is to a link, by numbers.
#[derive(Clone, Copy)]
pub enum Mark {
    /// the name that the declaration binds
    Declares(NameId),
    /// a name that asks for this
    Asks(Reference<PathId, NameId>),
    /// a name that stands for two things, or whose path does
    Unclear(NameId),
    /// a name of the block with this number
    Local(usize, NameId),
    /// a name that asks for nothing
    Free(NameId),
}

/// The mark of a name for which the references from this index on were added: it asks for the first of them.
fn mark_after(references: &[Reference<PathId, NameId>], before: usize, name: NameId) -> Mark
    ensures { result ≡ mark_of name (drop before references.now) }
{
    match references.get(before) {
        Some(reference) => Mark::Asks(*reference),
        None => Mark::Free(name),
    }
}

/// What the identifiers of a declaration ask for, and the names that stand for two things there.
#[derive(Drop)]
pub struct Asked {
    pub references: Vec<Reference<PathId, NameId>>,
    pub unclear: Vec<NameId>,
}

/// The mark of a name that is used where it stands for two things, or the package of its path does, which is then this name.
fn mark_unclear(found: &mut Asked, name: NameId, unclear: NameId) -> Result<Mark, AllocError>
    ensures mark { IfOk result (λ m. m ≡ marks.Unclear name) }
    ensures references { found.new.references.items ≡ found.old.references.items }
    ensures unclear { OnOk result (found.new.unclear.items ≡ found.old.unclear.items ++ unclear ∷ []) }
{
    found.unclear.push(unclear)?;
    Ok(Mark::Unclear(name))
}

/// The mark of a name without a path.
fn mark_plain(
    alloc: Global,
    numbers: &Numbers,
    reading: &Reading<'_, '_>,
    found: &mut Asked,
    name: NameId,
    here: Place,
) -> Result<Mark, AllocError>
    requires numbered { IsNumberedBy (numbering numbers.now) reading.now }
    ensures { IfOk result (λ m. MarksName numbers.now numbers.now name (plain_in reading.now here) m found.old found.new) }
{
    let before = found.references.len();
    let is_unclear = reading
        .scope
        .add_plain(alloc, &mut found.references, name, here)?;
    if is_unclear {
        return mark_unclear(found, name, name);
    }
    Ok(mark_after(&found.references, before, name))
}

/// The mark of a name under a path that begins with the name of these imports, where there are some.
fn mark_under(
    alloc: Global,
    numbers: &mut Numbers,
    reading: &Reading<'_, '_>,
    found: &mut Asked,
    name: NameId,
    here: Place,
    path: &ModulePath,
    imports: &[Binder<PathId, NameId>],
) -> Result<Mark, AllocError>
    requires read { IsRead reading.now }
    requires numbered { IsNumberedBy (numbering numbers.now) reading.now }
    requires known { All (IsKnown (numbering numbers.now)) imports.now }
    ensures marked { IfOk result (λ m. MarksUnder numbers.old numbers.new reading.now here path.now imports.now name m found.old found.new) }
    ensures grows { Grows (numbering numbers.old) (numbering numbers.new) }
{
    let aimed = aim(alloc, numbers, reading.own, path, imports)?;
    let reference = Reference {
        path: aimed,
        name,
        from: reading.scope.asked_at(aimed, name, here),
    };
    found.references.push(reference)?;
    Ok(Mark::Asks(reference))
}

/// The mark of a name under a path that begins with the name of a package, which has this number: it may be that of imports.
fn mark_through(
    alloc: Global,
    numbers: &mut Numbers,
    reading: &Reading<'_, '_>,
    found: &mut Asked,
    name: NameId,
    here: Place,
    path: &ModulePath,
    first: NameId,
) -> Result<Mark, AllocError>
    requires read { IsRead reading.now }
    requires numbered { IsNumberedBy (numbering numbers.now) reading.now }
    requires first { IsPackage (numbering numbers.now) first (path_view path.now).origin }
    ensures marked { IfOk result (λ m. MarksName numbers.old numbers.new name (aimed_in reading.now here path.now) m found.old found.new) }
    ensures grows { Grows (numbering numbers.old) (numbering numbers.new) }
{
    let start = reading.scope.start(alloc, first, here)?;
    match start {
        Start::Several => mark_unclear(found, name, first),
        Start::Nothing => mark_under(alloc, numbers, reading, found, name, here, path, &[]),
        Start::One(import) => mark_under(
            alloc,
            numbers,
            reading,
            found,
            name,
            here,
            path,
            &[import],
        ),
    }
}

/// The mark of a name under a path.
fn mark_aimed(
    alloc: Global,
    numbers: &mut Numbers,
    reading: &Reading<'_, '_>,
    found: &mut Asked,
    name: NameId,
    here: Place,
    path: &ModulePath,
) -> Result<Mark, AllocError>
    requires read { IsRead reading.now }
    requires numbered { IsNumberedBy (numbering numbers.now) reading.now }
    ensures marked { IfOk result (λ m. MarksName numbers.old numbers.new name (aimed_in reading.now here path.now) m found.old found.new) }
    ensures grows { Grows (numbering numbers.old) (numbering numbers.new) }
{
    match &path.origin {
        PathOrigin::Package(package) => {
            let first = numbers.name(package)?;
            mark_through(alloc, numbers, reading, found, name, here, path, first)
        }
        PathOrigin::Absolute => mark_under(alloc, numbers, reading, found, name, here, path, &[]),
        PathOrigin::Relative(_) => mark_under(
            alloc,
            numbers,
            reading,
            found,
            name,
            here,
            path,
            &[],
        ),
    }
}

/// The mark of the name of an identifier that is read so.
fn mark_read(
    alloc: Global,
    numbers: &mut Numbers,
    reading: &Reading<'_, '_>,
    found: &mut Asked,
    name: NameId,
    here: Place,
    sense: Sense,
) -> Result<Mark, AllocError>
    requires read { IsRead reading.now }
    requires numbered { IsNumberedBy (numbering numbers.now) reading.now }
    requires below { IsSenseBelow (length reading.now.senses.now.outer.items) (sense_view sense) }
    ensures marked { IfOk result (λ m. MarksName numbers.old numbers.new name (used_as reading.now here (sense_view sense)) m found.old found.new) }
    ensures grows { Grows (numbering numbers.old) (numbering numbers.new) }
{
    match sense {
        Sense::Declares(_, _) => Ok(Mark::Declares(name)),
        Sense::OfBlock(_, block) => {
            if block > 0 {
                Ok(Mark::Local(block, name))
            } else {
                mark_plain(alloc, numbers, reading, found, name, here)
            }
        }
        Sense::OfModule(_) => mark_plain(alloc, numbers, reading, found, name, here),
        Sense::OfNone(_) => Ok(Mark::Free(name)),
        Sense::ByPath(_, number) => {
            if number < reading.senses.paths.len() {
                let path = reading.senses.paths[number];
                mark_aimed(alloc, numbers, reading, found, name, here, path)
            } else {
                mark_plain(alloc, numbers, reading, found, name, here)
            }
        }
    }
}

/// The number of a name.
fn id_of(ids: &[NameId], ident: Ident) -> NameId
    requires { ident.0 < length ids.now }
    ensures { result ≡ get_or ids.now ident.0 result }
{
    ids[ident.0]
}

/// The mark of the identifier at an index, where what it asks for is added to the references.
fn mark_at(
    alloc: Global,
    numbers: &mut Numbers,
    reading: &Reading<'_, '_>,
    found: &mut Asked,
    index: usize,
) -> Result<Mark, AllocError>
    requires read { IsRead reading.now }
    requires numbered { IsNumberedBy (numbering numbers.now) reading.now }
    requires inside { index < length reading.now.senses.now.all.items }
    ensures marked { IfOk result (λ m. Marks (numbering numbers.new) m found.old found.new (use_at reading.now index)) }
    ensures grows { Grows (numbering numbers.old) (numbering numbers.new) }
{
    let sense = reading.senses.all[index];
    let name = id_of(reading.ids, sense.ident());
    let here = Place::Name(index);
    mark_read(alloc, numbers, reading, found, name, here, sense)
}

/// What the identifiers of a declaration are, and what they ask for.
#[derive(Drop)]
pub struct Marked {
    pub marks: Vec<Mark>,
    pub asked: Asked,
}

/// Marks the identifiers from one index to another. It holds nothing, so where memory is wanting nothing is let go.
fn mark_span(
    alloc: Global,
    numbers: &mut Numbers,
    reading: &Reading<'_, '_>,
    marked: &mut Marked,
    from: usize,
    to: usize,
) -> Result<(), AllocError>
    requires read { IsRead reading.now }
    requires numbered { IsNumberedBy (numbering numbers.now) reading.now }
    requires ordered { from ≤ to }
    requires inside { to ≤ length reading.now.senses.now.all.items }
    requires unmarked { marked.old.marks.items ≡ [] }
    requires unasked { marked.old.asked.references.items ≡ [] }
    requires clear { marked.old.asked.unclear.items ≡ [] }
    ensures marks { OnOk result (AreRelated (IsMark (numbering numbers.new)) marked.new.marks.items (span from to (all_uses reading.now))) }
    ensures references { OnOk result (AreNumberedReferences (numbering numbers.new) marked.new.asked.references.items (references_in reading.now from to)) }
    ensures unclear { OnOk result (AreNumberedNames (numbering numbers.new) marked.new.asked.unclear.items (unclear_names reading.now from to)) }
    ensures grows { Grows (numbering numbers.old) (numbering numbers.new) }
{
    marked.marks.reserve_exact(to - from)?;
    for index in from..to {
        let mark = mark_at(alloc, numbers, reading, &mut marked.asked, index)?;
        marked.marks.push(mark)?;
    }
    Ok(())
}

/// The marks of the identifiers from one index to another, and what these ask for. Refused for want of memory alone.
pub fn mark_piece(
    alloc: Global,
    numbers: &mut Numbers,
    reading: &Reading<'_, '_>,
    from: usize,
    to: usize,
) -> Result<Marked, AllocError>
    requires read { IsRead reading.now }
    requires numbered { IsNumberedBy (numbering numbers.now) reading.now }
    requires ordered { from ≤ to }
    requires inside { to ≤ length reading.now.senses.now.all.items }
    ensures marks { IfOk result (λ m. AreRelated (IsMark (numbering numbers.new)) m.marks.items (span from to (all_uses reading.now))) }
    ensures references { IfOk result (λ m. AreNumberedReferences (numbering numbers.new) m.asked.references.items (references_in reading.now from to)) }
    ensures unclear { IfOk result (λ m. AreNumberedNames (numbering numbers.new) m.asked.unclear.items (unclear_names reading.now from to)) }
    ensures grows { Grows (numbering numbers.old) (numbering numbers.new) }
{
    let mut marked = Marked {
        marks: Vec::new(alloc),
        asked: Asked {
            references: Vec::new(alloc),
            unclear: Vec::new(alloc),
        },
    };
    mark_span(alloc, numbers, reading, &mut marked, from, to)?;
    Ok(marked)
}
