//! Faults with all that ask for each.
ghost use Rattle.std.specs.Prelude.{◌≡◌, ⊤, [], length, map, IfOk, OnOk};
ghost use Rattle.std.proofs.Common.{rules};
ghost use Rattle.wesl_link_symbols.specs.Index.{Chains, HasAt, IsKeyed, IsLast};
ghost use Rattle.wesl_link_faults.specs.Opening.{flaw_of};
ghost use Rattle.wesl_explain_faults.specs.Gathering.{AreAskers, AreGathered, AreTies, AreWrongs, HaveAskers, wrong_at, wrong_in};

use std::alloc::{AllocError, Global};
use std::collections::HashMap;
use wesl_link_faults::open::{Fault, Finding};
use wesl_link_flaws::asker::Asker;
use wesl_link_flaws::keys;
use wesl_link_flaws::told::Flaw;
use wesl_link_symbols::ids::{NameId, PathId};
use wesl_link_symbols::keyed::{self, Identity};

/// What is wrong, and the path at which it is.
#[derive(Copy, PartialEq, Eq, Hash, Drop)]
pub struct Wrong {
    pub flaw: Flaw<NameId>,
    pub at: PathId,
}

// By hand, since a derived copy asks each part for one, which may be refused.
impl Clone for Wrong {
    ghost is_clone = { λ old new. new ≡ old };

    ghost is_infallible = { λ _. ⊤ };

    fn clone(&self) -> Result<Wrong, AllocError> {
        Ok(*self)
    }
}

impl Identity for Wrong {
    ghost same = { Prim.search rules };
}

/// A fault, and all that ask for it.
#[derive(Drop)]
pub struct FaultAt {
    pub wrong: Wrong,
    /// The number of the absence, where no module is at the path and it took a place.
    pub absence: Option<usize>,
    /// Who asks, in the order in which they were found.
    pub askers: Vec<Asker<PathId, NameId>>,
}

/// Findings, of each fault the last of them that tells it, and of each finding the one of its fault before it.
#[derive(Drop)]
struct Ties<'t> {
    told: &'t [Finding],
    latest: HashMap<Wrong, usize>,
    earlier: Vec<Option<usize>>,
}

/// The flaw of a fault.
fn flaw_of(fault: &Fault) -> Flaw<NameId>
    ensures { result ≡ flaw_of fault.now }
{
    match fault {
        Fault::Duplicate(name) => Flaw::Clash(*name),
        Fault::Absent(_) => Flaw::NoModule,
        Fault::Missing(name) => Flaw::Lacking(*name),
        Fault::Private(name) => Flaw::Hidden(*name),
        Fault::Ambiguous(name) => Flaw::Unsure(*name),
        Fault::TooMany => Flaw::NoModule,
    }
}

/// What is wrong in a finding, and where.
fn wrong_in(finding: &Finding) -> Wrong
    ensures { result ≡ wrong_in finding.now }
{
    Wrong {
        flaw: flaw_of(&finding.fault),
        at: finding.at,
    }
}

/// The number of the absence that a fault tells.
fn absence_of(fault: &Fault) -> Option<usize> {
    match fault {
        Fault::Absent(number) => Some(*number),
        _ => None,
    }
}

/// Ties each finding to the one of its fault before it.
fn tie(
    latest: &mut HashMap<Wrong, usize>,
    earlier: &mut Vec<Option<usize>>,
    told: &[Finding],
) -> Result<(), AllocError>
    requires first { latest.old.entries ≡ [] }
    requires none { earlier.old.items ≡ [] }
    ensures { OnOk result (Chains wrong_in told.now (length told.now) latest.new.entries earlier.new.items) }
{
    for (index, finding) in told.iter().enumerate() {
        let wrong = wrong_in(finding);
        earlier.push(keyed::value_at(latest, wrong))?;
        keyed::put(latest, wrong, index)?;
    }
    Ok(())
}

/// What is wrong in these findings, each once.
fn wrongs_in(alloc: Global, told: &[Finding]) -> Result<Vec<Wrong>, AllocError>
    ensures { IfOk result (λ ws. AreWrongs told.now ws.items) }
{
    let mut wrongs = keys::none(alloc);
    for finding in told {
        keys::put(&mut wrongs, wrong_in(finding))?;
    }
    Ok(keys::into_list(wrongs))
}

impl Ties<'_> {
    /// The index of the last finding of a fault.
    fn latest_of(&self, wrong: Wrong) -> Option<usize>
        requires { AreTies self.now }
        ensures { IsLast (IsKeyed wrong_in wrong) self.now.told.now (length self.now.told.now) result }
    {
        keyed::value_at(&self.latest, wrong)
    }

    /// The index of the finding before that is of the fault of this one.
    fn earlier_of(&self, index: usize, wrong: Wrong) -> Option<usize>
        requires ties { AreTies self.now }
        requires has { HasAt (IsKeyed wrong_in wrong) self.now.told.now index }
        ensures { IsLast (IsKeyed wrong_in wrong) self.now.told.now index result }
    {
        self.earlier[index]
    }

    /// The number of the absence that is told of a fault.
    fn absence_of(&self, wrong: Wrong) -> Option<usize> {
        match keyed::value_at(&self.latest, wrong) {
            Some(index) => match self.told.get(index) {
                Some(finding) => absence_of(&finding.fault),
                None => None,
            },
            None => None,
        }
    }
}

/// Adds all that ask for a fault, the last first.
fn add_askers(
    ties: &Ties<'_>,
    wrong: Wrong,
    askers: &mut Vec<Asker<PathId, NameId>>,
) -> Result<(), AllocError>
    requires ties { AreTies ties.now }
    requires empty { askers.old.items ≡ [] }
    ensures { OnOk result (AreAskers ties.now.told.now wrong askers.new.items) }
{
    let mut at = ties.latest_of(wrong);
    'findings: while let Some(index) = at {
        askers.push(ties.told[index].asker)?;
        at = ties.earlier_of(index, wrong);
    }
    Ok(())
}

/// All that ask for a fault, in the order in which they were found.
fn askers_of(
    alloc: Global,
    ties: &Ties<'_>,
    wrong: Wrong,
) -> Result<Vec<Asker<PathId, NameId>>, AllocError>
    requires { AreTies ties.now }
    ensures { IfOk result (λ askers. AreAskers ties.now.told.now wrong askers.items) }
{
    let mut askers = Vec::new(alloc);
    add_askers(ties, wrong, &mut askers)?;
    askers.reverse();
    Ok(askers)
}

/// A fault with all that ask for it. They have no room to spare, since faults are many.
fn fault_at(alloc: Global, ties: &Ties<'_>, wrong: Wrong) -> Result<FaultAt, AllocError>
    requires { AreTies ties.now }
    ensures wrong { IfOk result (λ g. g.wrong ≡ wrong) }
    ensures askers { IfOk result (λ g. AreAskers ties.now.told.now g.wrong g.askers.items) }
{
    let askers = askers_of(alloc, ties, wrong)?;
    Ok(FaultAt {
        wrong,
        absence: ties.absence_of(wrong),
        askers: Vec::from_slice(alloc, &askers)?,
    })
}

/// These faults, each with all that ask for it.
fn gather(alloc: Global, ties: &Ties<'_>, wrongs: &[Wrong]) -> Result<Vec<FaultAt>, AllocError>
    requires { AreTies ties.now }
    ensures same { IfOk result (λ gs. map wrong_at gs.items ≡ wrongs.now) }
    ensures askers { IfOk result (λ gs. HaveAskers ties.now.told.now gs.items) }
{
    let mut faults = Vec::with_capacity(alloc, wrongs.len())?;
    for wrong in wrongs {
        faults.push(fault_at(alloc, ties, *wrong)?)?;
    }
    Ok(faults)
}

/// The faults that were found, each once, in the order of its first asker, with just those that ask for it. Refused for want of
/// memory alone.
pub fn faults_at(alloc: Global, told: &[Finding]) -> Result<Vec<FaultAt>, AllocError>
    ensures { IfOk result (λ gs. AreGathered told.now gs.items) }
{
    let mut latest = HashMap::new(alloc);
    let mut earlier = Vec::new(alloc);
    tie(&mut latest, &mut earlier, told)?;
    let ties = Ties {
        told,
        latest,
        earlier,
    };
    let wrongs = wrongs_in(alloc, told)?;
    gather(alloc, &ties, &wrongs)
}
