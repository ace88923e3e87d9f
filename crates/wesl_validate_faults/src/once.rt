//! Findings, each once.
ghost use Rattle.std.specs.Prelude.{◌≡◌, IfOk, OnOk};
ghost use Rattle.wesl_validate_faults.specs.Gathered.{finding_view, findings_view, with_finding};
ghost use Rattle.wesl_validate_faults.specs.Listed.{each_once};

use crate::finding::Finding;
use indexmap::IndexSet;
use std::alloc::{AllocError, Global};

/// Adds a finding last, unless it is there.
fn add_once<'a>(once: &mut IndexSet<Finding<'a>>, finding: &Finding<'a>) -> Result<(), AllocError>
    ensures { OnOk result (findings_view once.new.keys ≡ with_finding (findings_view once.old.keys) (finding_view finding.now)) }
{
    once.insert(*finding)?;
    Ok(())
}

/// The findings in their order, of those that are one the first.
pub(crate) fn each_once<'a>(
    alloc: Global,
    findings: &Vec<Finding<'a>>,
) -> Result<Vec<Finding<'a>>, AllocError>
    ensures { IfOk result (λ once. findings_view once.items ≡ each_once (findings_view findings.now.items)) }
{
    let mut once = IndexSet::new(alloc);
    for finding in findings {
        add_once(&mut once, finding)?;
    }
    Vec::from_slice(alloc, once.as_slice())
}
