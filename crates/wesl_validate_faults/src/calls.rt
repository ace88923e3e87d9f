//! Calls that fit nothing.
ghost use Rattle.std.specs.Prelude.{◌≡◌, IfOk, IfErr};
ghost use Rattle.wesl_tree_names.specs.declared.errors.Error as error;
ghost use Rattle.wesl_tree.specs.Translation.{unit_view};
ghost use Rattle.wesl_scope_graph.specs.Graphs.{graph_view};
ghost use Rattle.wesl_scope_occurrences.specs.Identified.{identified};
ghost use Rattle.wesl_scope_strip.specs.Declarations.{all};
ghost use Rattle.wesl_validate_builtins.specs.Builtins.{builtins_view};
ghost use Rattle.wesl_validate_faults.specs.Calls.{AreCallFindings};
ghost use Rattle.wesl_validate_faults.specs.Gathered.{finding_view, findings_view, misfit_here, misfits_here};

use crate::finding::Finding;
use crate::once::each_once;
use crate::undefined::{holders_of, name_round};
use std::alloc::{AllocError, Global};
use wesl_scope_occurrences::Identifiers;
use wesl_tree::TranslationUnit;
use wesl_tree_names::{Error, Names};
use wesl_validate_builtins::Builtins;
use wesl_validate_calls::{Misfit, misfits};
use wesl_validate_rules::name_of;

/// What is found where a call in a declaration fits nothing.
fn finding_of<'a>(
    names: &'a Names,
    holders: &Vec<Vec<usize>>,
    declaration: usize,
    misfit: Misfit,
) -> Finding<'a>
    ensures { finding_view result ≡ misfit_here names.now (graph_view holders.now.items) declaration misfit }
{
    let holder = name_round(names, holders, Some(declaration));
    match misfit {
        Misfit::ParamCount {
            number,
            expected,
            got,
        } => Finding::Miscounted(holder, name_of(names, number), expected, got),
        Misfit::NotCallable { number } => Finding::NotCallable(holder, name_of(names, number)),
    }
}

/// The same of each, in their order.
fn findings_of<'a>(
    alloc: Global,
    names: &'a Names,
    holders: &Vec<Vec<usize>>,
    misfits: &Vec<(usize, Misfit)>,
) -> Result<Vec<Finding<'a>>, AllocError>
    ensures { IfOk result (λ r. findings_view r.items ≡ misfits_here names.now (graph_view holders.now.items) misfits.now.items) }
{
    let mut findings = Vec::new(alloc);
    for entry in misfits {
        let (declaration, misfit) = *entry;
        findings.push(finding_of(names, holders, declaration, misfit))?;
    }
    Ok(findings)
}

/// What is found of calls that fit nothing, in the order of their declarations, each once. Refused for want of memory alone.
///
/// `found` are the identifiers of the module.
pub(crate) fn call_findings<'a>(
    alloc: Global,
    unit: &'a TranslationUnit,
    found: &Identifiers<'_>,
    builtins: &Builtins,
) -> Result<Vec<Finding<'a>>, Error>
    requires known { identified found.now ≡ all (unit_view unit.now) }
    ensures calls { IfOk result (λ r. AreCallFindings (unit_view unit.now) (builtins_view builtins.now) (findings_view r.items)) }
    ensures refused { IfErr result (λ e. e ≡ error.Memory) }
{
    let misses = misfits(alloc, unit, found, builtins)?;
    let holders = holders_of(alloc, found)?;
    let findings = findings_of(alloc, unit.names(), &holders, &misses)?;
    Ok(each_once(alloc, &findings)?)
}
