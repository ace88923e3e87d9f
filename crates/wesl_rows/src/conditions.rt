//! Conditions of units: what is left of them, at once and in stages, and what is left of formulas.
use crate::features::{both, composed, listed};
use serde_json::Value;
use wesl::condcomp::{faults, run};
use wesl::{
    Diagnostic, Error, Feature, Features, GlobalDeclaration, TranslationUnit, alive_together,
    eval_attr, flag_count,
};
use wesl_rows_base::{List, Object, Row, declared, fault, is_refused, located, put_span};

/// What a call answers, or its fault with all that is told of it. Want of memory is noted.
fn judged<T: Drop>(row: Row<'_>, outcome: Result<T, Diagnostic>) -> Result<T, Value> {
    match outcome {
        Ok(value) => Ok(value),
        Err(fault) => {
            row.refused_if(matches!(fault.error, Error::Memory));
            let told = located(row, &fault);
            drop(fault);
            Err(told)
        }
    }
}

/// What a run under the `features`, and then `next` if they are there, leaves of the unit of the `tree`, or the fault
/// that it tells, which is to leave the unit as it was.
pub fn left(row: Row<'_>) -> Value {
    let features = composed(row);
    let before = row.tree();
    let mut unit = row.unit_or_none(before.try_clone(row.alloc));
    match judged(row, run(row.alloc, &mut unit, &features)) {
        Ok(()) => row.tree_of(&unit),
        Err(told) => {
            if unit.same_spelling(&before) {
                told
            } else {
                fault(row, "the refused run changed the unit")
            }
        }
    }
}

/// A fault of a condition, with its span where one is told.
fn fault_told(row: Row<'_>, told: &Diagnostic) -> Value {
    let mut answer = Object::new(row.alloc);
    put_span(row, &mut answer, &told.span);
    answer.put("told", declared(row, told));
    answer.end(row)
}

/// The fault that a run of a unit tells, null where it tells none; want of memory is noted.
fn run_told(row: Row<'_>, unit: TranslationUnit, features: &Features) -> Value {
    let mut unit = unit;
    match run(row.alloc, &mut unit, features) {
        Ok(()) => Value::Null,
        Err(told) => {
            row.refused_if(matches!(told.error, Error::Memory));
            row.answer_of(told)
        }
    }
}

/// All faults of the conditions of the unit of the `tree` under the `features`, and the one that a run tells, null where it
/// tells none.
pub fn faults_told(row: Row<'_>) -> Value {
    let features = composed(row);
    let unit = row.tree();
    let told = row.or(faults(row.alloc, &unit, &features), Vec::new(row.alloc));
    let mut all = List::new(row.alloc);
    for fault in &told {
        all.put(fault_told(row, fault));
    }
    let mut answer = Object::new(row.alloc);
    answer.put("faults", all.end(row));
    answer.put("run", run_told(row, unit, &features));
    answer.end(row)
}

/// One of three answers by a number.
fn answer_by(number: usize) -> Feature {
    match number % 3 {
        0 => Feature::Enable,
        1 => Feature::Disable,
        _ => Feature::Keep,
    }
}

/// One of the 27 sets of answers for X, Y and Z.
fn answers_by(row: Row<'_>, number: usize) -> Features {
    let mut features = Features::new(row.alloc);
    listed(row, &mut features, "X", answer_by(number));
    listed(row, &mut features, "Y", answer_by(number / 3));
    listed(row, &mut features, "Z", answer_by(number / 9));
    features
}

/// Whether two runs leave of a unit what one run with both sets leaves, where the first is not refused.
fn agrees(row: Row<'_>, unit: &TranslationUnit, first: &Features, second: &Features) -> bool {
    let mut staged = row.unit_or_none(unit.try_clone(row.alloc));
    if is_refused(run(row.alloc, &mut staged, first)) {
        true
    } else {
        let mut at_once = row.unit_or_none(unit.try_clone(row.alloc));
        let is_left = !is_refused(run(row.alloc, &mut staged, second));
        let is_left_at_once = !is_refused(run(row.alloc, &mut at_once, &both(row, first, second)));
        is_left && is_left_at_once && staged.same_spelling(&at_once)
    }
}

/// For how many of the 729 pairs of sets that enable, disable or keep X, Y and Z two runs over the unit of the `tree`
/// leave what one run with both leaves, or the first is refused.
pub fn stages(row: Row<'_>) -> Value {
    let unit = row.tree();
    let mut pairs: usize = 0;
    for pair in 0..729 {
        if agrees(
            row,
            &unit,
            &answers_by(row, pair / 27),
            &answers_by(row, pair),
        ) {
            pairs = pairs.wrapping_add(1);
        }
    }
    Value::from(pairs)
}

/// The unit of the `tree`, in whose assertions stands what the `features`, and then `next` if they are there, leave of
/// the formulas; or the fault of the first formula that is refused.
pub fn formulas_left(row: Row<'_>) -> Value {
    let features = composed(row);
    let (names, imports, directives, mut declarations) = row.tree().into_parts();
    let mut fault = Value::Null;
    for declaration in &mut declarations {
        if let (GlobalDeclaration::ConstAssert(assertion), Value::Null) = (
            &mut declaration.node,
            &fault,
        ) {
            match judged(
                row,
                eval_attr(row.alloc, &names, &assertion.expression, &features),
            ) {
                Ok(left) => assertion.expression.node = left,
                Err(told) => fault = told,
            }
        }
    }
    let unit = row.made(TranslationUnit::from_parts(names, imports, directives, declarations));
    match fault {
        Value::Null => row.tree_of(&unit),
        fault => fault,
    }
}

/// Whether some choice of the flags of the unit of the `tree` keeps the nodes at the positions `first` and `second`.
pub fn are_together(row: Row<'_>) -> Value {
    let unit = row.tree();
    let first = row.numbers("first");
    let second = row.numbers("second");
    match flag_count(row.alloc, &unit) {
        Ok(count) if count <= 16 => {
            let together = alive_together(row.alloc, &unit, first.as_slice(), second.as_slice());
            Value::Bool(row.is(together))
        }
        Ok(_) => Value::Null,
        Err(error) => row.answer_of(error),
    }
}
