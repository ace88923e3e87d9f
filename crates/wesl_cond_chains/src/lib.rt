//! Formulas over feature flags, judged, decided and simplified; and chains of conditional nodes: which branches stay, what is
//! left of a list, and the faults of its conditions (WESL, "ConditionalTranslation").
#![tactic(auto)]

mod conditions;
mod faults;
mod formula;
mod judge;
mod laws;
mod lists;
mod nodes;

pub use conditions::{Condition, condition_of};
pub use faults::{check_both, check_list, has_several, is_orphan, opens};
pub use formula::{decided, name_of, simplify};
pub use judge::check_formula;
pub use laws::{
    law_of_both_stages, law_of_bounds, law_of_choices, law_of_faults, law_of_later_stages,
    law_of_stages, law_of_then, law_of_twice,
};
pub use lists::{Conditional, closes, settle_both, settle_list, stays};
