//! Conditional translation of whole modules.
pub use wesl_cond::run;
pub use wesl_cond_faults::faults;
