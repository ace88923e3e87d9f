//! Laws of the definitions.
ghost use Rattle.wesl_validate_rules.specs.Laws.{WeslFaultsRefute, WgslFaultsRefute, FaultlessIsValid, FaultlessFits, GroundedIsAcyclic, RingIsCycle};

/// A module with a fault is not valid, and one without is.
pub fn law_of_faults()
    ensures wesl { WeslFaultsRefute }
    ensures wgsl { WgslFaultsRefute }
    ensures faultless { FaultlessIsValid }
    ensures fits { FaultlessFits }
{}

/// In a graph of numbers, that every path ends shows that no declaration reaches itself, and a ring that one does.
pub fn law_of_graphs()
    ensures acyclic { GroundedIsAcyclic }
    ensures cycle { RingIsCycle }
{}
