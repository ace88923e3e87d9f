//! Laws of the definitions.
ghost use Rattle.wesl_cond_faults.specs.Listed.{IsOneList, ListsAllThatStand, TellsWhatRefuses};

/// What is listed of some trees is what stands in them.
pub fn law_of_all()
    ensures { ListsAllThatStand }
{}

/// Trees have no two lists of faults.
pub fn law_of_one()
    ensures { IsOneList }
{}

/// What is told of some trees is what a module is refused for, with the spans that a refusal tells.
pub fn law_of_refusals()
    ensures { TellsWhatRefuses }
{}
