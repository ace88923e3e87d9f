//! Laws of the definitions.
ghost use Rattle.wesl_validate_free.specs.Laws.{NoneIsDefined, NoUseIsDefined, TellsEachOnce, TellsUndefined, UsesAreInOrder, UsesHaveFreeNames, UsesStandThere};

/// No name is free exactly where each reference is defined; a name is free exactly where an undefined reference has it; and
/// no name is told twice.
pub fn law_of_free_names()
    ensures none { NoneIsDefined }
    ensures undefined { TellsUndefined }
    ensures once { TellsEachOnce }
{}

/// No reference is told exactly where each is defined; the names of those that are told are the free names. Each is at
/// another place, after those before it, and the identifier at its place has its name.
pub fn law_of_free_uses()
    ensures none { NoUseIsDefined }
    ensures names { UsesHaveFreeNames }
    ensures ordered { UsesAreInOrder }
    ensures there { UsesStandThere }
{}
