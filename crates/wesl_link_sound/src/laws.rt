//! Laws of what a link keeps, each the contract of a function that does nothing.
ghost use Rattle.wesl_link_sound.specs.Laws.{ReachedIsDecided, SoundIsHad};

/// Whether a symbol is reached is decided, in any tables.
pub fn law_of_reached()
    ensures { ReachedIsDecided }
{}

/// What a link keeps says what it found, where that is merely so.
pub fn law_of_sound_links()
    ensures { SoundIsHad }
{}
