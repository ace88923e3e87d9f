//! Rows of aliveness.
ghost use Rattle.wesl_cond_alive.specs.Rows.{PlaceRows, PositionRows};

/// The rows of places hold.
pub fn law_of_rows()
    ensures { PlaceRows }
{}

/// The rows of positions hold.
pub fn law_of_positions()
    ensures { PositionRows }
{}
