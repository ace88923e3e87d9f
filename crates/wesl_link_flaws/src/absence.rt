//! Why no module stands at a path.

/// Why no module stands at a path, where a loader refuses with an `E`.
#[derive(Drop)]
pub enum Absence<E> {
    /// The loader refuses the path.
    TurnedAway(E),
    /// A name of the module that is handed out has several targets, and its conditions name more than 16 flags.
    Crowded,
}
