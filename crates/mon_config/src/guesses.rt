// Where a range was found last.

/// The places at which a target's schema, its location and its range were found last. They are tried first, and cost
/// only their tests where they are wrong.
#[derive(Clone, Copy)]
pub struct RangeGuess {
    pub(crate) schema: usize,
    pub(crate) location: usize,
    pub(crate) range: usize,
}

impl RangeGuess {
    /// The first place of each.
    pub fn new() -> RangeGuess {
        RangeGuess {
            schema: 0,
            location: 0,
            range: 0,
        }
    }
}
