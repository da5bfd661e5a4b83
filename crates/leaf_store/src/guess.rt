// Where a row's series is looked for first.
ghost use Rattle.std.specs.Prelude.{◌≡◌};

/// Where the series of the last row was found, and which would come next: where a series is looked for first. What is
/// told counts only where it is the one that is asked for, so nothing depends on it.
#[derive(Clone, Copy)]
pub(crate) struct Guess {
    /// The place of its replica.
    pub(crate) place: usize,
    /// The number that it has there.
    pub(crate) series: u32,
    /// The number that would come next if numbers go on as they did.
    pub(crate) next: u32,
}

impl Guess {
    /// A series was found, so that one as far from it as it is from the last one would come next.
    pub(crate) fn follow(&mut self, number: u32)
        ensures series { self.new.series ≡ number }
        ensures place { self.new.place ≡ self.old.place }
    {
        self.next = number.wrapping_add(number.wrapping_sub(self.series));
        self.series = number;
    }
}
