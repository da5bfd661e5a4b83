// The numbers that callers' entries are told apart by.
ghost use Rattle.std.specs.Prelude.{◌≡◌, ◌<◌};
ghost use Rattle.history_book.specs.Numbers.{after_handing, handed_numbers, is_spent};

/// More numbers than this have to be left, so that a seat that is split off gets some of them.
pub const MANY: u64 = 1 << 33;

/// So many numbers a seat that is split off gets then.
pub const SHARE: u64 = 1 << 32;

/// All numbers are below this one.
pub const NUMBER_END: u64 = 1 << 62;

/// The numbers from the first one on, up to the last one, which is not among them.
#[derive(Clone, Copy, PartialEq, Eq)]
pub struct Numbers {
    pub from: u64,
    pub to: u64,
}

impl Numbers {
    /// Whether there is none.
    pub(crate) fn is_spent(self) -> bool
        ensures { result ≡ is_spent self }
    {
        self.from >= self.to
    }

    /// Those that are left once the first was handed out, and perhaps some of the last ones with it.
    pub fn after_handing(self) -> Numbers
        requires { self.from < self.to }
        ensures { result ≡ after_handing self }
    {
        let from = self.from + 1;
        if self.to - from > MANY {
            Numbers {
                from,
                to: self.to - SHARE,
            }
        } else {
            Numbers { from, to: self.to }
        }
    }

    /// Those that go with the first one.
    pub fn handed(self) -> Numbers
        requires { self.from < self.to }
        ensures { result ≡ handed_numbers self }
    {
        if self.to - (self.from + 1) > MANY {
            Numbers {
                from: self.to - SHARE,
                to: self.to,
            }
        } else {
            Numbers {
                from: self.to,
                to: self.to,
            }
        }
    }
}

/// The number of a seat, if it has one, and those that it can hand out.
#[derive(Clone, Copy)]
pub(crate) struct Hand {
    pub(crate) own: Option<u64>,
    pub(crate) stock: Numbers,
}

/// A seat without a number has this.
pub(crate) const NO_HAND: Hand = Hand {
    own: None,
    stock: Numbers { from: 0, to: 0 },
};
