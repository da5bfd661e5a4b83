// A name where it stands.
use mon_value::{ListOf, Text};

/// A name, with the place of its first byte in the text.
#[derive(Drop)]
pub struct Name {
    pub at: u32,
    pub text: Text,
}

/// Names in order.
pub type Names = ListOf<Name>;
