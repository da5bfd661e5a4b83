// Parts that are read as often as they come.
use crate::cursor::Cursor;
use crate::faults::ParseFault;
use mon_value::Refusal;

/// What one turn comes to: all that was read so far, and whether more may come.
#[derive(Drop)]
pub enum Turned<'a, T> {
    /// Nothing more comes.
    Done(T, Cursor<'a>),
    /// More may come.
    Again(T, Cursor<'a>),
}

/// A turn, or why it was refused.
pub type Turn<'a, T> = Result<Turned<'a, T>, Refusal<ParseFault>>;
