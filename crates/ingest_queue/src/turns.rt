// What goes through the queue.
use mon_points::RowRead;

/// A record of one of two files, with its number there.
#[derive(Drop)]
pub(crate) struct Turn {
    pub second: bool,
    pub number: u32,
    pub read: RowRead,
}
