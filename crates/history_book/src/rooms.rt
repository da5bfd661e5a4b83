// What an owner does with rooms.

/// Whether the seat that is split off an owner gets a room more in the owner's history, keeps what it has, or gives one
/// back.
#[derive(Clone, Copy, PartialEq, Eq)]
pub enum RoomMove {
    Make,
    Keep,
    TakeBack,
}
