// The events of actors, by their names.
ghost use Rattle.std.specs.Prelude.{◌≡◌};
ghost use Rattle.schedule_lines.specs.EventNames as spec;

/// What an actor does in one step.
#[derive(Clone, Copy, PartialEq, Eq)]
pub enum Event {
    /// A write, a trim or a recovery takes its range's lock.
    Lock,
    /// A write or a trim makes room on a leaf, or finds the leaf down. A recovery asks the leaf of a replica for its
    /// rows, and then its own leaf for room, or finds it down.
    Reserve,
    /// A write, a trim or a recovery takes a leaf's lock, or finds the leaf down.
    Enter,
    /// A write or a recovery sets a zone's bit in a word of the root.
    RaiseRoot,
    /// A write or a recovery sets a leaf's bit in a word of its zone.
    RaiseZone,
    /// A write appends its row to a leaf's history, a trim its bound, or a recovery its replica, and lets go of the leaf.
    Put,
    /// A write or a trim appends its acknowledgement to its range's history, if some replica took it, or a recovery its
    /// replica, if that was opened, and lets go of the range.
    Ack,
    /// A query loads a word of the root.
    LoadRoot,
    /// A query loads a word of a zone.
    LoadZone,
    /// A query finds the replica of a range that it looks at.
    Resolve,
    /// A query looks at a leaf.
    Visit,
    /// A leaf goes down or comes up, or is found so.
    Switch,
    /// A range's replica on a leaf serves no more, or is found not to serve, or to be the only one that does.
    Retire,
}

/// The event of a name.
pub(crate) fn event_named(name: &[u8]) -> Option<Event>
    ensures named { result ≡ spec.event_named name.now }
{
    if name == b"lock".as_slice() {
        Some(Event::Lock)
    } else if name == b"reserve".as_slice() {
        Some(Event::Reserve)
    } else if name == b"enter".as_slice() {
        Some(Event::Enter)
    } else if name == b"raise_root".as_slice() {
        Some(Event::RaiseRoot)
    } else if name == b"raise_zone".as_slice() {
        Some(Event::RaiseZone)
    } else if name == b"put".as_slice() {
        Some(Event::Put)
    } else if name == b"ack".as_slice() {
        Some(Event::Ack)
    } else {
        other_event_named(name)
    }
}

// The event of a query, of a switch, or of a retirement, of a name.
fn other_event_named(name: &[u8]) -> Option<Event>
    ensures named { result ≡ spec.other_event_named name.now }
{
    if name == b"load_root".as_slice() {
        Some(Event::LoadRoot)
    } else if name == b"load_zone".as_slice() {
        Some(Event::LoadZone)
    } else if name == b"resolve".as_slice() {
        Some(Event::Resolve)
    } else if name == b"visit".as_slice() {
        Some(Event::Visit)
    } else if name == b"switch".as_slice() {
        Some(Event::Switch)
    } else if name == b"retire".as_slice() {
        Some(Event::Retire)
    } else {
        None
    }
}
