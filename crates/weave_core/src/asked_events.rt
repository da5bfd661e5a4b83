// The events that actors ask for.
ghost use Rattle.std.specs.Prelude.{◌≡◌};
ghost use Rattle.weave_core.specs.AskedEvents as spec;

use query_core::Ask;
use schedule_lines::Event;
use write_core::{CopyAsk, WriteAsk};

/// The event that a write asks for, unless it has ended.
pub(crate) fn event_of_write(ask: &WriteAsk) -> Option<Event>
    ensures event { result ≡ spec.event_of_write ask.now }
{
    match ask {
        WriteAsk::Lock => Some(Event::Lock),
        WriteAsk::Reserve(_, _) => Some(Event::Reserve),
        WriteAsk::Enter(_, _) => Some(Event::Enter),
        WriteAsk::RaiseRoot(_) => Some(Event::RaiseRoot),
        WriteAsk::RaiseZone(_) => Some(Event::RaiseZone),
        WriteAsk::Put(_, _) => Some(Event::Put),
        WriteAsk::Ack => Some(Event::Ack),
        WriteAsk::Finished => None,
    }
}

/// The event that a recovery asks for, unless it has ended.
pub(crate) fn event_of_copy(ask: CopyAsk) -> Option<Event>
    ensures event { result ≡ spec.event_of_copy ask }
{
    match ask {
        CopyAsk::Lock => Some(Event::Lock),
        CopyAsk::Copy(_, _) => Some(Event::Reserve),
        CopyAsk::Reserve => Some(Event::Reserve),
        CopyAsk::Enter => Some(Event::Enter),
        CopyAsk::RaiseRoot(_) => Some(Event::RaiseRoot),
        CopyAsk::RaiseZone(_) => Some(Event::RaiseZone),
        CopyAsk::Put => Some(Event::Put),
        CopyAsk::Ack => Some(Event::Ack),
        CopyAsk::Finished => None,
    }
}

/// The event that a query asks for, unless it has ended.
pub(crate) fn event_of_query(ask: &Ask) -> Option<Event>
    ensures event { result ≡ spec.event_of_query ask.now }
{
    match ask {
        Ask::LoadRoot(_) => Some(Event::LoadRoot),
        Ask::LoadZone(_, _) => Some(Event::LoadZone),
        Ask::Resolve(_) => Some(Event::Resolve),
        Ask::Visit(_) => Some(Event::Visit),
        Ask::Finished => None,
    }
}
