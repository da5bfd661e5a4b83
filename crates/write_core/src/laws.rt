// What holds of every write, and of any writes side by side.
ghost use Rattle.std.specs.Prelude.{◌≡◌, ◌<◌, ◌≤◌, ℕ, true, false, List, length};
ghost use Rattle.std.specs.List.{flat_map, list_any};
ghost use Rattle.mon_topo.specs.RangeHistories.{IsInZoneOf, is_on, opened_slots, serving};
ghost use Rattle.mon_topo.specs.Zones.{first_replicas};
ghost use Rattle.mon_topo.specs.declared.limits.TheConstants.{MOST_REPLICAS, MOST_SLOTS};
ghost use Rattle.mon_value.specs.declared.histories.RangeEntry.{RangeEntry};
ghost use Rattle.write_core.specs.CopySteps.{IsDeniedFor, MayOpen};
ghost use Rattle.write_core.specs.Deeds.{HasDone};
ghost use Rattle.write_core.specs.Courses.{EndsDecided, Leg, RunsItsCourse, after_all};
ghost use Rattle.write_core.specs.Invariant.{ComesOut, HaveFound, IsAcknowledged, IsKept, IsNewWorld};
ghost use Rattle.write_core.specs.Marks.{found_in_mark, some_took};
ghost use Rattle.write_core.specs.Noted.{AreNoted};
ghost use Rattle.write_core.specs.Program.{Ended, Locking, Marked};
ghost use Rattle.write_core.specs.Events.{CanRun, Event, after_events};
ghost use Rattle.mon_topo.specs.Settings.{Setting};
ghost use Rattle.write_core.specs.Recovering.{Denial, Outcome, Over};
ghost use Rattle.mon_topo.specs.Views.{View, joined_view, of_range};
ghost use Rattle.write_core.specs.World.{IsPart, Recovers, Recovery, World, Writer, Writes};
ghost use Rattle.write_core.specs.declared.asks.WriteTold.{WriteTold};
ghost use Rattle.write_core.specs.declared.marks.Mark.{Mark};

/// However its replicas fare, a write that its range takes does its events in one order: it takes the range's
/// lock, asks each replica's leaf for room, in slot order, and then enters each leaf that had room, in slot
/// order; there it raises its buckets at the root, then in the zone, and then puts the row; last it tells the
/// range. What it is told decides what comes behind and nothing before, so this says of every run of answers
/// which event comes next. And whatever it is told, also where an answer is of another kind: once it ended, each of
/// its replicas took the row or missed it.
pub fn writes_run_their_course()
    ensures course { (legs : List Leg) → RunsItsCourse legs }
    ensures decided { (answers : List WriteTold) → EndsDecided (after_all Locking answers) }
{}

/// A range whose first replicas were opened denies a recovery onto a leaf of its zone for one of three reasons, and
/// else may open one more replica there.
pub fn ranges_open_or_deny()
    ensures opens { (setting : Setting) (history : List RangeEntry) (recovery : Recovery)
        → IsInZoneOf setting.zones recovery.range recovery.leaf
        → length (first_replicas setting.zones recovery.range.0) ≤ length (opened_slots history)
        → list_any (is_on recovery.leaf) (serving history) ≡ false → length (serving history) < MOST_REPLICAS
        → length (opened_slots history) < MOST_SLOTS → MayOpen setting history recovery }
    ensures denies { (setting : Setting) (history : List RangeEntry) (recovery : Recovery)
        → IsInZoneOf setting.zones recovery.range recovery.leaf
        → length (first_replicas setting.zones recovery.range.0) ≤ length (opened_slots history)
        → (why : Denial) → IsDeniedFor history recovery.leaf why → MayOpen setting history recovery → ⊥ }
{}

/// Whatever happens: where a write or a recovery says that a leaf was down, it found so by an event of its own, and
/// noted how long the leaf's history was then. So it is before any of them has begun.
pub fn what_is_said_was_noted()
    ensures begins { (setting : Setting) (world : World) → IsNewWorld setting world → AreNoted world }
    ensures noted { (setting : Setting) (world : World) (events : List Event) → CanRun setting world events
        → AreNoted world → AreNoted (after_events setting world events) }
{}

/// Whichever writes, trims and recoveries go on, in whatever order, and whatever they are told, while leaves go down and
/// come up and replicas are retired, the invariant stays; it holds before any of them has begun; what someone has seen
/// stays a sound part of the truth, also together with what another one has; a write or a trim that has ended, and that
/// some replica took, stands acknowledged in a legal history, and one that none took has found down the leaf of each
/// replica that serves; and the histories have one entry of it for each replica that took it, on that replica's leaf and
/// on no other, and one acknowledgement once it ended, if some replica took it. A recovery that opened its replica has
/// that in a legal history, and the replica's leaf took over the rows that were left before, acknowledged and not trimmed
/// since; any other has seen what was in its way.
pub fn writes_keep_the_invariant()
    ensures begins { (setting : Setting) (world : World) → IsNewWorld setting world → IsKept setting world }
    ensures stays { (setting : Setting) (world : World) (events : List Event) → CanRun setting world events
        → IsKept setting world → IsKept setting (after_events setting world events) }
    ensures parts { (setting : Setting) (world : World) (events : List Event) (view : View)
        → CanRun setting world events → IsKept setting world → IsPart setting world view
        → IsPart setting (after_events setting world events) view }
    ensures meets { (setting : Setting) (world : World) (a b : View) → IsPart setting world a → IsPart setting world b
        → IsPart setting world (joined_view a b) }
    ensures ended { (setting : Setting) (world : World) (i : ℕ) (writer : Writer) → IsKept setting world
        → world.actors i ≡ Writes writer → (marks : List Mark) → writer.stage ≡ Ended (Marked marks)
        → some_took marks ≡ true → IsAcknowledged setting writer marks }
    ensures unavailable { (setting : Setting) (world : World) (i : ℕ) (writer : Writer) → IsKept setting world
        → world.actors i ≡ Writes writer → (marks : List Mark) → writer.stage ≡ Ended (Marked marks)
        → some_took marks ≡ false
        → HaveFound writer.view (serving (of_range writer.view writer.range)) (flat_map found_in_mark marks) }
    ensures deeds { (setting : Setting) (world : World) (i : ℕ) (writer : Writer) → IsKept setting world
        → world.actors i ≡ Writes writer → HasDone world.truth writer writer.stage }
    ensures recovered { (setting : Setting) (world : World) (i : ℕ) (recovery : Recovery) → IsKept setting world
        → world.actors i ≡ Recovers recovery → (outcome : Outcome) → recovery.stage ≡ Over outcome
        → ComesOut setting recovery outcome }
{}
