// What is kept of the core tells: of bits and locks, and of what a store begins with.
ghost use Rattle.std.specs.Prelude.{◌≡◌, ◌<◌, [], ℕ, List, length};
ghost use Rattle.mon_topo.specs.HeldHistories.{first_histories, AreHeld};
ghost use Rattle.core_store.specs.HintWords.{HasWord, HintTable, RaisesOne};
ghost use Rattle.mon_hints.specs.declared.places.Place.{Place as WordPlace};
ghost use Rattle.mon_schema.specs.Names.{SchemaLists};
ghost use Rattle.mon_value.specs.Histories.{leaf_history};
ghost use Rattle.mon_topo.specs.RangeHistories.{IsLegal};
ghost use Rattle.mon_topo.specs.Replicas.{HasReplicas};
ghost use Rattle.mon_topo.specs.Settings.{Setting};
ghost use Rattle.mon_topo.specs.Zones.{ranges_in};
ghost use Rattle.mon_topo.specs.declared.zones.ZoneSpec.{ZoneSpec};
ghost use Rattle.mon_value.specs.LeafHistories.{leaf_rows};
ghost use Rattle.mon_value.specs.declared.histories.RangeEntry.{RangeEntry};
ghost use Rattle.mon_value.specs.declared.positions.Leaf.{Leaf as LeafNumber};
ghost use Rattle.mon_value.specs.declared.positions.Range.{Range as RangeNumber};
ghost use Rattle.mon_value.specs.Turns.{Turn};
ghost use Rattle.core_store.specs.WriteEvents.{turn_answer};
ghost use Rattle.write_core.specs.Steps.{IsToldByRange};

/// Setting the bit of a child in a word sets that bit and no other.
pub fn one_bit_is_raised()
    ensures one { (hints : HintTable) (place : WordPlace) (child bucket : ℕ) → child < 64
        → HasWord hints place bucket → RaisesOne hints place child bucket }
{}

/// A store begins with its ranges opened on their first replicas: these histories are held together, whatever the
/// schemas, and no leaf has a row.
pub fn stores_begin_held()
    ensures held { (held : SchemaLists) (zones : List ZoneSpec) (points : ℕ)
        → ((range : RangeNumber) → range.0 < length (ranges_in zones) → HasReplicas zones range)
        → AreHeld held zones points (first_histories zones) }
    ensures bare { (zones : List ZoneSpec) (leaf : LeafNumber)
        → leaf_rows (leaf_history (first_histories zones) leaf) ≡ [] }
{}

/// Of a history that a range can have, what a write or a trim is told by the lock is what it may be told: that its row
/// is old, that the range is full, or the replicas that serve, and then its row can be acknowledged next. A trim is told
/// the replicas that serve.
pub fn locks_tell_the_truth()
    ensures told { (store : Setting) (range : RangeNumber) (history : List RangeEntry) (turn : Turn)
        → IsLegal store.held store.zones store.points range history
        → IsToldByRange store history turn (turn_answer store.points history turn) }
{}
