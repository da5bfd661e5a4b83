// How far who keeps lengths alone sees by a meeting.
ghost use Rattle.std.specs.Prelude.{◌≡◌};
ghost use Rattle.core_store.specs.Meetings.{sight_at_leaf, sight_at_range};
ghost use Rattle.mon_topo.specs.Settings.{Setting};
ghost use Rattle.mon_topo.specs.Sights.{sight_of};
ghost use Rattle.mon_topo.specs.Views.{View, joined_view, of_leaf, of_range};
ghost use Rattle.mon_value.specs.declared.positions.Leaf.{Leaf as LeafNumber};
ghost use Rattle.mon_value.specs.declared.positions.Range.{Range as RangeOf};
ghost use Rattle.write_core.specs.Invariant.{IsKept};
ghost use Rattle.write_core.specs.World.{IsPart, World};

/// Who has seen a part of the truth, and keeps how far, sees by a meeting at a leaf or at a range just as far as what
/// it has seen then, together with what was seen there.
pub fn meetings_see_as_far_as_views()
    ensures leaf { (store : Setting) (world : World) (view : View) (leaf : LeafNumber) → IsKept store world
        → IsPart store world view
        → sight_at_leaf leaf (of_leaf world.truth leaf) (sight_of view.seen) (sight_of (world.leaves leaf.0).seen)
        ≡ sight_of (joined_view view (world.leaves leaf.0)).seen }
    ensures range { (store : Setting) (world : World) (view : View) (range : RangeOf) → IsKept store world
        → IsPart store world view
        → sight_at_range range (of_range world.truth range) (sight_of view.seen) (sight_of (world.ranges range.0).seen)
        ≡ sight_of (joined_view view (world.ranges range.0)).seen }
{}
