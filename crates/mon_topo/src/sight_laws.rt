// What lengths tell of histories.
ghost use Rattle.std.specs.Prelude.{◌≡◌, ◌+◌, ◌++◌, ◌∷◌, [], length};
ghost use Rattle.mon_value.specs.declared.histories.Entry.{Entry};
ghost use Rattle.mon_value.specs.declared.histories.RangeEntry.{RangeEntry};
ghost use Rattle.mon_value.specs.declared.positions.Leaf.{Leaf};
ghost use Rattle.mon_value.specs.declared.positions.Range.{Range};
ghost use Rattle.mon_value.specs.Histories.{joined_histories, leaf_history, range_history};
ghost use Rattle.mon_value.specs.declared.histories.Histories.{Histories};
ghost use Rattle.mon_topo.specs.HeldHistories.{with_leaf_entry, with_range_entry};
ghost use Rattle.mon_topo.specs.Sights.{joined_sight, range_sight, sight_of, with_leaf_sight, with_range_sight};

/// Where two see together what either has seen, they see as far as the farther one of them, history by history.
pub fn sights_join()
    ensures joined { (a b : Histories) → joined_sight (sight_of a) (sight_of b) ≡ sight_of (joined_histories a b) }
{}

/// Who sees one entry more of a history sees that history so far, and all others as before.
pub fn sights_grow()
    ensures leaf { (leaf : Leaf) (entry : Entry) (seen : Histories) →
        sight_of (with_leaf_entry leaf entry seen)
        ≡ with_leaf_sight leaf (length (leaf_history seen leaf) + 1) (sight_of seen) }
    ensures range { (range : Range) (entry : RangeEntry) (seen : Histories) →
        sight_of (with_range_entry range entry seen)
        ≡ with_range_sight range (range_sight (range_history seen range ++ entry ∷ [])) (sight_of seen) }
{}
