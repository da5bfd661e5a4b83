// What holds of leaves whatever was called.
ghost use Rattle.std.specs.Prelude.{◌≡◌, ℕ};
ghost use Rattle.history_book.specs.declared.views.History.TheVariants as of;
ghost use Rattle.history_book.specs.Seats as book;
ghost use Rattle.leaf_cell.specs.Rest.{IsAtRest};
ghost use Rattle.leaf_store.specs.LeafStates.{key_buckets, new_leaf};
ghost use Rattle.mon_topo.specs.Settings as a;
ghost use Rattle.mon_value.specs.declared.positions.Leaf as the;
ghost use Rattle.owners.specs.Owners.{leaf_owner};
ghost use Rattle.raise_table.specs.Seats as hints;
ghost use Rattle.raise_table.specs.Tables as table;
ghost use Rattle.raise_table.specs.declared.places.ZoneLeaf as bits;

/// A law: a leaf to which nothing happened is at rest with the owner's seats of new tables, where the store's buckets
/// are those of its schemas.
pub fn new_leaves_are_at_rest()
    ensures rest { (setting : a.Setting) (raise : table.RaiseIdentity) (leaf : the.Leaf) (bits : bits.ZoneLeaf)
        (leaves ranges : ℕ) → setting.buckets_of ≡ key_buckets raise.buckets setting.held
        → IsAtRest setting raise leaf.0 (new_leaf setting.held raise.buckets)
        (leaf_owner leaf (hints.new_owner bits) (book.new_owner leaves ranges (of.Leaf leaf))) }
{}
