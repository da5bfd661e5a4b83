// The store.
ghost use Rattle.std.specs.Prelude.{◌≡◌, ◌<◌, length};
ghost use Rattle.mon_config.specs.Configs.{IsLimited};
ghost use Rattle.mon_store.specs.Stores.{setting_of};
ghost use Rattle.mon_topo.specs.Zones.{leaves_in, ranges_in};

use know::{Names, Tables};
use leaf_cell::LeafCell;
use mon_config::Config;
use mon_value::{Leaf, Range};
use range_cell::RangeCell;
use std::marker::Model;

/// The store that threads share, under the name of its tables. Contracts see its configuration.
#[derive(Drop)]
pub struct Store<N: Names> {
    pub(crate) config: Config,
    pub(crate) tables: Tables<N>,
    pub(crate) leaves: Vec<LeafCell<N>>,
    pub(crate) ranges: Vec<RangeCell<N>>,
}

impl<N: Names> Model for Store<N> {
    ghost use Rattle.mon_config.specs.declared.config.Config as a_config;
    ghost use Rattle.mon_store.specs.Stores.{AreLeafCells, AreRangeCells, IsSetUp};

    ghost Value = { a_config.Config };

    ghost view = { λ store. store.config };

    ghost invariant = { λ store. IsSetUp N.setting N.raise store.config
        × AreLeafCells N.setting store.leaves.items × AreRangeCells N.setting store.ranges.items };
}

impl<N: Names> Store<N> {
    /// What it is set up with. No memory is taken.
    pub fn config(&self) -> &Config
        ensures config { result.now ≡ self.now }
    {
        &self.config
    }

    /// Does nothing, and tells what holds of each store: its name means its configuration, whose numbers are within
    /// their limits.
    pub fn is_set_up(&self)
        ensures setting { setting_of self.now ≡ N.setting }
        ensures limited { IsLimited self.now }
    {
        let _config = &self.config;
    }

    /// The cell of a leaf.
    pub(crate) fn leaf_cell(&self, leaf: Leaf) -> &LeafCell<N>
        requires there { leaf.0 < length (leaves_in N.setting.zones) }
        ensures cell { result.now ≡ leaf.0 }
    {
        &self.leaves.as_slice()[leaf.0 as usize]
    }

    /// The cell of a range.
    pub(crate) fn range_cell(&self, range: Range) -> &RangeCell<N>
        requires there { range.0 < length (ranges_in N.setting.zones) }
        ensures cell { result.now ≡ range.0 }
    {
        &self.ranges.as_slice()[range.0 as usize]
    }
}
