// A store before it has a name.
ghost use Rattle.std.specs.Prelude.{◌≡◌, ◌≤◌, length, IfOk};
ghost use Rattle.mon_config.specs.Configs.{IsLimited};
ghost use Rattle.mon_topo.specs.Zones.{leaf_counts, leaves_in, ranges_in};

use history_book::BookBlank;
use mon_config::Config;
use mon_topo::{Topology, zones_are_few};
use mon_value::OutOfMemory;
use raise_table::RaiseBlank;
use std::alloc::Global;
use std::marker::Model;

/// The tables of a store without a name, and what it is set up with.
#[derive(Drop)]
pub struct StoreBlank {
    pub(crate) raise: RaiseBlank,
    pub(crate) book: BookBlank,
    pub(crate) config: Config,
}

impl Model for StoreBlank {
    ghost use Rattle.mon_store.specs.Blanks.{Blank, IsSized};

    ghost Value = { Blank };

    ghost view = { λ b. record { raise = b.raise; book = b.book; config = b.config } };

    ghost invariant = { λ b. IsSized (record { raise = b.raise; book = b.book; config = b.config }) };
}

impl StoreBlank {
    /// The tables that a configuration wants, without an entry and without a bit. Where memory runs out the
    /// configuration is gone.
    pub fn new(alloc: Global, config: Config) -> Result<StoreBlank, OutOfMemory>
        requires limited { IsLimited config }
        ensures config { IfOk result (λ blank. blank.config ≡ config) }
    {
        match blanks(alloc, &config.topology, config.buckets) {
            Ok((raise, book)) => Ok(StoreBlank {
                raise,
                book,
                config,
            }),
            Err(fault) => {
                drop(config);
                Err(fault)
            }
        }
    }
}

// The blanks of both tables.
fn blanks(
    alloc: Global,
    topology: &Topology,
    buckets: u32,
) -> Result<(RaiseBlank, BookBlank), OutOfMemory>
    requires most { buckets ≤ 4096 }
    ensures raise { IfOk result (λ both. (both.0.zones ≡ leaf_counts topology.now) × (both.0.buckets ≡ buckets)) }
    ensures book { IfOk result (λ both. (both.1.leaves ≡ length (leaves_in topology.now))
        × (both.1.ranges ≡ length (ranges_in topology.now))) }
{
    zones_are_few(topology);
    let counts = topology.leaf_counts(alloc)?;
    let raise = RaiseBlank::new(alloc, &counts, buckets)?;
    let book = BookBlank::new(alloc, topology.leaves(), topology.ranges())?;
    Ok((raise, book))
}
