// What actors share.
ghost use Rattle.std.specs.Prelude.{◌≡◌, ◌<◌, ◌-◌, ◌+◌, ◌++◌, ◌∷◌, [], length, map, replicate, slice_get, IfOk, IfSome};
ghost use Rattle.std.specs.Prelude.{OnOk};
ghost use Rattle.std.specs.List.{slice_index_or};
ghost use Rattle.leaf_store.specs.LeafStates.{new_leaf};
ghost use Rattle.mon_topo.specs.Replicas.{HasReplicas};
ghost use Rattle.mon_value.specs.Histories.{zone_numbered};
ghost use Rattle.mon_topo.specs.Zones.{first_leaf, leaf_zones, leaves_in, ranges_in};
ghost use Rattle.mon_value.specs.LeafHistories.{IsWellFormed};
ghost use Rattle.mon_config.specs.Configs.{IsLimited};
ghost use Rattle.core_store.specs.Agreements.{AreShared, IsServed};
ghost use Rattle.mon_topo.specs.HeldHistories.{first_leaf_history, first_range_history, first_range_histories};
ghost use Rattle.mon_topo.specs.HeldHistories.{opened_before};
ghost use Rattle.core_store.specs.FirstSeats.{AreFirstSeats};
ghost use Rattle.core_store.specs.HintWords.{no_words};
ghost use Rattle.core_store.specs.Openings as spec;
ghost use Rattle.leaf_store.specs.LeafLists.{IsChanged};
ghost use Rattle.core_store.specs.Openings.{AreOpenedSo, first_world};
ghost use Rattle.core_store.specs.Openings.{sight_of_states, with_opening};
ghost use Rattle.mon_topo.specs.Sights.{range_sight};

use crate::leaves::LeafSeat;
use crate::ranges::RangeSeat;
use crate::words::HintWords;
use leaf_store::LeafState;
use mon_config::Config;
use mon_topo::{RangeSight, Sight, Topology, ranges_have_replicas};
use mon_value::{Entry, Leaf, ListOf, OutOfMemory, Range, RowList, Slot, TryCopy, Zone};
use std::alloc::Global;
use write_core::RangeReplay;

/// The hint words, the leaves and the ranges, and what all have seen at first: the first replicas of all ranges.
#[derive(Drop)]
pub struct Store {
    pub alloc: Global,
    pub config: Config,
    pub words: HintWords,
    pub leaves: Vec<LeafSeat>,
    pub ranges: Vec<RangeSeat>,
    pub first_sight: Sight,
}

// What a store has beside its configuration.
#[derive(Drop)]
struct Seats {
    words: HintWords,
    leaves: Vec<LeafSeat>,
    ranges: Vec<RangeSeat>,
    first_sight: Sight,
}

impl Store {
    /// The leaves and ranges of a configuration, without rows.
    pub fn new(alloc: Global, config: Config) -> Result<Store, OutOfMemory>
        requires limited { IsLimited config }
        ensures shared { IfOk result (AreShared config (first_world config)) }
    {
        note_served(&config);
        match first_seats(alloc, &config) {
            Ok(seats) => Ok(Store {
                alloc,
                config,
                words: seats.words,
                leaves: seats.leaves,
                ranges: seats.ranges,
                first_sight: seats.first_sight,
            }),
            Err(fault) => {
                drop(config);
                Err(fault)
            }
        }
    }
}

// What is known of each configuration.
fn note_served(config: &Config)
    requires limited { IsLimited config.now }
    ensures served { IsServed config.now }
{
    config.schemas.metrics_are_lawful();
    config.schemas.targets_tell_locations();
    ranges_have_replicas(&config.topology);
    let _zones = config.topology.zones();
}

// The seats that the store of a configuration begins with.
fn first_seats(alloc: Global, config: &Config) -> Result<Seats, OutOfMemory>
    requires limited { IsLimited config.now }
    ensures seats { IfOk result (AreFirstSeats config.now) }
{
    let mut leaves = new_states(alloc, config)?;
    match open_ranges(alloc, config, &mut leaves) {
        Ok(ranges) => seated(alloc, config, leaves, ranges),
        Err(fault) => {
            drop(leaves);
            Err(fault)
        }
    }
}

// The seats of leaves and ranges whose first replicas are opened.
fn seated(
    alloc: Global,
    config: &Config,
    leaf_states: Vec<LeafState>,
    range_states: Vec<RangeReplay>,
) -> Result<Seats, OutOfMemory>
    requires opened { AreOpenedSo config.now (first_leaf_history config.now.topology) leaf_states.items }
    requires histories { spec.replayed range_states.items ≡ first_range_histories config.now.topology }
    ensures seats { IfOk result (AreFirstSeats config.now) }
{
    match first_sight(alloc, leaf_states.as_slice(), range_states.as_slice()) {
        Ok(sight) => seats_of(alloc, config, leaf_states, range_states, sight),
        Err(fault) => {
            drop(leaf_states);
            drop(range_states);
            Err(fault)
        }
    }
}

// The seats of leaves and ranges that nobody holds, and of which all have seen so much.
fn seats_of(
    alloc: Global,
    config: &Config,
    leaf_states: Vec<LeafState>,
    range_states: Vec<RangeReplay>,
    sight: Sight,
) -> Result<Seats, OutOfMemory>
    requires count { length leaf_states.items ≡ length (leaves_in config.now.topology) }
    ensures words { IfOk result (λ seats. seats.words ≡ no_words (length config.now.topology) config.now.buckets) }
    ensures leaves { IfOk result (λ seats. seats.leaves.items
        ≡ spec.leaf_seats config.now.topology sight 0 leaf_states.items) }
    ensures ranges { IfOk result (λ seats. seats.ranges.items ≡ map (spec.range_seat sight) range_states.items) }
    ensures sight { IfOk result (λ seats. seats.first_sight ≡ sight) }
{
    match leaf_seats(alloc, &config.topology, leaf_states, &sight) {
        Ok(leaves) => seats_beside(alloc, config, leaves, range_states, sight),
        Err(fault) => {
            drop(range_states);
            drop(sight);
            Err(fault)
        }
    }
}

// The seats of ranges that nobody holds, beside those of leaves.
fn seats_beside(
    alloc: Global,
    config: &Config,
    leaves: Vec<LeafSeat>,
    range_states: Vec<RangeReplay>,
    sight: Sight,
) -> Result<Seats, OutOfMemory>
    ensures words { IfOk result (λ seats. seats.words ≡ no_words (length config.now.topology) config.now.buckets) }
    ensures leaves { IfOk result (λ seats. seats.leaves.items ≡ leaves.items) }
    ensures ranges { IfOk result (λ seats. seats.ranges.items ≡ map (spec.range_seat sight) range_states.items) }
    ensures sight { IfOk result (λ seats. seats.first_sight ≡ sight) }
{
    match range_seats(alloc, range_states, &sight) {
        Ok(ranges) => seats_with_words(alloc, config, leaves, ranges, sight),
        Err(fault) => {
            drop(leaves);
            drop(sight);
            Err(fault)
        }
    }
}

// Seats, with hint words in which no bit is set.
fn seats_with_words(
    alloc: Global,
    config: &Config,
    leaves: Vec<LeafSeat>,
    ranges: Vec<RangeSeat>,
    first_sight: Sight,
) -> Result<Seats, OutOfMemory>
    ensures words { IfOk result (λ seats. seats.words ≡ no_words (length config.now.topology) config.now.buckets) }
    ensures leaves { IfOk result (λ seats. seats.leaves.items ≡ leaves.items) }
    ensures ranges { IfOk result (λ seats. seats.ranges.items ≡ ranges.items) }
    ensures sight { IfOk result (λ seats. seats.first_sight ≡ first_sight) }
{
    match HintWords::new(alloc, config.topology.zones(), config.buckets) {
        Ok(words) => Ok(Seats {
            words,
            leaves,
            ranges,
            first_sight,
        }),
        Err(fault) => {
            drop(leaves);
            drop(ranges);
            drop(first_sight);
            Err(fault)
        }
    }
}

// The states of a configuration's leaves, which have no history.
fn new_states(alloc: Global, config: &Config) -> Result<Vec<LeafState>, OutOfMemory>
    requires limited { IsLimited config.now }
    ensures new { IfOk result (λ states. states.items
        ≡ replicate (length (leaves_in config.now.topology)) (new_leaf config.now.schemas config.now.buckets)) }
{
    let mut states = Vec::new(alloc);
    for leaf in 0..config.topology.leaves() {
        states.push(LeafState::new(alloc, Leaf(leaf), config.buckets, &config.schemas)?)?;
    }
    Ok(states)
}

// Opens the first replicas of all ranges.
fn open_ranges(
    alloc: Global,
    config: &Config,
    leaves: &mut Vec<LeafState>,
) -> Result<Vec<RangeReplay>, OutOfMemory>
    requires none { AreOpenedSo config.now (opened_before config.now.topology 0) leaves.old.items }
    ensures opened { OnOk result (AreOpenedSo config.now (first_leaf_history config.now.topology) leaves.new.items) }
    ensures histories { IfOk result (λ ranges.
        spec.replayed ranges.items ≡ first_range_histories config.now.topology) }
{
    ranges_have_replicas(&config.topology);
    let mut ranges = Vec::new(alloc);
    for range in 0..config.topology.ranges() {
        let state = open_range(alloc, config, leaves, Range(range))?;
        ranges.push(state)?;
    }
    Ok(ranges)
}

// Opens the first replicas of a range.
fn open_range(
    alloc: Global,
    config: &Config,
    leaves: &mut Vec<LeafState>,
    range: Range,
) -> Result<RangeReplay, OutOfMemory>
    requires there { range.0 < length (ranges_in config.now.topology) }
    requires replicas { HasReplicas config.now.topology range }
    requires before { AreOpenedSo config.now (opened_before config.now.topology range.0) leaves.old.items }
    ensures opened { OnOk result
        (AreOpenedSo config.now (opened_before config.now.topology (range.0 + 1)) leaves.new.items) }
    ensures history { IfOk result (λ state. state.history ≡ first_range_history config.now.topology range.0) }
{
    let mut state = RangeReplay::new(alloc);
    match open_replicas(alloc, config, leaves, range, &mut state) {
        Ok(()) => Ok(state),
        Err(fault) => {
            drop(state);
            Err(fault)
        }
    }
}

// Opens the first replicas of a range that has none so far.
fn open_replicas(
    alloc: Global,
    config: &Config,
    leaves: &mut Vec<LeafState>,
    range: Range,
    state: &mut RangeReplay,
) -> Result<(), OutOfMemory>
    requires there { range.0 < length (ranges_in config.now.topology) }
    requires replicas { HasReplicas config.now.topology range }
    requires before { AreOpenedSo config.now (opened_before config.now.topology range.0) leaves.old.items }
    requires none { state.old.history ≡ [] }
    ensures opened { OnOk result
        (AreOpenedSo config.now (opened_before config.now.topology (range.0 + 1)) leaves.new.items) }
    ensures history { OnOk result (state.new.history ≡ first_range_history config.now.topology range.0) }
{
    let mut number = 0;
    for leaf in config.topology.first_replicas(range).as_slice() {
        open_replica(alloc, leaves, *leaf, range, Slot(number))?;
        state.open(0, Slot(number), *leaf)?;
        number += 1;
    }
    Ok(())
}

// Opens a replica without rows on a leaf.
fn open_replica(
    alloc: Global,
    leaves: &mut Vec<LeafState>,
    leaf: Leaf,
    range: Range,
    slot: Slot,
) -> Result<(), OutOfMemory>
    requires there { leaf.0 < length leaves.old.items }
    requires may { IfSome (slice_get leaves.old.items leaf.0)
        (λ state. IsWellFormed (state.history ++ Entry.Opened 0 range slot [] ∷ [])) }
    ensures count { length leaves.new.items ≡ length leaves.old.items }
    ensures opened { OnOk result (IsChanged leaf (with_opening range slot.0) leaves.old.items leaves.new.items) }
{
    open_slot(alloc, &mut leaves[leaf.0 as usize], range, slot)
}

// Opens a replica without rows.
fn open_slot(
    alloc: Global,
    state: &mut LeafState,
    range: Range,
    slot: Slot,
) -> Result<(), OutOfMemory>
    requires may { IsWellFormed (state.old.history ++ Entry.Opened 0 range slot [] ∷ []) }
    ensures opened { OnOk result (state.new ≡ with_opening range slot.0 state.old) }
{
    let rows = RowList::new(alloc);
    state.reserve_opened(&rows)?;
    state.apply(Entry::Opened {
        pass: 0,
        range,
        slot,
        rows,
    });
    Ok(())
}

// All of these histories.
fn first_sight(
    alloc: Global,
    leaves: &[LeafState],
    ranges: &[RangeReplay],
) -> Result<Sight, OutOfMemory>
    ensures sight { IfOk result (λ sight. sight ≡ sight_of_states leaves.now ranges.now) }
{
    Ok(Sight {
        leaves: leaf_lengths(alloc, leaves)?,
        ranges: range_sights(alloc, ranges)?,
    })
}

// The length of each leaf's history.
fn leaf_lengths(alloc: Global, leaves: &[LeafState]) -> Result<ListOf<u64>, OutOfMemory>
    ensures lengths { IfOk result (λ lengths. lengths ≡ map (λ state. length state.history) leaves.now) }
{
    let mut lengths = ListOf::new(alloc);
    for state in leaves {
        lengths.push(state.length())?;
    }
    Ok(lengths)
}

// What who sees all of each range's history sees.
fn range_sights(alloc: Global, ranges: &[RangeReplay]) -> Result<ListOf<RangeSight>, OutOfMemory>
    ensures sights { IfOk result (λ sights. sights ≡ map (λ replay. range_sight replay.history) ranges.now) }
{
    let mut sights = ListOf::new(alloc);
    for state in ranges {
        sights.push(state.sight())?;
    }
    Ok(sights)
}

// Each leaf, held by nobody.
fn leaf_seats(
    alloc: Global,
    topology: &Topology,
    states: Vec<LeafState>,
    sight: &Sight,
) -> Result<Vec<LeafSeat>, OutOfMemory>
    requires count { length states.items ≡ length (leaves_in topology.now) }
    ensures seats { IfOk result (λ seats. seats.items ≡ spec.leaf_seats topology.now sight.now 0 states.items) }
{
    let mut seats = Vec::with_capacity(alloc, states.len())?;
    for state in states {
        let seat = leaf_seat(alloc, topology, seats.len(), state, sight)?;
        seats.push(seat)?;
    }
    Ok(seats)
}

// A leaf, held by nobody.
fn leaf_seat(
    alloc: Global,
    topology: &Topology,
    leaf: usize,
    state: LeafState,
    sight: &Sight,
) -> Result<LeafSeat, OutOfMemory>
    requires there { leaf < length (leaves_in topology.now) }
    ensures seat { IfOk result (λ seat. seat ≡ spec.leaf_seat topology.now sight.now leaf state) }
{
    let (zone, place) = place_of(topology, leaf);
    let copied = sight.copy(alloc)?;
    Ok(LeafSeat {
        state,
        zone,
        place,
        holder: None,
        sight: copied,
    })
}

// The zone of a leaf, and its place there.
fn place_of(topology: &Topology, leaf: usize) -> (Zone, u32)
    requires there { leaf < length (leaves_in topology.now) }
    ensures zone { result.0 ≡ slice_index_or (leaf_zones topology.now) leaf (zone_numbered 0) }
    ensures place { result.1
        ≡ leaf - first_leaf topology.now (slice_index_or (leaf_zones topology.now) leaf (zone_numbered 0)).0 }
{
    for zone in 0..topology.zones() {
        let (first, count) = topology.leaves_of(Zone(zone));
        let place = leaf - first.0 as usize;
        if place < count as usize {
            return (Zone(zone), place as u32);
        }
    }
    unreachable!();
}

// Each range, held by nobody.
fn range_seats(
    alloc: Global,
    states: Vec<RangeReplay>,
    sight: &Sight,
) -> Result<Vec<RangeSeat>, OutOfMemory>
    ensures seats { IfOk result (λ seats. seats.items ≡ map (spec.range_seat sight.now) states.items) }
{
    let mut seats = Vec::with_capacity(alloc, states.len())?;
    for state in states {
        let seat = range_seat(alloc, state, sight)?;
        seats.push(seat)?;
    }
    Ok(seats)
}

// A range, held by nobody.
fn range_seat(alloc: Global, state: RangeReplay, sight: &Sight) -> Result<RangeSeat, OutOfMemory>
    ensures seat { IfOk result (λ seat. seat ≡ spec.range_seat sight.now state) }
{
    let copied = sight.copy(alloc)?;
    Ok(RangeSeat {
        state,
        holder: None,
        sight: copied,
    })
}
