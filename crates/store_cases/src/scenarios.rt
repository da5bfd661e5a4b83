// The scenarios. Each has a store of its own, under a name of its own.
ghost use Rattle.std.specs.Prelude.{IfOk};
ghost use Rattle.mon_config.specs.Configs.{IsLimited};
ghost use Rattle.mon_store.specs.Blanks.{IsNamed};

use crate::places::Place;
use crate::trouble::Trouble;
use crate::writers::{IN_FOUR, IN_ONE, four_write};
use crate::{memory, readers};
use know::Names;
use mon_config::{Config, read_config};
use mon_store::{Pass, Store, StoreBlank};
use mon_value::Refusal;
use std::alloc::Global;
use std::marker::Brand;
use std::sync::Wait;
use std::thread::Threads;

/// A scenario.
#[derive(Clone, Copy)]
pub(crate) enum Scenario {
    FourInOne,
    FourInFour,
    WritesAndAsks,
    WantingMemory,
}

/// All of them.
pub(crate) const SCENARIOS: &[Scenario] = &[
    Scenario::FourInOne,
    Scenario::FourInFour,
    Scenario::WritesAndAsks,
    Scenario::WantingMemory,
];

/// Three leaves, and one range with replicas on the first two.
const ONE_RANGE: &str =
    r#"{"targets":[{"name":"T","fields":[{"name":"u","type":"text"},{"name":"z","type":"text","location":true}]}],
"metrics":[{"name":"/m","kind":"gauge","type":"int","column":"v"}],
"zones":[{"name":"east","locations":["e"],"leaves":["e1","e2","e3"],"ranges":[{"from":[],"leaves":["e1","e2"]}]}]}"#;

/// The same with a replica on each leaf.
const THREE_REPLICAS: &str =
    r#"{"targets":[{"name":"T","fields":[{"name":"u","type":"text"},{"name":"z","type":"text","location":true}]}],
"metrics":[{"name":"/m","kind":"gauge","type":"int","column":"v"}],
"zones":[{"name":"east","locations":["e"],"leaves":["e1","e2","e3"],
"ranges":[{"from":[],"leaves":["e1","e2","e3"]}]}]}"#;

/// Two zones of two leaves, and two ranges in each, with replicas on both leaves.
const FOUR_RANGES: &str =
    r#"{"targets":[{"name":"T","fields":[{"name":"u","type":"text"},{"name":"z","type":"text","location":true}]}],
"metrics":[{"name":"/m","kind":"gauge","type":"int","column":"v"}],
"zones":[{"name":"east","locations":["e"],"leaves":["e1","e2"],
"ranges":[{"from":[],"leaves":["e1","e2"]},{"from":["T","m"],"leaves":["e2","e1"]}]},
{"name":"west","locations":["w"],"leaves":["w1","w2"],
"ranges":[{"from":[],"leaves":["w1","w2"]},{"from":["T","m"],"leaves":["w2","w1"]}]}]}"#;

impl Scenario {
    /// The name that is printed.
    pub(crate) fn name(self) -> &'static str {
        match self {
            Scenario::FourInOne => "writers::four_write, one range",
            Scenario::FourInFour => "writers::four_write, four ranges",
            Scenario::WritesAndAsks => "readers::one_writes_and_one_asks",
            Scenario::WantingMemory => "memory::nothing_is_half_done",
        }
    }

    // What its store is set up with.
    fn config(self) -> &'static str {
        match self {
            Scenario::FourInFour => FOUR_RANGES,
            Scenario::WantingMemory => THREE_REPLICAS,
            _ => ONE_RANGE,
        }
    }
}

/// Whether a scenario holds. One that memory is wanting for is begun once more, with another store.
pub(crate) fn holds<R: Threads + Wait + Sync>(
    rt: &R,
    alloc: Global,
    scenario: Scenario,
) -> Result<bool, Trouble> {
    match holds_once(rt, alloc, scenario) {
        Err(Trouble::OutOfMemory) => holds_once(rt, alloc, scenario),
        ended => ended,
    }
}

fn holds_once<R: Threads + Wait + Sync>(
    rt: &R,
    alloc: Global,
    scenario: Scenario,
) -> Result<bool, Trouble> {
    let config = config_of(alloc, scenario.config())?;
    let blank = StoreBlank::new(alloc, config)?;
    holds_in::<Brand, R>(rt, alloc, blank, scenario)
}

#[tactic(auto, using(mon_config::proofs::LimitLemmas::is_limited))]
fn config_of(alloc: Global, text: &str) -> Result<Config, Trouble>
    ensures limited { IfOk result IsLimited }
{
    match read_config(alloc, text.as_bytes()) {
        Ok(config) => Ok(config),
        Err(Refusal::Fault(_fault)) => Err(Trouble::Refused),
        Err(Refusal::OutOfMemory) => Err(Trouble::OutOfMemory),
    }
}

// Whether a scenario holds in a store that is opened under a name.
fn holds_in<N: Names + Send + Sync, R: Threads + Wait + Sync>(
    rt: &R,
    alloc: Global,
    blank: StoreBlank,
    scenario: Scenario,
) -> Result<bool, Trouble>
    requires named { IsNamed N.raise N.book N.setting blank }
{
    let (store, mut first) = Store::<N>::new(alloc, blank)?;
    let place = Place { alloc, store };
    let held = run(rt, &place, &mut first, scenario);
    drop(first);
    drop(place);
    held
}

fn run<N: Names + Send + Sync, R: Threads + Wait + Sync>(
    rt: &R,
    place: &Place<N>,
    first: &mut Pass<N>,
    scenario: Scenario,
) -> Result<bool, Trouble> {
    match scenario {
        Scenario::FourInOne => four_write(rt, place, first, IN_ONE),
        Scenario::FourInFour => four_write(rt, place, first, IN_FOUR),
        Scenario::WritesAndAsks => readers::one_writes_and_one_asks(rt, place, first),
        Scenario::WantingMemory => memory::nothing_is_half_done(rt, place, first),
    }
}
