// What a zone and the root make of answers.
ghost use Rattle.std.specs.Prelude.{◌≡◌, ◌+◌, ◌≤◌, ◌^◌, ℤ, List, map, sum_by, IfErr, IfOk, OnOk};
ghost use Rattle.mon_value.specs.declared.limits.TheConstants.{ROW_BITS};
ghost use Rattle.mon_value.specs.declared.rows.Row.{Row};
ghost use Rattle.typed_trees.specs.Nodes.{typed_tree};
ghost use Rattle.mon_fold.specs.declared.answers.LeafAnswer.{LeafAnswer};
ghost use Rattle.mon_meaning.specs.Central.{IsAnswer};
ghost use Rattle.mon_meaning.specs.Counts.{TellsOver};
ghost use Rattle.mixer.specs.Divisions.{all_rows};
ghost use Rattle.mixer.specs.ZoneAnswers.{AreLeafParts, AreZoneParts, HasLeafParts, HasZoneParts, IsZoneAnswer};
ghost use Rattle.mixer.specs.declared.zone_answers.ZoneAnswer.{ZoneAnswer as Answer};

use crate::joining::pieces_together;
use crate::mixtures::{MixtureSetting, mixed_rows};
use crate::zone_answers::{ZoneAnswer, ZoneAnswers};
use crate::zone_pieces::zone_pieces;
use mon_fold::{LeafAnswers, Pieces};
use mon_meaning::{Meter, OverLimit, table_of};
use mon_value::{Refusal, Table};
use std::alloc::Global;
use typed_trees::{Level, Plan};

/// A zone's part of a plan, made of the answers of its leaves. It is refused exactly where the load of the leaves and
/// of the zone's joins is above the limit, before memory for what is too much is taken.
pub fn mix_zone(
    alloc: Global,
    plan: &Plan,
    parts: LeafAnswers,
    limit: u64,
) -> Result<ZoneAnswer, Refusal<OverLimit>>
    requires asked { HasLeafParts (typed_tree plan.now.typed) limit parts }
    requires limit { limit ≤ 2 ^ ROW_BITS }
    ensures answer { (leaves : List (List Row)) (moment : ℤ)
        → AreLeafParts (typed_tree plan.now.typed) leaves moment limit parts
        → IsZoneAnswer (typed_tree plan.now.typed) leaves moment limit result }
{
    let mut meter = Meter::new(limit);
    let children = leaf_children(alloc, parts, &mut meter)?;
    let tree = &plan.typed.tree;
    let pieces = pieces_together(alloc, tree, Level::Leaf, children)?;
    let pieces = zone_pieces(alloc, tree, pieces, &mut meter)?;
    Ok(ZoneAnswer {
        pieces,
        load: limit - meter.room(),
    })
}

/// The table of a plan's query, made of the answers of zones. It is refused exactly where the load of the zones and
/// of the root's joins is above the limit, before memory for what is too much is taken.
pub fn mix_root(
    alloc: Global,
    plan: &Plan,
    zones: ZoneAnswers,
    limit: u64,
) -> Result<Table, Refusal<OverLimit>>
    requires asked { HasZoneParts (typed_tree plan.now.typed) limit zones }
    requires limit { limit ≤ 2 ^ ROW_BITS }
    ensures answer { (rows : List (List (List Row))) (moment : ℤ)
        → AreZoneParts (typed_tree plan.now.typed) rows moment limit zones
        → IsAnswer (typed_tree plan.now.typed) (all_rows rows) moment limit result }
{
    let mut meter = Meter::new(limit);
    let children = zone_children(alloc, zones, &mut meter)?;
    let tree = &plan.typed.tree;
    let pieces = pieces_together(alloc, tree, Level::Zone, children)?;
    let setting = MixtureSetting {
        alloc,
        below: Level::Zone,
    };
    let rows = mixed_rows(
        setting,
        tree,
        &mut pieces.into_vec().into_iter(),
        &mut meter,
    )?;
    Ok(table_of(alloc, &tree.info().columns, rows)?)
}

// The pieces of each leaf, whose loads go on the meter.
fn leaf_children(
    alloc: Global,
    parts: LeafAnswers,
    meter: &mut Meter,
) -> Result<Vec<Pieces>, Refusal<OverLimit>>
    ensures pieces { IfOk result (λ children. children.items ≡ map (λ (one : LeafAnswer). one.pieces) parts) }
    ensures limit { meter.new.limit ≡ meter.old.limit }
    ensures counted { OnOk result (meter.new.load ≡ meter.old.load + sum_by (λ (one : LeafAnswer). one.load) parts) }
    ensures over { IfErr result (TellsOver meter.old.limit
        (meter.old.load + sum_by (λ (one : LeafAnswer). one.load) parts)) }
{
    let mut children = Vec::new(alloc);
    for part in parts {
        meter.add(part.load as usize)?;
        children.push(part.pieces)?;
    }
    Ok(children)
}

// The pieces of each zone, whose loads go on the meter.
fn zone_children(
    alloc: Global,
    zones: ZoneAnswers,
    meter: &mut Meter,
) -> Result<Vec<Pieces>, Refusal<OverLimit>>
    ensures pieces { IfOk result (λ children. children.items ≡ map (λ (one : Answer). one.pieces) zones) }
    ensures limit { meter.new.limit ≡ meter.old.limit }
    ensures counted { OnOk result (meter.new.load ≡ meter.old.load + sum_by (λ (one : Answer). one.load) zones) }
    ensures over { IfErr result (TellsOver meter.old.limit
        (meter.old.load + sum_by (λ (one : Answer). one.load) zones)) }
{
    let mut children = Vec::new(alloc);
    for zone in zones {
        meter.add(zone.load as usize)?;
        children.push(zone.pieces)?;
    }
    Ok(children)
}
