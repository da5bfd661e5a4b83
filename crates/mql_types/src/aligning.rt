// Alignment, as a query says it and by default.
ghost use Rattle.std.specs.Prelude.{◌≡◌, IfOk, map, None};
ghost use Rattle.typed_trees.specs.Faults.{first_with};
ghost use Rattle.typed_trees.specs.Nodes.{node_tree};
ghost use Rattle.mql_types.specs.PartViews.{part_view};
ghost use Rattle.typed_trees.specs.Typing as spec;

use crate::parts::Part;
use mon_value::{Aligner, Column, Columns, Kind, Shared, TryCopy};
use std::alloc::{AllocError, Global};
use typed_columns::with_width;
use typed_trees::{Faults, Node, NodeInfo, OF_DELTA, OF_INCREASE, OF_NUMBER, TypeKind, Width};

/// A table: what isn't aligned yet is aligned here, at no place of the text.
pub(crate) fn aligned_tree(alloc: Global, every: i64, part: Part) -> Result<Node, AllocError>
    ensures node { IfOk result (λ node. node_tree node ≡ spec.aligned_tree every (part_view part)) }
{
    match part.points {
        Some(Kind::Gauge) => align_node(alloc, None, Aligner::NextOlder(every), part.node),
        Some(Kind::Delta) => align_node(alloc, None, Aligner::Delta(every), part.node),
        Some(Kind::Cumulative) => align_node(alloc, None, Aligner::Increase(every), part.node),
        None => Ok(part.node),
    }
}

/// An alignment, which leaves the keys and widens the value.
pub(crate) fn align_node(
    alloc: Global,
    at: Option<u32>,
    by: Aligner,
    input: Node,
) -> Result<Node, AllocError>
    ensures node { IfOk result (λ node. node_tree node ≡ spec.align_node at by (node_tree input)) }
{
    let columns = aligned_columns(alloc, by, input.columns())?;
    let fixed = input.fixed().copy(alloc)?;
    Ok(Node::Align {
        info: NodeInfo::new(alloc, at, columns, fixed, input.info().level)?,
        by,
        input: Box::new(alloc, input)?,
    })
}

fn aligned_columns(
    alloc: Global,
    by: Aligner,
    columns: &[Shared<Column>],
) -> Result<Columns, AllocError>
    ensures columns { IfOk result (λ made. made ≡ map (spec.aligned_column by) columns.now) }
{
    let mut made = Columns::new(alloc);
    for column in columns {
        made.push(aligned_column(alloc, by, column)?)?;
    }
    Ok(made)
}

fn aligned_column(
    alloc: Global,
    by: Aligner,
    column: &Shared<Column>,
) -> Result<Shared<Column>, AllocError>
    ensures column { IfOk result (λ made. made ≡ spec.aligned_column by column.now) }
{
    if column.key {
        column.copy(alloc)
    } else {
        with_width(alloc, column, aligned_width(by))
    }
}

fn aligned_width(by: Aligner) -> Width
    ensures width { result ≡ spec.aligned_width by }
{
    match by {
        Aligner::Delta(_) => OF_DELTA,
        Aligner::Increase(_) => OF_INCREASE,
        Aligner::NextOlder(_) => OF_NUMBER,
    }
}

/// What an alignment of points of a kind is, by what the query says: the delta of totals is what they increase by.
pub(crate) fn aligned_as(points: Option<Kind>, by: Aligner) -> Aligner
    ensures aligner { result ≡ spec.aligned_as points by }
{
    let Some(kind) = points else {
        return by;
    };
    match by {
        Aligner::Delta(seconds) => delta_of(kind, seconds),
        Aligner::Increase(seconds) => delta_of(kind, seconds),
        Aligner::NextOlder(seconds) => Aligner::NextOlder(seconds),
    }
}

fn delta_of(kind: Kind, seconds: i64) -> Aligner
    ensures aligner { result ≡ spec.delta_of kind seconds }
{
    match kind {
        Kind::Gauge => Aligner::Delta(seconds),
        Kind::Delta => Aligner::Delta(seconds),
        Kind::Cumulative => Aligner::Increase(seconds),
    }
}

/// Tells an alignment of a table, of a gauge as a delta, or of any other metric as a gauge.
pub(crate) fn tell_align(points: Option<Kind>, at: u32, by: Aligner, found: &mut Faults)
    ensures faults { found.new.first ≡ first_with found.old.first (spec.align_faults points at by) }
{
    let Some(kind) = points else {
        found.tell(at, TypeKind::BadOrder);
        return;
    };
    match by {
        Aligner::Delta(_) => tell_delta(kind, at, found),
        Aligner::Increase(_) => tell_delta(kind, at, found),
        Aligner::NextOlder(_) => tell_newest(kind, at, found),
    }
}

// Tells the delta of a gauge.
fn tell_delta(kind: Kind, at: u32, found: &mut Faults)
    ensures faults { found.new.first ≡ first_with found.old.first (spec.delta_faults kind at) }
{
    match kind {
        Kind::Gauge => found.tell(at, TypeKind::NotDelta),
        Kind::Delta => {}
        Kind::Cumulative => {}
    }
}

// Tells the newest value of what isn't a gauge.
fn tell_newest(kind: Kind, at: u32, found: &mut Faults)
    ensures faults { found.new.first ≡ first_with found.old.first (spec.newest_faults kind at) }
{
    match kind {
        Kind::Gauge => {}
        Kind::Delta => found.tell(at, TypeKind::NotGauge),
        Kind::Cumulative => found.tell(at, TypeKind::NotGauge),
    }
}
