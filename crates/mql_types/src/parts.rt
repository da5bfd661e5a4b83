// The parts of a query, typed from the left.
ghost use Rattle.std.specs.Prelude.{◌≡◌, [], IfOk, OnOk, map, Some};
ghost use Rattle.std.specs.Option.{option_copied};
ghost use Rattle.mon_schema.specs.Faults.{texts_repeat};
ghost use Rattle.mon_value.specs.Tables.{column_names};
ghost use Rattle.mql_ast.specs.Trees.{branches, pipe_tree, source_tree};
ghost use Rattle.typed_trees.specs.Faults.{fault_where, first_with};
ghost use Rattle.typed_trees.specs.Branches as branch;
ghost use Rattle.typed_trees.specs.Fetches as fetch;
ghost use Rattle.typed_trees.specs.Nodes as tree;
ghost use Rattle.typed_trees.specs.Nodes.{columns_of, node_tree};
ghost use Rattle.mql_types.specs.PartViews.{part_view};
ghost use Rattle.typed_trees.specs.Typing as spec;

use crate::aligning::aligned_tree;
use crate::operations::ops_part;
use mon_value::{Columns, Kind, MetricSchema, TargetSchema, Text, TryCopy};
use mql_ast::{How, Name, Pipe, Source};
use std::alloc::{AllocError, Global};
use typed_columns::{
    Joined, TypingSetting, fetch_columns, fixed_in_both, joined_fixed, kind_of, meeting_level,
    names_repeat, nothing_fixed, same_columns, tell_wide_columns, union_columns,
};
use typed_trees::{Faults, Level, Node, NodeInfo, TypeKind};

/// A part of a query: its tree, and the kind of its metric while its points aren't aligned.
#[derive(Drop)]
pub(crate) struct Part {
    pub(crate) node: Node,
    pub(crate) points: Option<Kind>,
}

/// A table.
pub(crate) fn table(node: Node) -> Part
    ensures part { part_view result ≡ spec.table (node_tree node) }
{
    Part { node, points: None }
}

/// The part that a pipe is. Tells what is wrong in it.
#[cycle(parts)]
#[tactic(auto, using(typed_columns::proofs::FaultLemmas::faults))]
pub(crate) fn pipe_part(
    setting: TypingSetting<'_>,
    pipe: &Pipe,
    found: &mut Faults,
) -> Result<Part, AllocError>
    ensures part { IfOk result (λ part. part_view part
        ≡ spec.pipe_part setting.entry.schemas.now setting.entry.every (pipe_tree pipe.now)) }
    ensures faults { OnOk result (found.new.first ≡ first_with found.old.first
        (spec.pipe_faults setting.entry.schemas.now setting.entry.every (pipe_tree pipe.now))) }
{
    let source = source_part(setting, &pipe.source, found)?;
    ops_part(setting, source, pipe.ops.as_slice(), found)
}

#[cycle(parts)]
#[tactic(auto, using(typed_columns::proofs::FaultLemmas::faults))]
fn source_part(
    setting: TypingSetting<'_>,
    source: &Source,
    found: &mut Faults,
) -> Result<Part, AllocError>
    ensures part { IfOk result (λ part. part_view part
        ≡ spec.source_part setting.entry.schemas.now setting.entry.every (source_tree source.now)) }
    ensures faults { OnOk result (found.new.first ≡ first_with found.old.first
        (spec.source_faults setting.entry.schemas.now setting.entry.every (source_tree source.now))) }
{
    match source {
        Source::Fetch { at, schema, metric } => fetch_part(setting, *at, schema, metric, found),
        Source::Branches {
            at: _,
            pipes,
            how,
            how_at,
        } => {
            let how = Joint {
                how: *how,
                at: *how_at,
            };
            let node = branches_node(setting, pipes.as_slice(), how, found)?;
            Ok(table(node))
        }
    }
}

// Branches are taken from the left, two at a time.
#[cycle(parts)]
#[tactic(auto, using(typed_columns::proofs::FaultLemmas::faults))]
fn branches_node(
    setting: TypingSetting<'_>,
    pipes: &[Pipe],
    how: Joint,
    found: &mut Faults,
) -> Result<Node, AllocError>
    ensures node { IfOk result (λ node. node_tree node
        ≡ spec.branches_node setting.entry.schemas.now setting.entry.every how.how how.at
        (branches (map pipe_tree pipes.now))) }
    ensures faults { OnOk result (found.new.first ≡ first_with found.old.first
        (spec.branches_faults setting.entry.schemas.now setting.entry.every how.how how.at
        (branches (map pipe_tree pipes.now)))) }
{
    let Some((first, rest)) = pipes.split_first() else {
        return no_branch(setting.alloc, how.at);
    };
    let mut left = branch_table(setting, first, found)?;
    for pipe in rest {
        let right = branch_table(setting, pipe, found)?;
        left = branch_node(setting, how, left, right, found)?;
    }
    Ok(left)
}

// A branch, whose table is aligned.
#[cycle(parts)]
#[tactic(auto, using(typed_columns::proofs::FaultLemmas::faults))]
fn branch_table(
    setting: TypingSetting<'_>,
    pipe: &Pipe,
    found: &mut Faults,
) -> Result<Node, AllocError>
    ensures node { IfOk result (λ node. node_tree node ≡ spec.aligned_tree setting.entry.every
        (spec.pipe_part setting.entry.schemas.now setting.entry.every (pipe_tree pipe.now))) }
    ensures faults { OnOk result (found.new.first ≡ first_with found.old.first
        (spec.pipe_faults setting.entry.schemas.now setting.entry.every (pipe_tree pipe.now))) }
{
    let part = pipe_part(setting, pipe, found)?;
    aligned_tree(setting.alloc, setting.every, part)
}

/// How branches come together, and where the text says so.
#[derive(Clone, Copy)]
pub(crate) struct Joint {
    pub(crate) how: How,
    pub(crate) at: u32,
}

// Two tables brought together.
#[tactic(auto, using(crate::proofs::TypingLemmas::branch_made))]
fn branch_node(
    setting: TypingSetting<'_>,
    how: Joint,
    left: Node,
    right: Node,
    found: &mut Faults,
) -> Result<Node, AllocError>
    ensures node { IfOk result (λ node. node_tree node
        ≡ spec.branch_node setting.entry.schemas.now how.how how.at (node_tree left) (node_tree right)) }
    ensures faults { OnOk result (found.new.first ≡ first_with found.old.first
        (spec.branch_faults setting.entry.schemas.now how.how how.at
        (columns_of (node_tree left)) (columns_of (node_tree right)))) }
{
    match branch_info(setting, how, &left, &right, found) {
        Ok(info) => joint_node(setting.alloc, how.how, info, left, right),
        Err(stop) => {
            drop(right);
            drop(left);
            Err(stop)
        }
    }
}

// The node of a join or a union.
fn joint_node(
    alloc: Global,
    how: How,
    info: NodeInfo,
    left: Node,
    right: Node,
) -> Result<Node, AllocError>
    ensures node { IfOk result (λ made. node_tree made ≡ spec.joint_node how info (node_tree left) (node_tree right)) }
{
    match Box::new(alloc, left) {
        Ok(left) => match Box::new(alloc, right) {
            Ok(right) => match how {
                How::Join => Ok(Node::Join { info, left, right }),
                How::Union => Ok(Node::Union { info, left, right }),
            },
            Err(stop) => {
                drop(left);
                drop(info);
                Err(stop.into())
            }
        },
        Err(stop) => {
            drop(right);
            drop(info);
            Err(stop.into())
        }
    }
}

// What is told of a join or a union.
fn branch_info(
    setting: TypingSetting<'_>,
    how: Joint,
    left: &Node,
    right: &Node,
    found: &mut Faults,
) -> Result<NodeInfo, AllocError>
    ensures info { IfOk result (λ made. made
        ≡ spec.branch_info setting.entry.schemas.now how.how how.at (node_tree left.now) (node_tree right.now)) }
    ensures faults { OnOk result (found.new.first
        ≡ first_with found.old.first (spec.branch_faults setting.entry.schemas.now how.how how.at
        (columns_of (node_tree left.now)) (columns_of (node_tree right.now)))) }
{
    match how.how {
        How::Join => join_info(setting, how.at, left, right, found),
        How::Union => union_info(setting, how.at, left, right, found),
    }
}

// What is told of a join.
#[tactic(auto, using(typed_columns::proofs::FaultLemmas::faults))]
fn join_info(
    setting: TypingSetting<'_>,
    at: u32,
    left: &Node,
    right: &Node,
    found: &mut Faults,
) -> Result<NodeInfo, AllocError>
    ensures info { IfOk result (λ made. made
        ≡ spec.join_info setting.entry.schemas.now at (node_tree left.now) (node_tree right.now)) }
    ensures faults { OnOk result (found.new.first ≡ first_with found.old.first (branch.join_faults
        setting.entry.schemas.now at (columns_of (node_tree left.now)) (columns_of (node_tree right.now)))) }
{
    let lefts = left.columns();
    let rights = right.columns();
    let joined = Joined::new(setting, at, lefts, rights, found)?;
    tell_wide_columns(joined.columns.as_slice(), at, found);
    let level = left.info().level.higher(right.info().level);
    let level = meeting_level(setting.schemas, level, joined.common.as_slice());
    let fixed = joined_fixed(setting.alloc, left, right)?;
    NodeInfo::new(setting.alloc, Some(at), joined.columns, fixed, level)
}

// What is told of a union.
#[tactic(auto, using(typed_columns::proofs::FaultLemmas::faults))]
fn union_info(
    setting: TypingSetting<'_>,
    at: u32,
    left: &Node,
    right: &Node,
    found: &mut Faults,
) -> Result<NodeInfo, AllocError>
    ensures info { IfOk result (λ made. made
        ≡ spec.union_info setting.entry.schemas.now at (node_tree left.now) (node_tree right.now)) }
    ensures faults { OnOk result (found.new.first ≡ first_with found.old.first (branch.union_faults
        setting.entry.schemas.now at (columns_of (node_tree left.now)) (columns_of (node_tree right.now)))) }
{
    let lefts = left.columns();
    let rights = right.columns();
    found.tell_where(!same_columns(lefts, rights), at, TypeKind::BranchColumns);
    let columns = union_columns(setting, lefts, rights)?;
    tell_wide_columns(columns.as_slice(), at, found);
    let level = left.info().level.higher(right.info().level);
    let fixed = fixed_in_both(
        setting.alloc,
        left.fixed().as_slice(),
        right.fixed().as_slice(),
    )?;
    NodeInfo::new(setting.alloc, Some(at), columns, fixed, level)
}

// A fetch, which each leaf does.
#[tactic(auto, using(typed_columns::proofs::FaultLemmas::faults))]
fn fetch_part(
    setting: TypingSetting<'_>,
    at: u32,
    schema: &Name,
    metric: &Name,
    found: &mut Faults,
) -> Result<Part, AllocError>
    ensures part { IfOk result (λ part. part_view part
        ≡ spec.fetch_part setting.entry.schemas.now at schema.now metric.now) }
    ensures faults { OnOk result (found.new.first ≡ first_with found.old.first
        (fetch.fetch_faults setting.entry.schemas.now at schema.now metric.now)) }
{
    let target = setting.schemas.target(schema.text.as_bytes());
    let measured = setting.schemas.metric(metric.text.as_bytes());
    found.tell_where(target.is_none(), schema.at, TypeKind::UnknownSchema);
    found.tell_where(measured.is_none(), metric.at, TypeKind::UnknownMetric);
    let columns = told_columns(setting.alloc, target, measured, at, found)?;
    Ok(Part {
        node: fetch_node(setting.alloc, at, columns, schema, metric)?,
        points: Some(kind_of(measured)),
    })
}

// The columns of a fetch. Tells two of one name.
fn told_columns(
    alloc: Global,
    target: Option<&TargetSchema>,
    metric: Option<&MetricSchema>,
    at: u32,
    found: &mut Faults,
) -> Result<Columns, AllocError>
    ensures columns { IfOk result (λ columns. columns
        ≡ fetch.fetch_columns (option_copied target.entry) (option_copied metric.entry)) }
    ensures faults { OnOk result (found.new.first ≡ first_with found.old.first (fault_where
        (texts_repeat (column_names (fetch.fetch_columns (option_copied target.entry) (option_copied metric.entry))))
        at TypeKind.DuplicateColumn)) }
{
    let columns = fetch_columns(alloc, target, metric)?;
    match names_repeat(alloc, columns.as_slice()) {
        Ok(repeat) => {
            found.tell_where(repeat, at, TypeKind::DuplicateColumn);
            Ok(columns)
        }
        Err(stop) => {
            drop(columns);
            Err(stop)
        }
    }
}

// The node of a fetch that gives some columns.
fn fetch_node(
    alloc: Global,
    at: u32,
    columns: Columns,
    schema: &Name,
    metric: &Name,
) -> Result<Node, AllocError>
    ensures node { IfOk result (λ node. node_tree node
        ≡ tree.Fetch (spec.info (Some at) columns [] Level.Leaf) schema.now.text metric.now.text) }
{
    let info = NodeInfo::new(alloc, Some(at), columns, nothing_fixed(alloc)?, Level::Leaf)?;
    match fetched_names(alloc, schema, metric) {
        Ok((schema, metric)) => Ok(Node::Fetch {
            info,
            schema,
            metric,
        }),
        Err(stop) => {
            drop(info);
            Err(stop)
        }
    }
}

// Copies of what a fetch names.
fn fetched_names(alloc: Global, schema: &Name, metric: &Name) -> Result<(Text, Text), AllocError>
    ensures schema { IfOk result (λ names. names.0 ≡ schema.now.text) }
    ensures metric { IfOk result (λ names. names.1 ≡ metric.now.text) }
{
    let schema = schema.text.copy(alloc)?;
    let metric = metric.text.copy(alloc)?;
    Ok((schema, metric))
}

// What stands for branches where there is none, as in no text.
fn no_branch(alloc: Global, at: u32) -> Result<Node, AllocError>
    ensures node { IfOk result (λ node. node_tree node ≡ spec.no_branch at) }
{
    Ok(Node::Fetch {
        info: NodeInfo::new(
            alloc,
            Some(at),
            Columns::new(alloc),
            nothing_fixed(alloc)?,
            Level::Leaf,
        )?,
        schema: Text::from_str(alloc, "")?,
        metric: Text::from_str(alloc, "")?,
    })
}
