// The items of `value`.
ghost use Rattle.std.specs.Prelude.{◌≡◌};
ghost use Rattle.mql_ast.specs.Trees.{item_tree, sum_tree};
ghost use Rattle.mql_parse.specs.Outcomes.{rest_of, Reads};
ghost use Rattle.mql_parse.specs.Repeats.{list_turn};
ghost use Rattle.mql_parse.specs.SumReading as sums;
ghost use Rattle.mql_parse.specs.TurnViews.{Turns};
ghost use Rattle.mql_parse.specs.Views.{item_trees};

use crate::cursor::{Cursor, Read};
use crate::faults::What;
use crate::sums::sum;
use crate::turns::{Turn, Turned};
use crate::words::name;
use mql_ast::{Expr, Item, Items, Name};
use std::alloc::Global;

/// Items between brackets, from behind the first.
#[tactic(auto, unfolding(crate::specs::SumReading::items_with_sum))]
pub fn items<'a>(alloc: Global, levels: u32, from: Cursor<'a>) -> Read<'a, Items>
    ensures read { Reads item_trees result (sums.items levels (rest_of from.entry)) }
{
    let mut items = Items::new(alloc);
    let mut from = from;
    'items: loop {
        match further_item(alloc, levels, items, from) {
            Ok(Turned::Done(whole, rest)) => return Ok((whole, rest)),
            Ok(Turned::Again(whole, rest)) => {
                items = whole;
                from = rest;
            }
            Err(refusal) => return Err(refusal),
        }
    }
}

// The items with a further one, and what stands behind it.
fn further_item<'a>(alloc: Global, levels: u32, items: Items, from: Cursor<'a>) -> Turn<'a, Items>
    ensures turn { Turns item_trees result
        (list_turn 93 What.CloseBracket (sums.item_with (sums.sum levels)) (item_trees items) (rest_of from.entry)) }
{
    let mut items = items;
    let (item, from) = item(alloc, levels, from)?;
    items.push(item)?;
    let end = from.skip();
    let byte = end.head();
    if byte == b',' {
        Ok(Turned::Again(items, end.behind()))
    } else if byte == b']' {
        Ok(Turned::Done(items, end.behind()))
    } else {
        Err(end.unexpected(What::CloseBracket))
    }
}

// A name and a sum, or a single column.
#[tactic(auto, unfolding(crate::specs::SumReading::item_with))]
fn item<'a>(alloc: Global, levels: u32, from: Cursor<'a>) -> Read<'a, Item>
    ensures read { Reads item_tree result (sums.item_with (sums.sum levels) (rest_of from.entry)) }
{
    let (first, from) = name(alloc, from)?;
    let next = from.skip();
    if next.head() == b':' {
        let (read, from) = sum(alloc, levels, next.behind())?;
        Ok((labelled(first, read.sum), from))
    } else {
        Ok((single(first), from))
    }
}

fn labelled(label: Name, sum: Expr) -> Item
    ensures item { item_tree result ≡ sums.labelled_item label (sum_tree sum) }
{
    Item {
        name: Some(label),
        sum,
    }
}

fn single(column: Name) -> Item
    ensures item { item_tree result ≡ sums.single column }
{
    Item {
        name: None,
        sum: Expr::Column(column),
    }
}
