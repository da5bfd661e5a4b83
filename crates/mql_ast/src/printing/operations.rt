// Operations.
ghost use Rattle.std.specs.Prelude.{◌≡◌, ◌++◌, OnOk, string_bytes, map};
ghost use Rattle.mql_ast.specs.Printed.{deed_text, ops_text};
ghost use Rattle.mql_ast.specs.Trees as DeedTree;
ghost use Rattle.mql_ast.specs.Trees.{deed_tree, op_tree, item_tree};

use crate::names::Name;
use crate::operations::{Aggregate, Item, Op, OpKind};
use crate::printing::lists::print_list;
use crate::printing::predicates::print_predicate;
use crate::printing::words::{push_aligner, push_duration, push_number};
use std::alloc::AllocError;

/// Operations, each behind a bar.
pub fn print_ops(out: &mut String, ops: &[Op]) -> Result<(), AllocError>
    ensures text { OnOk result (string_bytes out.new ≡ string_bytes out.old ++ ops_text (map op_tree ops.now)) }
{
    for op in ops {
        out.push_str(" | ")?;
        print_op(out, &op.what)?;
    }
    Ok(())
}

fn print_op(out: &mut String, what: &OpKind) -> Result<(), AllocError>
    ensures text { OnOk result (string_bytes out.new ≡ string_bytes out.old ++ deed_text (deed_tree what.now)) }
{
    match what {
        OpKind::Filter(predicate) => {
            out.push_str("filter ")?;
            print_predicate(out, predicate)
        }
        OpKind::Align(by) => {
            out.push_str("align ")?;
            push_aligner(out, *by)
        }
        OpKind::GroupBy(names, aggregates) => {
            print_group_by(out, names.as_slice(), aggregates.as_slice())
        }
        OpKind::Value(items) => print_value(out, items.as_slice()),
        OpKind::Top(n, column) => print_top(out, *n, column),
        OpKind::Every(seconds) => {
            out.push_str("every ")?;
            push_duration(out, *seconds)
        }
        OpKind::Within(seconds) => {
            out.push_str("within ")?;
            push_duration(out, *seconds)
        }
    }
}

fn print_group_by(
    out: &mut String,
    names: &[Name],
    aggregates: &[Aggregate],
) -> Result<(), AllocError>
    ensures text { OnOk result (string_bytes out.new
        ≡ string_bytes out.old ++ deed_text (DeedTree.GroupBy names.now aggregates.now)) }
{
    out.push_str("group_by [")?;
    print_list(out, names)?;
    out.push_str("], ")?;
    print_list(out, aggregates)
}

fn print_value(out: &mut String, items: &[Item]) -> Result<(), AllocError>
    ensures text { OnOk result (string_bytes out.new
        ≡ string_bytes out.old ++ deed_text (DeedTree.Value (map item_tree items.now))) }
{
    out.push_str("value [")?;
    print_list(out, items)?;
    out.push_str("]")
}

fn print_top(out: &mut String, n: u32, column: &Name) -> Result<(), AllocError>
    ensures text { OnOk result (string_bytes out.new
        ≡ string_bytes out.old ++ deed_text (DeedTree.Top n column.now)) }
{
    out.push_str("top ")?;
    push_number(out, n)?;
    out.push_str(", ")?;
    out.push_str(column.text.as_str())
}
