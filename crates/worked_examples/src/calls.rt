// Public calls that the program `mon` has no use for, each made once.
ghost use Rattle.std.specs.Prelude.{◌≡◌, [], IfOk};

use leaf_store::LeafState;
use mon_expr::matches;
use mon_fold::{MaxFold, fold_pieces};
use mon_hints::hints_of;
use mon_schema::Schemas;
use mon_table::{sorted, union};
use mon_value::{
    Cells, Columns, Entry, Field, FieldType, FieldValue, FieldValues, Fields, Kind, Leaf, ListOf,
    MetricSchema, OutOfMemory, SeriesKey, Table, Target, TargetSchema, Text, TimedRow, TimedRows,
    ValueType,
};
use mql_ast::{OpKind, Pattern, Predicate, Query, print_query};
use mql_parse::parse;
use plan_split::formula_of;
use std::alloc::Global;

/// So many buckets there are.
const BUCKETS: u32 = 1_024;

/// The buckets of a series of `T` and `/m`, with the texts `a` and `e`.
pub(crate) fn hints(alloc: Global) -> Result<bool, OutOfMemory> {
    let key = key(alloc)?;
    let target = TargetSchema {
        name: Text::from_str(alloc, "T")?,
        fields: fields(alloc)?,
    };
    let metric = metric(alloc)?;
    let listed = hints_of(alloc, &key, &target, &metric, BUCKETS)?;
    Ok(listed.as_slice() == [41, 192, 343, 345, 803, 872, 1022].as_slice())
}

pub(crate) fn key(alloc: Global) -> Result<SeriesKey, OutOfMemory> {
    let mut fields = FieldValues::new(alloc);
    for text in ["a", "e"] {
        fields.push(FieldValue::Text(Text::from_str(alloc, text)?))?;
    }
    Ok(SeriesKey {
        target: Target {
            schema: Text::from_str(alloc, "T")?,
            fields,
        },
        metric: Text::from_str(alloc, "/m")?,
        fields: FieldValues::new(alloc),
    })
}

pub(crate) fn fields(alloc: Global) -> Result<Fields, OutOfMemory> {
    let mut fields = Fields::new(alloc);
    for (name, location) in [("u", false), ("z", true)] {
        fields.push(Field {
            name: Text::from_str(alloc, name)?,
            of: FieldType::Text,
            location,
        })?;
    }
    Ok(fields)
}

pub(crate) fn metric(alloc: Global) -> Result<MetricSchema, OutOfMemory> {
    Ok(MetricSchema {
        name: Text::from_str(alloc, "/m")?,
        kind: Kind::Gauge,
        value: ValueType::Int,
        column: Text::from_str(alloc, "v")?,
        fields: Fields::new(alloc),
    })
}

/// The pattern `mixer.*` on a text that it begins, and on one that it stands within.
pub(crate) fn pattern(alloc: Global) -> Result<bool, OutOfMemory> {
    let mut pieces = ListOf::new(alloc);
    for piece in ["mixer", ""] {
        pieces.push(Text::from_str(alloc, piece)?)?;
    }
    let pattern = Pattern { at: 0, pieces };
    Ok(matches(&pattern, b"mixer.zone") & !matches(&pattern, b"remixer"))
}

/// A query's canonical text.
pub(crate) fn query(alloc: Global) -> Result<bool, OutOfMemory> {
    match parse(alloc, b"fetch T::/m|filter (u==\"a\")") {
        Ok(query) => {
            let text = print_query(alloc, &query)?;
            drop(query);
            Ok(text.as_bytes() == b"fetch T::/m | filter u == \"a\"".as_slice())
        }
        Err(_refusal) => Ok(false),
    }
}

/// The buckets that a filter wants.
pub(crate) fn formula(alloc: Global) -> Result<bool, OutOfMemory> {
    match parse(alloc, b"fetch T::/m | filter u==\"a\"") {
        Ok(query) => {
            let wanted = wants(alloc, &query);
            drop(query);
            wanted
        }
        Err(_refusal) => Ok(false),
    }
}

fn wants(alloc: Global, query: &Query) -> Result<bool, OutOfMemory> {
    let Some(predicate) = filter_of(query) else {
        return Ok(false);
    };
    let formula = formula_of(alloc, predicate, b"T", BUCKETS)?;
    let buckets = formula.buckets(alloc);
    drop(formula);
    Ok(buckets?.as_slice() == [192, 343, 345].as_slice())
}

// The predicate of the query's only operation, where that is a filter.
fn filter_of(query: &Query) -> Option<&Predicate> {
    match &query.pipe.ops.first()?.what {
        OpKind::Filter(predicate) => Some(predicate),
        _ => None,
    }
}

/// The greatest of numbers that lie in pieces, one of which is empty.
pub(crate) fn fold(alloc: Global) -> Result<bool, OutOfMemory> {
    let mut pieces = Vec::new(alloc);
    for numbers in [[-7i128].as_slice(), [].as_slice(), [3, 2].as_slice()] {
        let mut piece = ListOf::new(alloc);
        for number in numbers {
            piece.push(*number)?;
        }
        pieces.push(piece)?;
    }
    let greatest = fold_pieces(alloc, &MaxFold, pieces.as_slice())?;
    Ok(greatest == Some(3))
}

/// A new leaf may go down, and cannot come up.
pub(crate) fn entry(alloc: Global) -> Result<bool, OutOfMemory> {
    let schemas = Schemas::new(alloc);
    let leaf = LeafState::new(alloc, Leaf(0), BUCKETS, &schemas)?;
    let down = leaf.may_follow(&Entry::Down { pass: 0 });
    let up = leaf.may_follow(&Entry::Up { pass: 0 });
    Ok(down & !up)
}

/// Two tables of a row, united and sorted.
pub(crate) fn tables(alloc: Global) -> Result<bool, OutOfMemory> {
    let late = table(alloc, 20)?;
    let early = table(alloc, 10)?;
    let both = sorted(union(alloc, late, early)?);
    let held = match both.rows.as_slice() {
        [first, second] => (first.time == 10) & (second.time == 20),
        _ => false,
    };
    drop(both);
    Ok(held)
}

// A table without columns, with a row at a time.
fn table(alloc: Global, time: i64) -> Result<Table, OutOfMemory>
    ensures columns { IfOk result (λ table. table.columns ≡ []) }
{
    let mut rows = TimedRows::new(alloc);
    rows.push(TimedRow {
        time,
        cells: Cells::new(alloc),
    })?;
    Ok(Table {
        columns: Columns::new(alloc),
        rows,
    })
}
