// What flows into an alignment: a fetch, less what its filters drop.
ghost use Rattle.std.specs.Prelude.{◌≡◌, ◌++◌, ◌∷◌, [], map, true, IfOk, OnOk};
ghost use Rattle.mon_value.specs.Order.{field_as_value};
ghost use Rattle.typed_trees.specs.Meaning as loads;
ghost use Rattle.typed_trees.specs.Meaning.{is_fetched};
ghost use Rattle.typed_trees.specs.Nodes.{node_tree};
ghost use Rattle.mon_meaning.specs.within.FetchViews.{all_filters_hold, is_fetch_met, IsFetchFound};

use mon_expr::BoundPredicate;
use mon_value::{Cells, FieldValue, OutOfMemory, SeriesKey, Text, TryCopy, Value};
use std::alloc::Global;
use std::marker::Model;
use typed_trees::{Node, names_keys};

/// A fetch with its filters. A filter that names keys alone is tried once for a series; another for each of its points.
#[derive(Drop)]
pub struct Fetch<'a> {
    schema: &'a Text,
    metric: &'a Text,
    of_series: Vec<BoundPredicate>,
    of_points: Vec<BoundPredicate>,
}

impl<'a> Model for Fetch<'a> {
    ghost use Rattle.mon_meaning.specs.within.FetchViews.{FetchView};

    ghost Value = { FetchView };

    ghost view = { λ fetch. record {
      schema = fetch.schema.now;
      metric = fetch.metric.now;
      of_series = fetch.of_series.items;
      of_points = fetch.of_points.items;
    } };
}

impl<'a> Fetch<'a> {
    /// The fetch that points flow from, with the filters on their way; none where rows of a table flow.
    pub fn new(alloc: Global, input: &'a Node) -> Result<Option<Fetch<'a>>, OutOfMemory>
        ensures found { IfOk result (λ found. IsFetchFound (node_tree input.now) found) }
    {
        let mut of_series = Vec::new(alloc);
        let mut of_points = Vec::new(alloc);
        let mut rest = input;
        loop {
            match rest {
                Node::Fetch {
                    info: _,
                    schema,
                    metric,
                } => {
                    return Ok(Some(Fetch {
                        schema,
                        metric,
                        of_series,
                        of_points,
                    }));
                }
                Node::Filter { info, by, input } => {
                    let bound = BoundPredicate::new(alloc, by, &info.columns)?;
                    if names_keys(by, &info.columns) {
                        of_series.push(bound)?;
                    } else {
                        of_points.push(bound)?;
                    }
                    rest = input;
                }
                _ => return Ok(None),
            }
        }
    }

    /// The metric that is fetched.
    pub fn metric(&self) -> &Text
        ensures metric { result.now ≡ self.now.metric }
    {
        self.metric
    }

    /// Whether a series is fetched, and each filter of its fields holds of it.
    pub fn is_met(&self, alloc: Global, key: &SeriesKey) -> Result<bool, OutOfMemory>
        ensures met { IfOk result (λ met. met ≡ is_fetch_met self.now key.now) }
    {
        if !self.names(key) {
            return Ok(false);
        }
        if self.of_series.is_empty() {
            return Ok(true);
        }
        let cells = series_cells(alloc, key)?;
        Ok(self.holds_of_series(&cells))
    }

    // Whether each filter of series holds of the one with these cells.
    fn holds_of_series(&self, cells: &Cells) -> bool
        ensures holds { result ≡ all_filters_hold self.now.of_series cells.now }
    {
        self.of_series.iter().all(|by| by.holds(cells))
    }

    // Whether each filter of points holds of the one with these cells.
    fn holds_of_point(&self, row: &Cells) -> bool
        ensures holds { result ≡ all_filters_hold self.now.of_points row.now }
    {
        self.of_points.iter().all(|by| by.holds(row))
    }

    // Whether a series is of the schema and the metric.
    fn names(&self, key: &SeriesKey) -> bool
        ensures named { result ≡ is_fetched self.now.schema self.now.metric key.now }
    {
        key.target.schema == *self.schema && key.metric == *self.metric
    }

    /// Whether each point of a series is kept that is met.
    pub fn keeps_all(&self) -> bool
        ensures none { result ≡ true → self.now.of_points ≡ [] }
    {
        self.of_points.is_empty()
    }

    /// Whether each filter holds of the point with this value in a series that is met, and the series' cells again.
    pub fn keeps(
        &self,
        alloc: Global,
        cells: Cells,
        value: Value,
    ) -> Result<(bool, Cells), OutOfMemory>
        ensures kept { IfOk result (λ kept. kept.0 ≡ all_filters_hold self.now.of_points (cells ++ value ∷ [])) }
        ensures cells { IfOk result (λ kept. kept.1 ≡ cells) }
    {
        let mut row = cells;
        row.push(value)?;
        let kept = self.holds_of_point(&row);
        let mut cells = row.into_vec();
        let _value = cells.pop();
        Ok((kept, Cells::from_vec(cells)))
    }
}

/// The cells of a series: its target's fields and its metric's.
pub fn series_cells(alloc: Global, key: &SeriesKey) -> Result<Cells, OutOfMemory>
    ensures cells { IfOk result (λ cells. cells ≡ loads.series_cells key.now) }
{
    let of_target = key.target.fields.as_slice();
    let of_metric = key.fields.as_slice();
    let mut cells = Cells::from_vec(Vec::with_capacity(alloc, of_target.len() + of_metric.len())?);
    add_fields(alloc, &mut cells, of_target)?;
    add_fields(alloc, &mut cells, of_metric)?;
    Ok(cells)
}

// Adds fields as cells.
fn add_fields(alloc: Global, cells: &mut Cells, fields: &[FieldValue]) -> Result<(), OutOfMemory>
    ensures added { OnOk result (cells.new ≡ cells.old ++ map field_as_value fields.now) }
{
    for field in fields {
        cells.push(as_value(alloc, field)?)?;
    }
    Ok(())
}

// A field's value as a cell.
fn as_value(alloc: Global, field: &FieldValue) -> Result<Value, OutOfMemory>
    ensures value { IfOk result (λ value. value ≡ field_as_value field.now) }
{
    match field {
        FieldValue::Int(number) => Ok(Value::Int(i128::from(*number))),
        FieldValue::Bool(truth) => Ok(Value::Bool(*truth)),
        FieldValue::Text(text) => Ok(Value::Text(text.copy(alloc)?)),
    }
}
