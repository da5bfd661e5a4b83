// What `group_by` gives: the columns that it lists, as keys, and its aggregates.
ghost use Rattle.std.specs.Prelude.{◌≡◌, ◌++◌, [], IfOk, None, OnOk, Some, map, option_to_list};
ghost use Rattle.typed_trees.specs.Faults.{first_with};
ghost use Rattle.typed_trees.specs.Groupings as spec;
ghost use Rattle.typed_trees.specs.Items.{is_taken, name_texts, reserved_names, taken_faults, with_name, with_names};
ghost use Rattle.typed_trees.specs.Fetches.{unknown_faults};
ghost use Rattle.typed_trees.specs.Faults.{fault_where};
ghost use Rattle.typed_trees.specs.declared.faults.TypeKind.TheVariants.{DuplicateColumn};
ghost use Rattle.typed_trees.specs.FixedColumns.{fixed_columns, meeting_columns, named_in};
ghost use Rattle.typed_trees.specs.Levels.{meeting_level};
ghost use Rattle.typed_trees.specs.Nodes.{columns_of, fixed_of, level_of, node_tree};
ghost use Rattle.std.specs.List.{flat_map};

use crate::fetches::column_number;
use crate::fixed::{named_fixed, push_fixed_columns};
use crate::items::plain_column;
use crate::levels::meeting_level;
use crate::places::{NamedColumns, push_some};
use crate::settings::TypingSetting;
use crate::taken::{Label, Taken};
use mon_value::{
    Aggregate, AggregateKind, Aggregates, Column, Columns, Positions, Shared, TryCopy, ValueType,
};
use mql_ast::{FoldWord, Name};
use std::alloc::{AllocError, Global};
use typed_trees::{Faults, FixedColumns, Level, Node, OF_COUNT, TypeWord, Width};

/// What a `group_by` is made of: the places of its listed columns, its aggregates, its columns and those of them that
/// are fixed, and its level.
#[derive(Drop)]
pub struct Grouping {
    pub places: Positions,
    pub aggregates: Aggregates,
    pub columns: Columns,
    pub fixed: Shared<FixedColumns>,
    pub level: Level,
}

impl Grouping {
    /// The grouping of a table by the names, as far as they are known. Tells what is wrong in it.
    pub fn new(
        setting: TypingSetting<'_>,
        input: &Node,
        names: &[Name],
        aggregates: &[mql_ast::Aggregate],
        found: &mut Faults,
    ) -> Result<Grouping, AllocError>
        ensures places { IfOk result (λ made. made.places
            ≡ spec.listed_places (columns_of (node_tree input.now)) reserved_names names.now) }
        ensures aggregates { IfOk result (λ made. made.aggregates
            ≡ spec.aggregates_over (columns_of (node_tree input.now)) aggregates.now) }
        ensures columns { IfOk result (λ made. made.columns
            ≡ spec.grouped_columns (columns_of (node_tree input.now)) names.now aggregates.now) }
        ensures fixed { IfOk result (λ made. made.fixed
            ≡ named_in (spec.listed_columns (columns_of (node_tree input.now)) names.now) (fixed_of (node_tree input.now))) }
        ensures level { IfOk result (λ made. made.level ≡ meeting_level setting.entry.schemas.now
            (level_of (node_tree input.now)) (meeting_columns
            (spec.listed_places (columns_of (node_tree input.now)) reserved_names names.now) (node_tree input.now))) }
        ensures faults { OnOk result (found.new.first ≡ first_with found.old.first
            (spec.group_faults (columns_of (node_tree input.now)) names.now aggregates.now)) }
    {
        let all = NamedColumns::new(setting.alloc, input.columns())?;
        let made = Grouping::over(setting, input, &all, names, aggregates, found);
        drop(all);
        made
    }

    // The grouping of a table, whose columns are found by their names.
    #[tactic(auto, using(crate::proofs::FaultLemmas::faults))]
    fn over(
        setting: TypingSetting<'_>,
        input: &Node,
        all: &NamedColumns<'_>,
        names: &[Name],
        aggregates: &[mql_ast::Aggregate],
        found: &mut Faults,
    ) -> Result<Grouping, AllocError>
        ensures places { IfOk result (λ made. made.places
            ≡ spec.listed_places all.now reserved_names names.now) }
        ensures aggregates { IfOk result (λ made. made.aggregates ≡ spec.aggregates_over all.now aggregates.now) }
        ensures columns { IfOk result (λ made. made.columns
            ≡ spec.grouped_columns all.now names.now aggregates.now) }
        ensures fixed { IfOk result (λ made. made.fixed
            ≡ named_in (spec.listed_columns all.now names.now) (fixed_of (node_tree input.now))) }
        ensures level { IfOk result (λ made. made.level
            ≡ meeting_level setting.entry.schemas.now (level_of (node_tree input.now))
            (spec.listed_columns all.now names.now ++ fixed_columns all.now (fixed_of (node_tree input.now)))) }
        ensures faults { OnOk result (found.new.first
            ≡ first_with found.old.first (spec.group_faults all.now names.now aggregates.now)) }
    {
        let places = named_places(setting.alloc, all, names, aggregates, found)?;
        tell_listed(all, names, found);
        match key_columns_at(setting.alloc, all.columns(), places.as_slice()) {
            Ok(keys) => Grouping::of_keys(setting, input, all, places, keys, aggregates, found),
            Err(stop) => {
                drop(places);
                Err(stop)
            }
        }
    }

    // The grouping by keys, which stand at some places of a table.
    fn of_keys(
        setting: TypingSetting<'_>,
        input: &Node,
        all: &NamedColumns<'_>,
        places: Positions,
        keys: Columns,
        aggregates: &[mql_ast::Aggregate],
        found: &mut Faults,
    ) -> Result<Grouping, AllocError>
        ensures places { IfOk result (λ made. made.places ≡ places) }
        ensures aggregates { IfOk result (λ made. made.aggregates ≡ spec.aggregates_over all.now aggregates.now) }
        ensures columns { IfOk result (λ made. made.columns ≡ keys ++ spec.aggregate_columns all.now aggregates.now) }
        ensures fixed { IfOk result (λ made. made.fixed ≡ named_in keys (fixed_of (node_tree input.now))) }
        ensures level { IfOk result (λ made. made.level
            ≡ meeting_level setting.entry.schemas.now (level_of (node_tree input.now))
            (keys ++ fixed_columns all.now (fixed_of (node_tree input.now)))) }
        ensures faults { OnOk result (found.new.first ≡ first_with found.old.first
            (flat_map (spec.aggregate_faults all.now) aggregates.now)) }
    {
        match Meeting::new(setting, input, all, keys.as_slice()) {
            Ok(meeting) => Grouping::met(
                setting.alloc,
                meeting,
                all,
                places,
                keys,
                aggregates,
                found,
            ),
            Err(stop) => {
                drop(keys);
                drop(places);
                Err(stop)
            }
        }
    }

    // The grouping by keys, of which it is known where rows meet that agree in them.
    fn met(
        alloc: Global,
        meeting: Meeting,
        all: &NamedColumns<'_>,
        places: Positions,
        keys: Columns,
        aggregates: &[mql_ast::Aggregate],
        found: &mut Faults,
    ) -> Result<Grouping, AllocError>
        ensures places { IfOk result (λ made. made.places ≡ places) }
        ensures aggregates { IfOk result (λ made. made.aggregates ≡ spec.aggregates_over all.now aggregates.now) }
        ensures columns { IfOk result (λ made. made.columns ≡ keys ++ spec.aggregate_columns all.now aggregates.now) }
        ensures fixed { IfOk result (λ made. made.fixed ≡ meeting.fixed) }
        ensures level { IfOk result (λ made. made.level ≡ meeting.level) }
        ensures faults { OnOk result (found.new.first ≡ first_with found.old.first
            (flat_map (spec.aggregate_faults all.now) aggregates.now)) }
    {
        let mut columns = keys;
        match push_folds(alloc, all, aggregates, &mut columns, found) {
            Ok(aggregates) => Ok(Grouping {
                places,
                aggregates,
                columns,
                fixed: meeting.fixed,
                level: meeting.level,
            }),
            Err(stop) => {
                drop(columns);
                drop(places);
                drop(meeting);
                Err(stop)
            }
        }
    }
}

// Which keys are fixed, and the level at which the rows of a group meet: those that agree in the keys, and in what is
// fixed anyway.
#[derive(Drop)]
struct Meeting {
    fixed: Shared<FixedColumns>,
    level: Level,
}

impl Meeting {
    fn new(
        setting: TypingSetting<'_>,
        input: &Node,
        all: &NamedColumns<'_>,
        keys: &[Shared<Column>],
    ) -> Result<Meeting, AllocError>
        ensures fixed { IfOk result (λ made. made.fixed ≡ named_in keys.now (fixed_of (node_tree input.now))) }
        ensures level { IfOk result (λ made. made.level
            ≡ meeting_level setting.entry.schemas.now (level_of (node_tree input.now))
            (keys.now ++ fixed_columns all.now (fixed_of (node_tree input.now)))) }
    {
        let level = group_level(setting, input, all, keys)?;
        let fixed = named_fixed(setting.alloc, keys, input.fixed())?;
        Ok(Meeting { fixed, level })
    }
}

// The level at which rows meet that agree in some keys, and in what is fixed anyway.
fn group_level(
    setting: TypingSetting<'_>,
    input: &Node,
    all: &NamedColumns<'_>,
    keys: &[Shared<Column>],
) -> Result<Level, AllocError>
    ensures level { IfOk result (λ level. level
        ≡ meeting_level setting.entry.schemas.now (level_of (node_tree input.now))
        (keys.now ++ fixed_columns all.now (fixed_of (node_tree input.now)))) }
{
    let mut columns = copied_columns(setting.alloc, keys)?;
    push_fixed_columns(
        setting.alloc,
        all.columns(),
        input.fixed().as_slice(),
        &mut columns,
    )?;
    Ok(meeting_level(setting.schemas, input.info().level, columns.as_slice()))
}

// The same columns, which are shared.
fn copied_columns(alloc: Global, columns: &[Shared<Column>]) -> Result<Columns, AllocError>
    ensures copied { IfOk result (λ copied. copied ≡ columns.now) }
{
    let mut copied = Columns::new(alloc);
    for column in columns {
        copied.push(column.copy(alloc)?)?;
    }
    Ok(copied)
}

// The places of the listed columns, each once. Tells the names that columns are given twice.
fn named_places(
    alloc: Global,
    columns: &NamedColumns<'_>,
    names: &[Name],
    aggregates: &[mql_ast::Aggregate],
    found: &mut Faults,
) -> Result<Positions, AllocError>
    ensures places { IfOk result (λ places. places ≡ spec.listed_places columns.now reserved_names names.now) }
    ensures faults { OnOk result (found.new.first ≡ first_with found.old.first
        (taken_faults reserved_names (names.now ++ map spec.aggregate_name aggregates.now))) }
{
    let mut taken = Taken::new(alloc)?;
    let places = taken_places(alloc, columns, names, aggregates, &mut taken, found);
    drop(taken);
    places
}

// The places of the listed columns, each once. Takes the names that columns are given, and tells those that were taken.
#[tactic(auto, using(crate::proofs::TakenLemmas::taken_names))]
fn taken_places<'a>(
    alloc: Global,
    columns: &NamedColumns<'_>,
    names: &'a [Name],
    aggregates: &'a [mql_ast::Aggregate],
    taken: &mut Taken<'a>,
    found: &mut Faults,
) -> Result<Positions, AllocError>
    ensures places { IfOk result (λ places. places ≡ spec.listed_places columns.now taken.old names.now) }
    ensures faults { OnOk result (found.new.first ≡ first_with found.old.first
        (taken_faults taken.old (names.now ++ map spec.aggregate_name aggregates.now))) }
{
    let places = listed_places(alloc, columns, names, taken, found)?;
    match tell_names(aggregates, taken, found) {
        Ok(()) => Ok(places),
        Err(stop) => {
            drop(places);
            Err(stop)
        }
    }
}

// The places of the listed columns, each once. Takes the names, and tells those that were taken.
#[tactic(auto, using(crate::proofs::TakenLemmas::taken_names))]
fn listed_places<'a>(
    alloc: Global,
    columns: &NamedColumns<'_>,
    names: &'a [Name],
    taken: &mut Taken<'a>,
    found: &mut Faults,
) -> Result<Positions, AllocError>
    ensures places { IfOk result (λ places. places ≡ spec.listed_places columns.now taken.old names.now) }
    ensures taken { OnOk result (taken.new ≡ with_names taken.old (name_texts names.now)) }
    ensures faults { OnOk result (found.new.first
        ≡ first_with found.old.first (taken_faults taken.old names.now)) }
{
    let mut places = Positions::new(alloc);
    for name in names {
        let place = new_place(columns, name, taken, found)?;
        push_some(&mut places, place)?;
    }
    Ok(places)
}

// The place of a name that stands for the first time.
fn new_place<'a>(
    columns: &NamedColumns<'_>,
    name: &'a Name,
    taken: &mut Taken<'a>,
    found: &mut Faults,
) -> Result<Option<u32>, AllocError>
    ensures place { IfOk result (λ place. place ≡ spec.new_place columns.now taken.old name.now.text) }
    ensures taken { OnOk result (taken.new ≡ with_name taken.old name.now.text) }
    ensures faults { OnOk result (found.new.first ≡ first_with found.old.first
        (fault_where (is_taken name.now.text taken.old) name.now.at DuplicateColumn)) }
{
    if taken.tell(Label::of(name), found)? {
        return Ok(None);
    }
    match columns.place(&name.text) {
        Some(place) => Ok(Some(column_number(place)?)),
        None => Ok(None),
    }
}

// Takes the names that aggregates give, and tells those that were taken.
#[tactic(auto, using(crate::proofs::TakenLemmas::taken_names))]
fn tell_names<'a>(
    aggregates: &'a [mql_ast::Aggregate],
    taken: &mut Taken<'a>,
    found: &mut Faults,
) -> Result<(), AllocError>
    ensures faults { OnOk result (found.new.first ≡ first_with found.old.first
        (taken_faults taken.old (map spec.aggregate_name aggregates.now))) }
{
    for aggregate in aggregates {
        taken.tell(label_of(aggregate), found)?;
    }
    Ok(())
}

// Tells listed names of no column.
#[tactic(auto, using(crate::proofs::FaultLemmas::faults))]
fn tell_listed(columns: &NamedColumns<'_>, names: &[Name], found: &mut Faults)
    ensures faults { found.new.first
        ≡ first_with found.old.first (flat_map (unknown_faults columns.now) names.now) }
{
    for name in names {
        columns.known(name, found);
    }
}

// The columns at some places, as keys.
#[tactic(auto, using(crate::proofs::ListedLemmas::listed_items))]
fn key_columns_at(
    alloc: Global,
    columns: &[Shared<Column>],
    places: &[u32],
) -> Result<Columns, AllocError>
    ensures keys { IfOk result (λ keys. keys ≡ spec.key_columns_at columns.now places.now) }
{
    let mut keys = Columns::new(alloc);
    for place in places {
        let key = key_at(alloc, columns, *place)?;
        push_some(&mut keys, key)?;
    }
    Ok(keys)
}

// The column at a place, as a key.
fn key_at(
    alloc: Global,
    columns: &[Shared<Column>],
    place: u32,
) -> Result<Option<Shared<Column>>, AllocError>
    ensures key { IfOk result (λ key. key ≡ spec.key_at columns.now place) }
{
    match columns.get(place as usize) {
        Some(column) => Ok(Some(as_key(alloc, column)?)),
        None => Ok(None),
    }
}

// A column as a key, which is shared where it is one.
fn as_key(alloc: Global, column: &Shared<Column>) -> Result<Shared<Column>, AllocError>
    ensures key { IfOk result (λ key. key ≡ spec.as_key column.now) }
{
    if column.key {
        return column.copy(alloc);
    }
    let mut key = (**column).copy(alloc)?;
    key.key = true;
    Shared::new(alloc, key)
}

// What the aggregates make, where their columns are known. Adds the columns that they give, and tells those that don't
// take their columns.
#[tactic(auto, using(crate::proofs::ItemLemmas::item_steps))]
fn push_folds(
    alloc: Global,
    columns: &NamedColumns<'_>,
    aggregates: &[mql_ast::Aggregate],
    given: &mut Columns,
    found: &mut Faults,
) -> Result<Aggregates, AllocError>
    ensures made { IfOk result (λ made. made ≡ spec.aggregates_over columns.now aggregates.now) }
    ensures given { OnOk result (given.new ≡ given.old ++ spec.aggregate_columns columns.now aggregates.now) }
    ensures faults { OnOk result (found.new.first ≡ first_with found.old.first
        (flat_map (spec.aggregate_faults columns.now) aggregates.now)) }
{
    let mut made = Aggregates::new(alloc);
    for aggregate in aggregates {
        push_fold(alloc, columns, aggregate, &mut made, given, found)?;
    }
    Ok(made)
}

// Adds what an aggregate makes and the column that it gives, where its column is known. Tells one that doesn't take its
// column.
fn push_fold(
    alloc: Global,
    columns: &NamedColumns<'_>,
    aggregate: &mql_ast::Aggregate,
    made: &mut Aggregates,
    given: &mut Columns,
    found: &mut Faults,
) -> Result<(), AllocError>
    ensures made { OnOk result (made.new ≡ made.old ++ option_to_list (spec.aggregate_of columns.now aggregate.now)) }
    ensures given { OnOk result (given.new ≡ given.old ++ option_to_list (spec.aggregated_column columns.now aggregate.now)) }
    ensures faults { OnOk result (found.new.first
        ≡ first_with found.old.first (spec.aggregate_faults columns.now aggregate.now)) }
{
    match &aggregate.column {
        Some(source) => push_known(alloc, columns, aggregate, source, made, given, found),
        None => push_count(alloc, label_of(aggregate).text, made, given),
    }
}

// Adds a count and its column.
fn push_count(
    alloc: Global,
    name: &str,
    made: &mut Aggregates,
    given: &mut Columns,
) -> Result<(), AllocError>
    ensures made { OnOk result (made.new
        ≡ made.old ++ option_to_list (spec.aggregate_over [] FoldWord.Count None)) }
    ensures given { OnOk result (given.new
        ≡ given.old ++ option_to_list (spec.aggregate_column [] name.now FoldWord.Count None)) }
{
    made.push(Aggregate {
        what: AggregateKind::Count,
        column: 0,
    })?;
    given.push(plain_column(alloc, name, ValueType::Int, OF_COUNT)?)
}

// Adds what an aggregate makes of the column of a name and the column that it gives, where the name is known. Tells a
// name of no column, or of one that the aggregate doesn't take.
fn push_known(
    alloc: Global,
    columns: &NamedColumns<'_>,
    aggregate: &mql_ast::Aggregate,
    source: &Name,
    made: &mut Aggregates,
    given: &mut Columns,
    found: &mut Faults,
) -> Result<(), AllocError>
    ensures made { OnOk result (made.new
        ≡ made.old ++ option_to_list (spec.aggregate_over columns.now aggregate.now.fold (Some source.now))) }
    ensures given { OnOk result (given.new ≡ given.old ++ option_to_list (spec.aggregate_column columns.now
        (spec.aggregate_name aggregate.now).text aggregate.now.fold (Some source.now))) }
    ensures faults { OnOk result (found.new.first
        ≡ first_with found.old.first (spec.folded_faults columns.now aggregate.now.fold (Some source.now))) }
{
    let Some(column) = columns.known(source, found) else {
        return Ok(());
    };
    let Some(place) = columns.place(&source.text) else {
        return Ok(());
    };
    let fold = aggregate.fold;
    let takes = fold_takes(fold, &column.of);
    found.tell_unlike(takes, source.at, &column.of, wanted_word(fold));
    made.push(Aggregate {
        what: fold_kind(fold, &column.of),
        column: column_number(place)?,
    })?;
    given.push(folded_column(alloc, label_of(aggregate).text, fold, column)?)
}

// The column that an aggregate gives of a column.
fn folded_column(
    alloc: Global,
    name: &str,
    fold: FoldWord,
    column: &Column,
) -> Result<Shared<Column>, AllocError>
    ensures folded { IfOk result (λ folded. folded ≡ spec.folded_column name.now fold column.now) }
{
    let width = fold_width(fold, Width::of(column));
    plain_column(alloc, name, column.of.copy(alloc)?, width)
}

// The name of the column that an aggregate gives, and where it stands.
fn label_of(aggregate: &mql_ast::Aggregate) -> Label<'_>
    ensures text { result.text.now ≡ (spec.aggregate_name aggregate.now).text }
    ensures at { result.at ≡ (spec.aggregate_name aggregate.now).at }
{
    match &aggregate.name {
        Some(name) => Label::of(name),
        None => match &aggregate.column {
            Some(name) => Label::of(name),
            None => Label {
                text: "count",
                at: aggregate.at,
            },
        },
    }
}

fn fold_takes(fold: FoldWord, of: &ValueType) -> bool
    ensures takes { result ≡ spec.fold_takes fold of.now }
{
    match fold {
        FoldWord::Count => true,
        FoldWord::Merge => matches!(of, ValueType::Dist(_)),
        FoldWord::Aggregate => matches!(of, ValueType::Int | ValueType::Dist(_)),
        FoldWord::Sum | FoldWord::Min | FoldWord::Max | FoldWord::Mean => {
            matches!(of, ValueType::Int)
        }
    }
}

fn wanted_word(fold: FoldWord) -> TypeWord
    ensures word { result ≡ spec.wanted_word fold }
{
    match fold {
        FoldWord::Merge => TypeWord::Dist,
        _ => TypeWord::Int,
    }
}

fn fold_kind(fold: FoldWord, of: &ValueType) -> AggregateKind
    ensures kind { result ≡ spec.fold_kind fold of.now }
{
    match fold {
        FoldWord::Count => AggregateKind::Count,
        FoldWord::Sum => AggregateKind::Sum,
        FoldWord::Min => AggregateKind::Min,
        FoldWord::Max => AggregateKind::Max,
        FoldWord::Mean => AggregateKind::Mean,
        FoldWord::Merge => AggregateKind::Merge,
        FoldWord::Aggregate => match of {
            ValueType::Dist(_) => AggregateKind::Merge,
            _ => AggregateKind::Sum,
        },
    }
}

fn fold_width(fold: FoldWord, width: Width) -> Width
    ensures width { result ≡ spec.fold_width fold width }
{
    match fold {
        FoldWord::Count => OF_COUNT,
        FoldWord::Sum | FoldWord::Merge | FoldWord::Aggregate => width.summed(),
        FoldWord::Min | FoldWord::Max | FoldWord::Mean => width,
    }
}
