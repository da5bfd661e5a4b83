// What a join and a union of two tables give.
ghost use Rattle.std.specs.Prelude.{◌≡◌, ◌++◌, ◌∷◌, [], IfOk, OnOk, Some, map, option_to_list};
ghost use Rattle.std.specs.List.{flat_map, list_any};
ghost use Rattle.mon_value.specs.Tables as join;
ghost use Rattle.mql_ast.specs.Rows as named;
ghost use Rattle.typed_trees.specs.Branches as spec;
ghost use Rattle.typed_trees.specs.Faults.{first_with};

use crate::levels::{common_anchor, keeps_anchor};
use crate::places::NamedColumns;
use crate::settings::TypingSetting;
use mon_value::{Column, Columns, Shared, TryCopy, ValueType};
use std::alloc::{AllocError, Global};
use typed_trees::{Faults, TypeKind, Width, type_word};

/// The columns of a join: the left's, and then those of the right's that have a name of their own. Beside them the left
/// columns whose names the right has too, in which the rows of a pair agree.
#[derive(Drop)]
pub struct Joined {
    pub columns: Columns,
    pub common: Columns,
}

impl Joined {
    /// The columns of the join of two tables. Tells tables that have no common column, and common columns of two types.
    pub fn new(
        setting: TypingSetting<'_>,
        at: u32,
        lefts: &[Shared<Column>],
        rights: &[Shared<Column>],
        found: &mut Faults,
    ) -> Result<Joined, AllocError>
        ensures columns { IfOk result (λ made. made.columns
            ≡ spec.join_columns setting.entry.schemas.now lefts.now rights.now) }
        ensures common { IfOk result (λ made. made.common
            ≡ spec.common_columns setting.entry.schemas.now lefts.now rights.now) }
        ensures faults { OnOk result (found.new.first
            ≡ first_with found.old.first (spec.pair_faults at lefts.now rights.now)) }
    {
        let left_names = NamedColumns::new(setting.alloc, lefts)?;
        match NamedColumns::new(setting.alloc, rights) {
            Ok(right_names) => {
                let made = Joined::over(setting, at, &left_names, &right_names, found);
                drop(right_names);
                drop(left_names);
                made
            }
            Err(stop) => {
                drop(left_names);
                Err(stop)
            }
        }
    }

    // The columns of the join of two tables, whose columns are found by their names.
    #[tactic(auto, using(crate::proofs::FaultLemmas::faults))]
    fn over(
        setting: TypingSetting<'_>,
        at: u32,
        lefts: &NamedColumns<'_>,
        rights: &NamedColumns<'_>,
        found: &mut Faults,
    ) -> Result<Joined, AllocError>
        ensures columns { IfOk result (λ made. made.columns
            ≡ spec.join_columns setting.entry.schemas.now lefts.now rights.now) }
        ensures common { IfOk result (λ made. made.common
            ≡ spec.common_columns setting.entry.schemas.now lefts.now rights.now) }
        ensures faults { OnOk result (found.new.first
            ≡ first_with found.old.first (spec.pair_faults at lefts.now rights.now)) }
    {
        found.tell_where(
            !have_common(lefts.columns(), rights),
            at,
            TypeKind::BranchColumns,
        );
        let mut joined = Joined {
            columns: room_for(setting.alloc, lefts.columns().len(), rights.columns().len())?,
            common: Columns::new(setting.alloc),
        };
        match joined.push_both(setting, at, lefts, rights, found) {
            Ok(()) => Ok(joined),
            Err(stop) => {
                drop(joined);
                Err(stop)
            }
        }
    }

    // Adds the columns of both tables.
    fn push_both(
        &mut self,
        setting: TypingSetting<'_>,
        at: u32,
        lefts: &NamedColumns<'_>,
        rights: &NamedColumns<'_>,
        found: &mut Faults,
    ) -> Result<(), AllocError>
        ensures columns { OnOk result (self.new.columns
            ≡ self.old.columns ++ spec.join_columns setting.entry.schemas.now lefts.now rights.now) }
        ensures common { OnOk result (self.new.common
            ≡ self.old.common ++ spec.common_columns setting.entry.schemas.now lefts.now rights.now) }
        ensures faults { OnOk result (found.new.first ≡ first_with found.old.first (flat_map
            (λ column. spec.mismatch_faults at column (named.column_named column.name rights.now)) lefts.now)) }
    {
        self.push_lefts(setting, at, lefts.columns(), rights, found)?;
        push_rights(setting.alloc, lefts, rights.columns(), &mut self.columns)
    }

    // Adds the left columns.
    #[tactic(auto, using(crate::proofs::ItemLemmas::item_steps))]
    fn push_lefts(
        &mut self,
        setting: TypingSetting<'_>,
        at: u32,
        lefts: &[Shared<Column>],
        rights: &NamedColumns<'_>,
        found: &mut Faults,
    ) -> Result<(), AllocError>
        ensures columns { OnOk result (self.new.columns
            ≡ self.old.columns ++ map (spec.left_column setting.entry.schemas.now rights.now) lefts.now) }
        ensures common { OnOk result (self.new.common
            ≡ self.old.common ++ spec.common_columns setting.entry.schemas.now lefts.now rights.now) }
        ensures faults { OnOk result (found.new.first ≡ first_with found.old.first (flat_map
            (λ column. spec.mismatch_faults at column (named.column_named column.name rights.now)) lefts.now)) }
    {
        for left in lefts {
            self.push_left(setting, at, left, rights, found)?;
        }
        Ok(())
    }

    // Adds a left column, anchored to what the right's of its name is anchored to as well.
    fn push_left(
        &mut self,
        setting: TypingSetting<'_>,
        at: u32,
        left: &Shared<Column>,
        rights: &NamedColumns<'_>,
        found: &mut Faults,
    ) -> Result<(), AllocError>
        ensures columns { OnOk result (self.new.columns
            ≡ self.old.columns ++ spec.left_column setting.entry.schemas.now rights.now left.now ∷ []) }
        ensures common { OnOk result (self.new.common
            ≡ self.old.common ++ option_to_list (spec.common_column setting.entry.schemas.now rights.now left.now)) }
        ensures faults { OnOk result (found.new.first ≡ first_with found.old.first
            (spec.mismatch_faults at left.now (named.column_named left.now.name rights.now))) }
    {
        match rights.get(&left.name) {
            Some(right) => self.push_common(setting, at, left, right, found),
            None => push_joined(setting.alloc, left, &mut self.columns),
        }
    }

    // Adds a left column whose name a right one has too, anchored to what either is. Tells columns of two types.
    fn push_common(
        &mut self,
        setting: TypingSetting<'_>,
        at: u32,
        left: &Shared<Column>,
        right: &Column,
        found: &mut Faults,
    ) -> Result<(), AllocError>
        ensures columns { OnOk result (self.new.columns ≡ self.old.columns
            ++ spec.as_joined (spec.anchored_with setting.entry.schemas.now left.now right.now) ∷ []) }
        ensures common { OnOk result (self.new.common ≡ self.old.common
            ++ spec.anchored_with setting.entry.schemas.now left.now right.now ∷ []) }
        ensures faults { OnOk result (found.new.first ≡ first_with found.old.first
            (spec.mismatch_faults at left.now (Some right.now))) }
    {
        let same = same_type(&left.of, &right.of);
        found.tell_unlike(same, at, &left.of, type_word(&right.of));
        let common = anchored_with(setting, left, right)?;
        match push_joined(setting.alloc, &common, &mut self.columns) {
            Ok(()) => self.common.push(common),
            Err(stop) => {
                drop(common);
                Err(stop)
            }
        }
    }
}

// Adds a column as a join has it.
fn push_joined(
    alloc: Global,
    column: &Shared<Column>,
    columns: &mut Columns,
) -> Result<(), AllocError>
    ensures added { OnOk result (columns.new ≡ columns.old ++ spec.as_joined column.now ∷ []) }
{
    let joined = with_width(alloc, column, Width::of(column).joined())?;
    columns.push(joined)
}

// Adds the right columns that have a name of their own.
#[tactic(auto, using(crate::proofs::ListedLemmas::right_columns_more))]
fn push_rights(
    alloc: Global,
    lefts: &NamedColumns<'_>,
    rights: &[Shared<Column>],
    columns: &mut Columns,
) -> Result<(), AllocError>
    ensures added { OnOk result (columns.new
        ≡ columns.old ++ map spec.as_joined (join.right_columns lefts.now rights.now)) }
{
    for right in rights {
        push_own(alloc, lefts, right, columns)?;
    }
    Ok(())
}

// Adds a right column that has a name of its own.
fn push_own(
    alloc: Global,
    lefts: &NamedColumns<'_>,
    right: &Shared<Column>,
    columns: &mut Columns,
) -> Result<(), AllocError>
    ensures added { OnOk result (columns.new
        ≡ columns.old ++ map spec.as_joined (join.right_columns lefts.now (right.now ∷ []))) }
{
    if lefts.has(&right.name) {
        return Ok(());
    }
    push_joined(alloc, right, columns)
}

/// A column with a width, which is shared where it has that width.
pub fn with_width(
    alloc: Global,
    column: &Shared<Column>,
    width: Width,
) -> Result<Shared<Column>, AllocError>
    ensures column { IfOk result (λ made. made ≡ spec.with_width width column.now) }
{
    if width.is_of(column) {
        return column.copy(alloc);
    }
    let mut made = (**column).copy(alloc)?;
    made.cell_bits = width.cell;
    made.total_bits = width.total;
    Shared::new(alloc, made)
}

// A column, anchored to what another that holds the same is anchored to as well. It is shared where it stays.
fn anchored_with(
    setting: TypingSetting<'_>,
    column: &Shared<Column>,
    other: &Column,
) -> Result<Shared<Column>, AllocError>
    ensures column { IfOk result (λ made. made ≡ spec.anchored_with setting.entry.schemas.now column.now other.now) }
{
    if keeps_anchor(setting.schemas, &column.anchor, &other.anchor) {
        return column.copy(setting.alloc);
    }
    let mut made = (**column).copy(setting.alloc)?;
    made.anchor = common_anchor(setting, &column.anchor, &other.anchor)?;
    Shared::new(setting.alloc, made)
}

// No columns, with room for those of both tables: a chain of joins has a list of handles at each of its nodes.
fn room_for(alloc: Global, lefts: usize, rights: usize) -> Result<Columns, AllocError>
    ensures none { IfOk result (λ columns. columns ≡ []) }
{
    Ok(Columns::from_vec(Vec::with_capacity(alloc, lefts.saturating_add(rights))?))
}

// Whether some name is common.
fn have_common(lefts: &[Shared<Column>], rights: &NamedColumns<'_>) -> bool
    ensures had { result ≡ list_any (λ column. join.has_name column.name rights.now) lefts.now }
{
    lefts.iter().any(|left| rights.has(&left.name))
}

/// The columns of a union: the left's, each as wide as the rows of both may be.
pub fn union_columns(
    setting: TypingSetting<'_>,
    lefts: &[Shared<Column>],
    rights: &[Shared<Column>],
) -> Result<Columns, AllocError>
    ensures columns { IfOk result (λ columns. columns
        ≡ spec.union_columns setting.entry.schemas.now lefts.now rights.now) }
{
    let mut columns = Columns::new(setting.alloc);
    let mut rest = rights;
    for left in lefts {
        let Some((right, others)) = rest.split_first() else {
            return Ok(columns);
        };
        columns.push(united_column(setting, left, right)?)?;
        rest = others;
    }
    Ok(columns)
}

// A left column over the rows of both.
fn united_column(
    setting: TypingSetting<'_>,
    left: &Shared<Column>,
    right: &Column,
) -> Result<Shared<Column>, AllocError>
    ensures column { IfOk result (λ column. column
        ≡ spec.united_column setting.entry.schemas.now left.now right.now) }
{
    let width = Width::of(left).united(Width::of(right));
    let anchored = anchored_with(setting, left, right)?;
    with_width(setting.alloc, &anchored, width)
}

/// Whether two tables have the same columns in the same order, but for their widths and anchors.
pub fn same_columns(lefts: &[Shared<Column>], rights: &[Shared<Column>]) -> bool
    ensures same { result ≡ spec.same_columns lefts.now rights.now }
{
    let mut rest = rights;
    for left in lefts {
        let Some((right, others)) = rest.split_first() else {
            return false;
        };
        if !same_column(left, right) {
            return false;
        }
        rest = others;
    }
    rest.is_empty()
}

// Whether two columns have one name and one type, and are both keys or both none.
fn same_column(left: &Column, right: &Column) -> bool
    ensures same { result ≡ spec.same_column left.now right.now }
{
    left.name == right.name && same_type(&left.of, &right.of) && left.key == right.key
}

// Whether two types are the same.
fn same_type(left: &ValueType, right: &ValueType) -> bool
    ensures same { result ≡ spec.same_type left.now right.now }
{
    match left {
        ValueType::Int => matches!(right, ValueType::Int),
        ValueType::Bool => matches!(right, ValueType::Bool),
        ValueType::Text => matches!(right, ValueType::Text),
        ValueType::Dist(bounds) => match right {
            ValueType::Dist(others) => *bounds == *others,
            _ => false,
        },
    }
}
