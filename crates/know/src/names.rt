// Which store is meant.
use history_book::BookName;
use raise_table::RaiseName;
use std::marker::Brand;

/// The one name that a store's tables, locked values and callers carry. It has no calls. It says which raise table and
/// which book are meant, and what the store is set up with.
pub trait Names: RaiseName + BookName {
    ghost use Rattle.mon_topo.specs.Settings.{Setting};

    ghost setting: { Setting };
}

impl Names for Brand {
    ghost use Rattle.std.specs.Prelude.{[]};

    ghost setting = { record {
      held = record { targets = []; metrics = [] };
      zones = [];
      points = 0;
      buckets_of = λ key. [];
    } };
}
