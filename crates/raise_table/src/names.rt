// Which raise table is meant.
use std::marker::Brand;

/// The part of a store's name that says which raise table is meant. It has no calls.
pub trait RaiseName {
    ghost use Rattle.raise_table.specs.Tables.{RaiseIdentity};

    ghost raise: { RaiseIdentity };
}

impl RaiseName for Brand {
    ghost use Rattle.std.specs.Prelude.{[]};

    ghost raise = { record {
      id = record { words = 0; slots = 0; views_name = 0; atom = 0; block = 0; offset = 0; slot_names = [] };
      zones = [];
      buckets = 0;
    } };
}
