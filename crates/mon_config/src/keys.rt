// The keys that an object may have.
ghost use Rattle.std.specs.Prelude.{◌≡◌, option_map, string_bytes};
ghost use Rattle.std.specs.List.{list_any};
ghost use Rattle.mon_value.specs.Answers.{Gives};
ghost use Rattle.mon_value.specs.Same.{same_text};
ghost use Rattle.mon_config.specs.Objects as spec;
ghost use Rattle.mon_config.specs.Objects.{object_of, unknown_in};
ghost use Rattle.serde_json.specs.View.{members_view, view};

use crate::paths::{Shaped, path_through_key, wrong_form};
use mon_value::Refusal;
use serde_json::{Map, Value};
use std::alloc::Global;

/// Which part of a configuration an object spells.
#[derive(Clone, Copy, PartialEq, Eq)]
pub enum ObjectForm {
    Configuration,
    Target,
    TargetField,
    Metric,
    MetricField,
    Zone,
    Range,
}

impl ObjectForm {
    // Whether the object may have a key.
    fn knows(self, key: &str) -> bool
        ensures known { result ≡ list_any (same_text key.now) (spec.keys_of_form self) }
    {
        match self {
            ObjectForm::Configuration => is_configuration_key(key),
            ObjectForm::Target => key == "name" || key == "fields",
            ObjectForm::TargetField => key == "name" || key == "type" || key == "location",
            ObjectForm::Metric => is_metric_key(key),
            ObjectForm::MetricField => key == "name" || key == "type",
            ObjectForm::Zone => is_zone_key(key),
            ObjectForm::Range => key == "from" || key == "leaves",
        }
    }
}

fn is_configuration_key(key: &str) -> bool
    ensures known { result ≡ list_any (same_text key.now) (spec.keys_of_form ObjectForm.Configuration) }
{
    key == "buckets"
        || key == "limit"
        || key == "range_points"
        || key == "targets"
        || key == "metrics"
        || key == "zones"
}

fn is_metric_key(key: &str) -> bool
    ensures known { result ≡ list_any (same_text key.now) (spec.keys_of_form ObjectForm.Metric) }
{
    key == "name"
        || key == "kind"
        || key == "type"
        || key == "bounds"
        || key == "column"
        || key == "fields"
}

fn is_zone_key(key: &str) -> bool
    ensures known { result ≡ list_any (same_text key.now) (spec.keys_of_form ObjectForm.Zone) }
{
    key == "name" || key == "locations" || key == "leaves" || key == "ranges"
}

// The least by bytes of the keys that the object may not have: the map has its keys in that order.
fn unknown_in(form: ObjectForm, members: &Map<String, Value>) -> Option<&String>
    ensures unknown { option_map (λ key. string_bytes key.now) result
        ≡ unknown_in (spec.keys_of_form form) (members_view members.now.entries) }
{
    for key in members.keys() {
        if !form.knows(key.as_str()) {
            return Some(key);
        }
    }
    None
}

/// The value is an object, and each of its keys is one that it may have.
pub(crate) fn object_in(alloc: Global, form: ObjectForm, value: &Value) -> Shaped<bool>
    ensures keys { Gives result (object_of (spec.keys_of_form form) (view value.now)) }
{
    let Some(members) = value.as_object() else {
        return wrong_form(alloc);
    };
    match unknown_in(form, members) {
        Some(key) => Err(Refusal::Fault(path_through_key(alloc, key.as_str(), "")?)),
        None => Ok(true),
    }
}
