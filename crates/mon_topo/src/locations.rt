// The location of a target.
ghost use Rattle.std.specs.Prelude.{◌≡◌, IfNone, IfSome, Some, slice_get};
ghost use Rattle.std.specs.Option.{option_copied};
ghost use Rattle.mon_schema.specs.Names.{target_named};
ghost use Rattle.mon_topo.specs.Locations as spec;

use mon_schema::{Field, Schemas, is_location};
use mon_value::{FieldValue, Target, Text};

/// The location of a target: the value of its schema's location field.
pub fn location_of<'a>(schemas: &Schemas, target: &'a Target) -> Option<&'a Text>
    ensures location { option_copied result ≡ spec.location_of schemas.now target.now }
{
    match schemas.target(target.schema.as_bytes()) {
        None => None,
        Some(schema) => location_in(schema.fields.as_slice(), target.fields.as_slice()),
    }
}

/// The location of a target, as `location_of`. A place among the schemas is tried first, and is then the schema's.
pub fn location_near<'a>(
    schemas: &Schemas,
    target: &'a Target,
    place: &mut usize,
) -> Option<&'a Text>
    ensures location { option_copied result ≡ spec.location_of schemas.now target.now }
    ensures place { IfSome (target_named target.now.schema schemas.now.targets)
        (λ schema. slice_get schemas.now.targets place.new ≡ Some schema) }
    ensures stayed { IfNone (target_named target.now.schema schemas.now.targets) (place.new ≡ place.old) }
{
    match schemas.target_near(target.schema.as_bytes(), place) {
        None => None,
        Some(schema) => location_in(schema.fields.as_slice(), target.fields.as_slice()),
    }
}

// The value of the location field.
fn location_in<'a>(fields: &[Field], values: &'a [FieldValue]) -> Option<&'a Text>
    ensures location { option_copied result ≡ spec.location_in fields.now values.now }
{
    let mut left = values;
    for field in fields {
        let (value, rest) = left.split_first()?;
        if is_location(field) {
            return text_in(value);
        }
        left = rest;
    }
    None
}

// The text in a text field.
fn text_in(value: &FieldValue) -> Option<&Text>
    ensures text { option_copied result ≡ spec.text_in_field value.now }
{
    match value {
        FieldValue::Text(text) => Some(text),
        _ => None,
    }
}
