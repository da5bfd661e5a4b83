// What the fields of a schema are tested for.
ghost use Rattle.std.specs.Prelude.{◌≡◌, ◌∷◌, nat_lt, count_by};
ghost use Rattle.std.specs.List.{list_any};
ghost use Rattle.mon_value.specs.Same.{same_text};
ghost use Rattle.mon_schema.specs.Faults as spec;

use crate::names::is_column_name;
use mon_value::{Field, FieldType, Fields, Text};

/// Whether each field has a lawful name.
pub(crate) fn have_names(fields: &Fields) -> bool
    ensures lawful { result ≡ spec.have_names fields.now }
{
    fields
        .iter()
        .all(|field| is_column_name(field.name.as_bytes()))
}

/// Whether two fields have one name.
#[tactic(auto, using(crate::proofs::FieldNameLemmas::field_names))]
pub(crate) fn names_repeat(fields: &Fields) -> bool
    ensures repeat { result ≡ spec.texts_repeat (spec.names_of_fields fields.now) }
{
    let mut rest = fields.as_slice();
    while let Some((field, others)) = rest.split_first() {
        if is_named(others, &field.name) {
            return true;
        }
        rest = others;
    }
    false
}

/// Whether two columns have one name: a metric's own and those of its fields.
#[tactic(auto, using(crate::proofs::FieldNameLemmas::field_names))]
pub(crate) fn columns_repeat(column: &Text, fields: &Fields) -> bool
    ensures repeat { result ≡ spec.texts_repeat (column.now ∷ spec.names_of_fields fields.now) }
{
    is_named(fields.as_slice(), column) || names_repeat(fields)
}

// Whether a field has the name.
fn is_named(fields: &[Field], name: &Text) -> bool
    ensures named { result ≡ list_any (λ field. same_text name.now field.name) fields.now }
{
    fields.iter().any(|field| *name == field.name)
}

/// Whether more than one field is marked as the location.
pub(crate) fn has_two_locations(fields: &Fields) -> bool
    ensures marked { result ≡ nat_lt 1 (count_by (λ field. field.location) fields.now) }
{
    fields.iter().filter(|field| field.location).count() > 1
}

/// Whether a field serves as the location: a text field that is marked so.
pub fn is_location(field: &Field) -> bool
    ensures location { result ≡ spec.is_location field.now }
{
    field.location && matches!(field.of, FieldType::Text)
}

/// Whether a text field is marked as the location.
pub(crate) fn has_location(fields: &Fields) -> bool
    ensures location { result ≡ list_any spec.is_location fields.now }
{
    fields.iter().any(is_location)
}
