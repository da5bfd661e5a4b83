// How the value under a key, and each value of a list, is read.
ghost use Rattle.std.specs.Prelude.{ℕ, List, Ok, Result, map};
ghost use Rattle.mon_value.specs.Answers.{Gives};
ghost use Rattle.mon_config.specs.Objects as spec;
ghost use Rattle.serde_json.specs.Data.{Data};
ghost use Rattle.serde_json.specs.View.{view};

use crate::paths::{Shaped, path_through_index, path_through_key, wrong_form};
use mon_value::{ListOf, Refusal};
use serde_json::Value;
use std::alloc::Global;
use std::marker::PhantomData;

/// What reads a JSON value.
pub(crate) trait Reader {
    type Item: Drop;

    ghost reads: { Data → Result Self.Item (List ℕ) };

    fn read(alloc: Global, value: &Value) -> Shaped<Self::Item>
        ensures spelled { Gives result (reads (view value.now)) };
}

/// Reads the value under a key that must be there.
pub(crate) fn required_key<R: Reader>(alloc: Global, value: &Value, key: &str) -> Shaped<R::Item>
    ensures spelled { Gives result (spec.required_key key.now R.reads (view value.now)) }
{
    let Some(inner) = value.get(key) else {
        return Err(Refusal::Fault(path_through_key(alloc, key, "")?));
    };
    match R::read(alloc, inner) {
        Ok(item) => Ok(item),
        Err(Refusal::Fault(path)) => {
            Err(Refusal::Fault(path_through_key(alloc, key, path.as_str())?))
        }
        Err(Refusal::OutOfMemory) => Err(Refusal::OutOfMemory),
    }
}

/// Reads the value under a key that may be there; without it the default counts.
pub(crate) fn optional_key<R: Reader>(
    alloc: Global,
    value: &Value,
    key: &str,
    default: R::Item,
) -> Shaped<R::Item>
    ensures spelled { Gives result (spec.optional_key default key.now R.reads (view value.now)) }
{
    let Some(inner) = value.get(key) else {
        return Ok(default);
    };
    match R::read(alloc, inner) {
        Ok(item) => Ok(item),
        Err(Refusal::Fault(path)) => {
            Err(Refusal::Fault(path_through_key(alloc, key, path.as_str())?))
        }
        Err(Refusal::OutOfMemory) => Err(Refusal::OutOfMemory),
    }
}

/// A key must not be there.
pub(crate) fn absent_key(alloc: Global, value: &Value, key: &str) -> Shaped<bool>
    ensures missing { Gives result (spec.absent_key key.now (view value.now)) }
{
    if value.get(key).is_some() {
        return Err(Refusal::Fault(path_through_key(alloc, key, "")?));
    }
    Ok(true)
}

/// Reads a list, element by element.
pub(crate) struct ListReader<R> {
    of: PhantomData<R>,
}

impl<R: Reader> Reader for ListReader<R> {
    type Item = ListOf<R::Item>;

    ghost reads = { spec.list_in R.reads };

    fn read(alloc: Global, value: &Value) -> Shaped<ListOf<R::Item>> {
        read_list::<R>(alloc, value)
    }
}

#[tactic(auto, using(crate::proofs::ListOfLemmas::viewed))]
fn read_list<R: Reader>(alloc: Global, value: &Value) -> Shaped<ListOf<R::Item>>
    ensures spelled { Gives result (spec.list_in R.reads (view value.now)) }
{
    match value.as_array() {
        Some(list) => read_elements::<R>(alloc, list.as_slice()),
        None => wrong_form(alloc),
    }
}

fn read_elements<R: Reader>(alloc: Global, list: &[Value]) -> Shaped<ListOf<R::Item>>
    ensures spelled { Gives result (spec.elements_in R.reads 0 (map view list.now)) }
{
    let mut items = ListOf::new(alloc);
    for (i, value) in list.iter().enumerate() {
        items.push(read_element::<R>(alloc, i, value)?)?;
    }
    Ok(items)
}

// Reads the element at a place.
fn read_element<R: Reader>(alloc: Global, i: usize, value: &Value) -> Shaped<R::Item>
    ensures spelled { Gives result (spec.under_index i (R.reads (view value.now))) }
{
    match R::read(alloc, value) {
        Ok(item) => Ok(item),
        Err(Refusal::Fault(path)) => {
            Err(Refusal::Fault(path_through_index(alloc, i, path.as_str())?))
        }
        Err(Refusal::OutOfMemory) => Err(Refusal::OutOfMemory),
    }
}
