// Whether a leaf is read.
ghost use Rattle.std.specs.Prelude.{◌≡◌, map, IfOk, if◌then◌else◌};
ghost use Rattle.leaf_store.specs.LeafStates.{key_buckets};
ghost use Rattle.mon_hints.specs.Formulas.{all_named, formula_tree, formulas, AreAmong, is_among};
ghost use Rattle.mon_hints.specs.Hints.{history_buckets};
ghost use Rattle.plan_split.specs.Meeting as spec;

use leaf_store::LeafState;
use mon_hints::Words;
use mon_value::OutOfMemory;
use plan_split::is_let_in;
use std::alloc::Global;
use typed_trees::Plan;

/// Whether some formula of a plan, which loads all buckets that its formulas name, holds of the leaf's buckets.
pub(crate) fn is_met(alloc: Global, plan: &Plan, state: &LeafState) -> Result<bool, OutOfMemory>
    requires listed { AreAmong (all_named (formulas (map formula_tree plan.now.formulas))) plan.now.buckets }
    ensures met { IfOk result (λ met. met ≡ spec.is_plan_met plan.now
        (history_buckets (key_buckets state.now.buckets state.now.schemas) state.now.history)) }
{
    let words = own_words(alloc, plan.buckets.as_slice(), state)?;
    Ok(is_let_in(plan, &words, 0))
}

// For each of some buckets a word of one child, which has the bit where a series of the leaf has the bucket.
fn own_words(alloc: Global, buckets: &[u32], state: &LeafState) -> Result<Words, OutOfMemory>
    ensures words { IfOk result (λ words. words ≡ map (λ bucket. if is_among bucket
        (history_buckets (key_buckets state.now.buckets state.now.schemas) state.now.history)
        then 1 else 0) buckets.now) }
{
    let mut words = Words::new(alloc);
    for bucket in buckets {
        words.push(own_word(state, *bucket))?;
    }
    Ok(words)
}

// A word of one child, which has the bit where a series of the leaf has the bucket.
fn own_word(state: &LeafState, bucket: u32) -> u64
    ensures word { result ≡ (if is_among bucket
        (history_buckets (key_buckets state.now.buckets state.now.schemas) state.now.history) then 1 else 0) }
{
    if state.has(bucket) { 1 } else { 0 }
}
