// Which children the hint words let in.
ghost use Rattle.std.specs.Prelude.{◌≡◌, ◌≤◌, ◌<◌, map, IfOk};
ghost use Rattle.mon_hints.specs.Formulas.{any_holds, formula_tree, formulas};
ghost use Rattle.mon_hints.specs.Hints.{IsMask, buckets_of_child, has_bit};
ghost use Rattle.plan_split.specs.Meeting as spec;

use mon_hints::{Buckets, Formula, Words, mask};
use mon_value::{ListOf, OutOfMemory};
use std::alloc::Global;
use typed_trees::Plan;

/// Of so many children, which ones the words let in: those of which some formula of the plan holds.
#[tactic(auto, using(crate::proofs::MeetingLemmas::flags_more))]
pub fn let_in(
    alloc: Global,
    plan: &Plan,
    words: &Words,
    count: u32,
) -> Result<ListOf<bool>, OutOfMemory>
    requires few { count ≤ 64 }
    ensures let_in { IfOk result (λ flags. flags ≡ spec.let_in plan.now words.now count) }
{
    let mask = children_let_in(plan, words);
    let mut flags = ListOf::new(alloc);
    for child in 0..count {
        flags.push(has_child(mask, child))?;
    }
    Ok(flags)
}

// The children of which some of these formulas holds, a bit for each.
fn any_child(several: &[Formula], named: &Buckets, words: &Words) -> u64
    ensures bits { IsMask result (λ child. any_holds (formulas (map formula_tree several.now))
        (buckets_of_child named.now words.now child)) }
{
    let mut children = 0;
    for formula in several {
        children |= mask(formula, named, words);
    }
    children
}

// The children of which some formula of the plan holds, a bit for each.
fn children_let_in(plan: &Plan, words: &Words) -> u64
    ensures bits { IsMask result (spec.lets_child_in plan.now words.now) }
{
    any_child(plan.formulas.as_slice(), &plan.buckets, words)
}

/// Whether the words of a plan's buckets let a child in: some formula of the plan holds of the buckets whose word has
/// its bit.
pub fn is_let_in(plan: &Plan, words: &Words, child: u32) -> bool
    requires { child < 64 }
    ensures let_in { result ≡ spec.lets_child_in plan.now words.now child }
{
    has_child(children_let_in(plan, words), child)
}

// Whether a word has the bit of a child.
fn has_child(word: u64, child: u32) -> bool
    requires { child < 64 }
    ensures bit { result ≡ has_bit word child }
{
    (word >> child) & 1 == 1
}
