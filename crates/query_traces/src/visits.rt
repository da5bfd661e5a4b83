// The visits of a round.
ghost use Rattle.std.specs.Prelude.{◌≡◌, IfOk, OnOk};
ghost use Rattle.query_traces.specs.Rounds.{read_at};
ghost use Rattle.query_traces.specs.Visits as spec;

use crate::looks::{Look, unread_looks};
use mon_fold::{LeafAnswer, LeafAnswers};
use mon_value::{Leaf, Leaves, OutOfMemory};
use std::alloc::Global;
use std::marker::Model;

/// The leaves that are to be visited, how many of them were begun, what is known of each leaf of the zone from its
/// first one on, and the answers of those that were read.
#[derive(Drop)]
pub struct Visits {
    leaves: Leaves,
    begun: usize,
    first: Leaf,
    looks: Vec<Look>,
    answers: LeafAnswers,
}

impl Model for Visits {
    ghost use Rattle.std.specs.Prelude.{drop};
    ghost use Rattle.query_traces.specs.Visits as spec;

    ghost Value = { spec.Visits };

    ghost view = { λ visits. record {
      left = drop visits.begun visits.leaves;
      first = visits.first;
      looks = visits.looks.items;
      answers = visits.answers;
    } };
}

impl Visits {
    /// Before the first visit: leaves to be visited, and the lengths that had been seen of the zone's leaves.
    pub fn new(
        alloc: Global,
        leaves: Leaves,
        first: Leaf,
        cuts: &[u64],
    ) -> Result<Visits, OutOfMemory>
        ensures new { IfOk result (λ visits. visits ≡ spec.visits_of leaves first cuts.now) }
    {
        Ok(Visits {
            leaves,
            begun: 0,
            first,
            looks: unread_looks(alloc, cuts)?,
            answers: LeafAnswers::new(alloc),
        })
    }

    /// Goes on to the next leaf that is to be visited.
    #[tactic(auto, using(crate::proofs::VisitLemmas::going_on))]
    pub fn go_on(&mut self) -> Option<Leaf>
        ensures leaf { result ≡ spec.next_leaf self.old }
        ensures gone { self.new ≡ spec.gone_on self.old }
    {
        if self.begun < self.leaves.len() {
            let leaf = *self.leaves.get(self.begun);
            self.begun += 1;
            Some(leaf)
        } else {
            None
        }
    }

    /// Says what became of a leaf.
    pub fn look(&mut self, leaf: Leaf, look: Look)
        ensures looked { self.new ≡ spec.with_look self.old leaf look }
    {
        if leaf.0 >= self.first.0 {
            let place = (leaf.0 - self.first.0) as usize;
            if place < self.looks.len() {
                self.looks[place] = look;
            }
        }
    }

    // Keeps the answer of a leaf that was read.
    fn keep(&mut self, answer: LeafAnswer) -> Result<(), OutOfMemory>
        ensures kept { OnOk result (self.new ≡ spec.with_leaf_answer self.old answer) }
    {
        self.answers.push(answer)?;
        Ok(())
    }

    /// A leaf was read: what became of it, and its answer.
    pub fn read(&mut self, leaf: Leaf, cut: u64, answer: LeafAnswer) -> Result<(), OutOfMemory>
        ensures read { OnOk result (self.new
            ≡ spec.with_leaf_answer (spec.with_look self.old leaf (read_at cut answer.sent)) answer) }
    {
        self.look(leaf, Look::read(cut, answer.sent));
        self.keep(answer)
    }

    /// What is known of the zone's leaves, and the answers.
    pub fn into_parts(self) -> (Vec<Look>, LeafAnswers)
        ensures looks { result.0.items ≡ self.looks }
        ensures answers { result.1 ≡ self.answers }
    {
        (self.looks, self.answers)
    }
}
