// A round over a write's replicas.
ghost use Rattle.std.specs.Prelude.{◌≡◌, ◌++◌, [], take, drop};
ghost use Rattle.std.specs.Option.{option_copied};
ghost use Rattle.write_core.specs.Rounds.{again, first_left, is_through, after_look, round_of, skip_unready};
ghost use Rattle.write_core.specs.Rounds.{after_skip};

use crate::marks::{Fate, Mark};
use std::alloc::Global;
use std::marker::Model;

/// A write's replicas in slot order, and the place of the one that it looks at.
#[derive(Drop)]
pub(crate) struct Round {
    marks: Vec<Mark>,
    place: usize,
}

impl Model for Round {
    ghost use Rattle.std.specs.Prelude.{take, drop};
    ghost use Rattle.write_core.specs.Rounds as spec;

    ghost Value = { spec.Round };

    ghost view = { λ round. record {
      done = take round.place round.marks.items;
      left = drop round.place round.marks.items;
    } };
}

impl Round {
    /// A round over no replica.
    pub(crate) fn empty(alloc: Global) -> Round
        ensures empty { result ≡ round_of [] }
    {
        Round {
            marks: Vec::new(alloc),
            place: 0,
        }
    }

    /// A round from the first replica on.
    pub(crate) fn new(marks: Vec<Mark>) -> Round
        ensures all { result ≡ round_of marks.items }
    {
        Round { marks, place: 0 }
    }

    /// The replica that it looks at.
    #[tactic(auto, using(crate::proofs::RoundLemmas::rounds))]
    pub(crate) fn current(&self) -> Option<&Mark>
        ensures mark { option_copied result ≡ first_left self.now.left }
    {
        self.marks.get(self.place)
    }

    /// Whether it is through with all replicas.
    #[tactic(auto, using(crate::proofs::RoundLemmas::rounds))]
    pub(crate) fn is_through(&self) -> bool
        ensures through { result ≡ is_through self.now }
    {
        self.place >= self.marks.len()
    }

    /// Says what became of the replica that it looks at, and goes on to the next one.
    #[tactic(auto, using(crate::proofs::RoundLemmas::rounds))]
    pub(crate) fn mark(&mut self, fate: Fate)
        ensures looked { self.new ≡ after_look self.old fate }
    {
        if self.place < self.marks.len() {
            let mark = self.marks[self.place].marked(fate);
            self.marks[self.place] = mark;
            self.place += 1;
        }
    }

    /// Begins again at the first replica.
    pub(crate) fn begin_again(&mut self)
        ensures again { self.new ≡ again self.old }
    {
        self.place = 0;
    }

    /// Goes on to the next replica whose leaf has room for the row.
    pub(crate) fn skip(&mut self)
        ensures skipped { self.new ≡ after_skip self.old }
    {
        self.place = next_ready(self.marks.as_slice(), self.place);
    }

    /// All replicas.
    pub(crate) fn marks(&self) -> &[Mark]
        ensures marks { result.now ≡ self.now.done ++ self.now.left }
    {
        self.marks.as_slice()
    }
}

/// The place of the next replica, from one on, whose leaf has room for the row; behind all where there is none.
#[tactic(auto, using(crate::proofs::RoundLemmas::rounds))]
fn next_ready(marks: &[Mark], from: usize) -> usize
    ensures skipped { skip_unready (take from marks.now) (drop from marks.now)
        ≡ record { done = take result marks.now; left = drop result marks.now } }
{
    for i in from..marks.len() {
        if marks[i].is_ready() {
            return i;
        }
    }
    marks.len()
}
