// The callers of a store.
ghost use Rattle.std.specs.Prelude.{◌≡◌, IfOk, OnOk, OnErr};
ghost use Rattle.history_book.specs.Histories.{AreFronts};
ghost use Rattle.history_book.specs.Seats.{IsPurseBorneOut, hand_of};
ghost use Rattle.know.specs.Knowledge.{after_numbering, meeting, numbered_knowledge, numbers_fault};
ghost use Rattle.know.specs.Sound.{IsSound};
ghost use Rattle.mon_topo.specs.HeldHistories.{AreHeld};
ghost use Rattle.mon_value.specs.Answers.{AnswersBy};
ghost use Rattle.owners.specs.Puts.{pass_of};
ghost use Rattle.mon_store.specs.Passes.{IsPass};

use crate::stores::Store;
use know::{Ended, Know, Names, NumbersSpent};
use mon_config::RangeGuess;
use mon_value::Refusal;
use std::alloc::Global;
use std::marker::Model;

/// One caller of a store, with a number of its own. Contracts see what it knows.
#[derive(Drop)]
pub struct Pass<N: Names> {
    pub(crate) know: Know<N>,
    // Where the range of the last row was found.
    pub(crate) guess: RangeGuess,
}

impl<N: Names> Model for Pass<N> {
    ghost use Rattle.know.specs.Knowledge.{Knowledge};
    ghost use Rattle.mon_store.specs.Passes.{IsPass};

    ghost Value = { Knowledge };

    ghost view = { λ pass. pass.know };

    ghost invariant = { λ pass. IsPass N.setting pass.know };
}

impl<N: Names> Pass<N> {
    /// Does nothing, and tells what holds of each caller between its calls: what it has seen is held, the bits that it
    /// knows lead to all of it, and it bears out the caller's purse.
    pub fn is_sound(&self)
        ensures held { AreHeld N.setting.held N.setting.zones N.setting.points self.now.seen }
        ensures sound { IsSound N.setting self.now.hints self.now.seen }
        ensures borne_out { IsPurseBorneOut self.now.seen self.now.purse }
        ensures pass { IsPass N.setting self.now }
    {
        let _sight = self.know.sight();
    }

    /// What is left of it, in a type without the store's name. No memory is taken.
    pub fn finish(self) -> Ended
        ensures number { result.number ≡ (hand_of self.purse).own }
        ensures seen { result.seen ≡ self.seen }
        ensures held { AreHeld N.setting.held N.setting.zones N.setting.points result.seen }
    {
        self.know.unname()
    }

    /// The caller's number.
    pub fn number(&self) -> u64
        ensures number { result ≡ pass_of self.now }
    {
        match self.know.number() {
            Some(number) => number,
            None => 0,
        }
    }
}

impl<N: Names> Store<N> {
    /// Another caller, with the first number of the stock of one: no entry is under it, and it has seen what that one
    /// has seen. It is refused exactly where the stock is empty. No lock is taken.
    pub fn pass(&self, alloc: Global, p: &mut Pass<N>) -> Result<Pass<N>, Refusal<NumbersSpent>>
        ensures spent { AnswersBy result (numbers_fault p.old) }
        ensures numbered { IfOk result (λ new. new ≡ numbered_knowledge p.old) }
        ensures left { OnOk result (p.new ≡ after_numbering p.old) }
        ensures kept { OnErr result (p.new ≡ p.old) }
    {
        let know = p.know.split_numbered(alloc, &self.tables)?;
        p.know.confirm(&self.tables);
        Ok(Pass {
            know,
            guess: RangeGuess::new(),
        })
    }

    /// One caller has then seen and knows what either had, and the other's number is met. No lock and no memory is
    /// taken.
    pub fn meet(&self, p: &mut Pass<N>, other: Pass<N>)
        ensures met { p.new ≡ meeting other p.old }
        ensures fronts { AreFronts p.old.seen p.new.seen × AreFronts other.seen p.new.seen }
    {
        p.know.meet(&self.tables, other.know);
    }
}
