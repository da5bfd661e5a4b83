// What is left of a text.
ghost use Rattle.std.specs.Prelude.{◌+◌, ◌≤◌, length};

use crate::bytes::{is_alphabet, is_blank, is_word_byte};
use crate::faults::{ParseFault, ParseKind, What};
use mon_value::Refusal;

/// What is left of a text, and its place there.
#[derive(Clone, Copy)]
pub struct Cursor<'a> {
    pub at: u32,
    pub bytes: &'a [u8],
    ghost fits: { at + length bytes.now ≤ 65536 },
}

/// What was read with what is left, or why not.
pub type Read<'a, T> = Result<(T, Cursor<'a>), Refusal<ParseFault>>;

impl<'a> Cursor<'a> {
    ghost use Rattle.std.specs.Prelude.{◌≡◌};
    ghost use Rattle.mql_ast.specs.Tokens as rests;
    ghost use Rattle.mql_parse.specs.Outcomes as outcomes;
    ghost use Rattle.mql_parse.specs.Outcomes.{rest_of, Leaves};

    /// The byte here, or 0 where the text ends.
    pub fn head(self) -> u8
        ensures byte { result ≡ rests.head (rest_of self.entry) }
    {
        match self.bytes.first() {
            Some(byte) => *byte,
            None => 0,
        }
    }

    /// Whether the text ends here.
    pub fn is_end(self) -> bool
        ensures end { result ≡ rests.is_end (rest_of self.entry) }
    {
        match self.bytes.first() {
            Some(_) => false,
            None => true,
        }
    }

    /// What is left behind the byte here.
    pub fn behind(self) -> Cursor<'a>
        ensures rest { rest_of result ≡ rests.behind (rest_of self.entry) }
    {
        match self.bytes.split_first() {
            Some((_, bytes)) => Cursor {
                at: self.at + 1,
                bytes,
            },
            None => self,
        }
    }

    /// What is left behind the blanks here.
    #[tactic(auto, using(crate::proofs::RestLemmas::skips))]
    pub fn skip(self) -> Cursor<'a>
        ensures rest { rest_of result ≡ rests.skip (rest_of self.entry) }
    {
        let mut from = self;
        while is_blank(from.head()) {
            from = from.behind();
        }
        from
    }

    /// The fault of this kind here.
    pub fn fault(self, kind: ParseKind) -> Refusal<ParseFault>
        ensures fault { result ≡ Refusal.Fault (outcomes.fault kind (rest_of self.entry)) }
    {
        Refusal::Fault(ParseFault { at: self.at, kind })
    }

    /// The fault of what stands here in place of what might have come.
    pub fn unexpected(self, what: What) -> Refusal<ParseFault>
        ensures fault { result ≡ Refusal.Fault (outcomes.unexpected_fault what (rest_of self.entry)) }
    {
        match self.bytes.first() {
            Some(byte) => {
                if is_alphabet(*byte) {
                    self.fault(ParseKind::Expected(what))
                } else {
                    self.fault(ParseKind::BadToken)
                }
            }
            None => self.fault(ParseKind::Expected(what)),
        }
    }

    /// What is left behind these bytes, which stand here.
    pub fn exact(self, word: &[u8], what: What) -> Result<Cursor<'a>, Refusal<ParseFault>>
        ensures rest { Leaves result (outcomes.exact what word.now (rest_of self.entry)) }
    {
        let mut from = self;
        for expected in word {
            if from.head() != *expected {
                return Err(from.unexpected(what));
            }
            from = from.behind();
        }
        Ok(from)
    }

    /// What is left behind a sign, which stands here or behind blanks.
    pub fn sign(self, sign: u8, what: What) -> Result<Cursor<'a>, Refusal<ParseFault>>
        ensures rest { Leaves result (outcomes.sign sign what (rest_of self.entry)) }
    {
        let from = self.skip();
        if from.head() == sign {
            Ok(from.behind())
        } else {
            Err(from.unexpected(what))
        }
    }

    /// No letter, digit or `_` stands here, as none may behind a word.
    pub fn apart(self, what: What) -> Result<Cursor<'a>, Refusal<ParseFault>>
        ensures rest { Leaves result (outcomes.apart what (rest_of self.entry)) }
    {
        if is_word_byte(self.head()) {
            Err(self.unexpected(what))
        } else {
            Ok(self)
        }
    }
}
