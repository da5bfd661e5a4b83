// A text.
ghost use Rattle.std.specs.Cmp.Lexicographic.{pointwise};
ghost use Rattle.std.specs.Prelude.{◌≡◌, IfOk, nat_eq, string_bytes};
ghost use Rattle.mon_value.specs.Values.{text_in};

use crate::copying::TryCopy;
use crate::lists::ListOf;
use std::alloc::{AllocError, Global};
use std::cmp::Ordering;
use std::hash::{Hash, Hasher};
use std::marker::Model;
use std::str;
use std::sync::ArcStr;

/// A UTF-8 text, which its copies share: a copy is one owner more and copies no byte. Contracts see the
/// list of its bytes.
#[derive(Drop)]
pub struct Text {
    content: ArcStr,
}

impl Model for Text {
    ghost use Rattle.std.specs.Prelude.{List, ℕ};
    ghost use Rattle.std.specs.Arc.{arc_str_bytes};

    ghost Value = { List ℕ };

    ghost view = { λ text. arc_str_bytes text.content };
}

impl Text {
    /// The text that `content` is. No byte is copied.
    pub fn from_string(content: String) -> Result<Self, AllocError>
        ensures bytes { IfOk result (λ text. text ≡ string_bytes content) }
    {
        Ok(Text {
            content: ArcStr::from_string(content)?,
        })
    }

    /// A copy of a text.
    pub fn from_str(alloc: Global, content: &str) -> Result<Self, AllocError>
        ensures bytes { IfOk result (λ text. text ≡ content.now) }
    {
        Ok(Text {
            content: ArcStr::from_str(alloc, content)?,
        })
    }

    /// The text that the bytes are, or `None` where they are not UTF-8.
    #[tactic(auto, using(crate::proofs::TextLemmas::utf8))]
    pub fn from_utf8(alloc: Global, bytes: &[u8]) -> Result<Option<Self>, AllocError>
        ensures text { IfOk result (λ text. text ≡ text_in bytes.now) }
    {
        match str::from_utf8(bytes) {
            Ok(content) => Ok(Some(Text::from_str(alloc, content)?)),
            Err(_) => Ok(None),
        }
    }

    /// The text as a string slice.
    pub fn as_str(&self) -> &str
        ensures bytes { result.now ≡ self.now }
    {
        self.content.as_str()
    }

    /// The bytes of the text.
    pub fn as_bytes(&self) -> &[u8]
        ensures bytes { result.now ≡ self.now }
    {
        self.content.as_bytes()
    }
}

// Names and fields are mostly shorter than this. Up to here it is cheaper to compare bytes one by one than many at a
// time, and keys are compared again and again as rows come in.
const SHORT: usize = 16;

// Whether bytes are the same.
fn same_bytes(own: &[u8], others: &[u8]) -> bool
    ensures same { result ≡ pointwise nat_eq own.now others.now }
{
    if own.len() != others.len() {
        return false;
    }
    for i in 0..own.len() {
        if own[i] != others[i] {
            return false;
        }
    }
    true
}

/// Texts in order.
pub type Texts = ListOf<Text>;

impl TryCopy for Text {
    fn copy(&self, _alloc: Global) -> Result<Text, AllocError> {
        Ok(Text {
            content: self.content.clone()?,
        })
    }
}

impl PartialEq for Text {
    ghost use Rattle.std.specs.Cmp.{partial_equiv_from_equiv};
    ghost use Rattle.std.specs.Cmp.Lexicographic.{pointwise, nat_list_eq_equiv};
    ghost use Rattle.std.specs.Prelude.{nat_eq};

    ghost eq = { pointwise nat_eq };

    ghost laws = { partial_equiv_from_equiv nat_list_eq_equiv };

    fn eq(&self, other: &Self) -> bool {
        let (own, others) = (self.content.as_bytes(), other.content.as_bytes());
        if own.len() < SHORT {
            same_bytes(own, others)
        } else {
            self.content.as_str() == other.content.as_str()
        }
    }
}

impl Eq for Text {
    ghost use Rattle.std.specs.Cmp.Lexicographic.{nat_list_eq_equiv};

    ghost laws = { nat_list_eq_equiv };
}

impl PartialOrd for Text {
    ghost use Rattle.std.specs.Cmp.Lexicographic.{slice_cmp, texts_po};
    ghost use Rattle.std.specs.Ordering.{nat_cmp};
    ghost use Rattle.std.specs.Prelude.{Some};

    ghost partial_cmp = { λ x y. Some (slice_cmp nat_cmp x y) };

    ghost laws = { texts_po };

    fn partial_cmp(&self, other: &Self) -> Option<Ordering> {
        Some(self.cmp(other))
    }
}

impl Ord for Text {
    ghost use Rattle.std.specs.Cmp.Lexicographic.{slice_cmp, nat_list_cmp_total, texts_ties};
    ghost use Rattle.std.specs.Ordering.{nat_cmp};
    ghost use Rattle.std.specs.Prelude.{refl};

    ghost cmp = { slice_cmp nat_cmp };

    ghost total = { nat_list_cmp_total };

    ghost matches_partial_cmp = { λ x y. refl };

    ghost matches_eq = { texts_ties };

    fn cmp(&self, other: &Self) -> Ordering {
        self.content.as_str().cmp(other.content.as_str())
    }
}

impl Hash for Text {
    ghost use Rattle.std.specs.Hash as fed;
    ghost use Rattle.std.specs.Cmp.Rules.{hashing};
    ghost use Rattle.std.proofs.Common.{rules};

    ghost hash_input = { fed.str };

    ghost respects_eq = { Prim.search (hashing, rules) };

    fn hash<H: Hasher>(&self, state: &mut H) {
        self.content.as_str().hash(state);
    }
}
