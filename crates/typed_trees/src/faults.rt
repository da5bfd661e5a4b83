// What a query is refused for.
ghost use Rattle.std.specs.Prelude.{◌≡◌, None, [], ◌∷◌, not};
ghost use Rattle.typed_trees.specs.Faults as spec;

use mon_value::ValueType;
use std::fmt;

/// Why a query has no type, with the place in its text.
#[derive(Clone, Copy, PartialEq, Eq)]
pub struct TypeFault {
    pub at: u32,
    pub kind: TypeKind,
}

/// The kinds of faults, in the order in which those at one place are told.
#[derive(Clone, Copy, PartialEq, Eq)]
pub enum TypeKind {
    /// No target schema has the name.
    UnknownSchema,
    /// No metric has the name.
    UnknownMetric,
    /// No column has the name.
    UnknownColumn,
    /// A column of the first type stands beside something of the second, or where that was wanted.
    Mismatch(TypeWord, TypeWord),
    /// A gauge is aligned as a delta.
    NotDelta,
    /// A delta or a cumulative metric is aligned as a gauge.
    NotGauge,
    /// A column would have the name of another one, or `time`.
    DuplicateColumn,
    /// The branches of a join have no common column, or those of a union unlike columns.
    BranchColumns,
    /// The table would have more than 10,000 times.
    TooManyTimes,
    /// The values of a column could sum to so many bits.
    TooWide(u32),
    /// An aligned table is aligned, or `every` or `within` stands where it may not.
    BadOrder,
}

/// A type as a fault names it.
#[derive(Clone, Copy, PartialEq, Eq)]
pub enum TypeWord {
    Int,
    Bool,
    Text,
    Dist,
}

impl fmt::Display for TypeFault {
    ghost use Rattle.std.specs.Prelude.{Some};
    ghost use Rattle.typed_trees.specs.Faults.{type_fault_text};

    ghost output = { λ fault. Some (type_fault_text fault) };

    fn fmt<W: fmt::Write>(&self, f: &mut fmt::Formatter<W>) -> fmt::Result {
        write!(f, "{} {}", self.at, self.kind)
    }
}

impl fmt::Display for TypeKind {
    ghost use Rattle.std.specs.Prelude.{Some};
    ghost use Rattle.typed_trees.specs.Faults.{type_kind_text};

    ghost output = { λ kind. Some (type_kind_text kind) };

    fn fmt<W: fmt::Write>(&self, f: &mut fmt::Formatter<W>) -> fmt::Result {
        match self {
            TypeKind::UnknownSchema => f.write_str("UnknownSchema"),
            TypeKind::UnknownMetric => f.write_str("UnknownMetric"),
            TypeKind::UnknownColumn => f.write_str("UnknownColumn"),
            TypeKind::Mismatch(found, wanted) => write!(f, "Mismatch {found} {wanted}"),
            TypeKind::NotDelta => f.write_str("NotDelta"),
            TypeKind::NotGauge => f.write_str("NotGauge"),
            TypeKind::DuplicateColumn => f.write_str("DuplicateColumn"),
            TypeKind::BranchColumns => f.write_str("BranchColumns"),
            TypeKind::TooManyTimes => f.write_str("TooManyTimes"),
            TypeKind::TooWide(bits) => write!(f, "TooWide {bits}"),
            TypeKind::BadOrder => f.write_str("BadOrder"),
        }
    }
}

impl fmt::Display for TypeWord {
    ghost use Rattle.std.specs.Prelude.{Some};
    ghost use Rattle.typed_trees.specs.Faults.{type_word_text};

    ghost output = { λ word. Some (type_word_text word) };

    fn fmt<W: fmt::Write>(&self, f: &mut fmt::Formatter<W>) -> fmt::Result {
        f.write_str(match self {
            TypeWord::Int => "int",
            TypeWord::Bool => "bool",
            TypeWord::Text => "text",
            TypeWord::Dist => "dist",
        })
    }
}

impl TypeKind {
    // The number by which faults at one place are ordered.
    fn number(&self) -> u8
        ensures number { result ≡ spec.kind_number self.now }
    {
        match self {
            TypeKind::UnknownSchema => 1,
            TypeKind::UnknownMetric => 2,
            TypeKind::UnknownColumn => 3,
            TypeKind::Mismatch(_, _) => 4,
            TypeKind::NotDelta => 5,
            TypeKind::NotGauge => 6,
            TypeKind::DuplicateColumn => 7,
            TypeKind::BranchColumns => 8,
            TypeKind::TooManyTimes => 9,
            TypeKind::TooWide(_) => 10,
            TypeKind::BadOrder => 11,
        }
    }
}

impl TypeFault {
    // Whether a fault stands further left than another, or at its place with a lesser number.
    fn stands_before(&self, other: &TypeFault) -> bool
        ensures before { result ≡ spec.stands_before self.now other.now }
    {
        self.at < other.at || self.at == other.at && self.kind.number() < other.kind.number()
    }
}

/// The first of the faults that were told.
#[derive(Drop)]
pub struct Faults {
    pub first: Option<TypeFault>,
}

impl Faults {
    /// No fault.
    pub fn new() -> Faults
        ensures none { result.first ≡ None }
    {
        Faults { first: None }
    }

    /// Tells a fault, which counts where no other stands before it.
    pub fn tell(&mut self, at: u32, kind: TypeKind)
        ensures first { self.new.first ≡ spec.first_with self.old.first (spec.fault_at at kind ∷ []) }
    {
        let fault = TypeFault { at, kind };
        match &self.first {
            Some(found) => {
                if fault.stands_before(found) {
                    self.first = Some(fault);
                }
            }
            None => self.first = Some(fault),
        }
    }

    /// Tells a fault where the test says so.
    pub fn tell_where(&mut self, test: bool, at: u32, kind: TypeKind)
        ensures first { self.new.first ≡ spec.first_with self.old.first (spec.fault_where test at kind) }
    {
        if test {
            self.tell(at, kind);
        }
    }

    /// Tells that a type isn't the one that was wanted, where it doesn't fit.
    pub fn tell_unlike(&mut self, fits: bool, at: u32, of: &ValueType, wanted: TypeWord)
        ensures first { self.new.first ≡ spec.first_with self.old.first
            (spec.fault_where (not fits) at (TypeKind.Mismatch (spec.type_word of.now) wanted)) }
    {
        self.tell_where(!fits, at, TypeKind::Mismatch(type_word(of), wanted));
    }
}

/// What a type is called.
pub fn type_word(of: &ValueType) -> TypeWord
    ensures word { result ≡ spec.type_word of.now }
{
    match of {
        ValueType::Int => TypeWord::Int,
        ValueType::Bool => TypeWord::Bool,
        ValueType::Text => TypeWord::Text,
        ValueType::Dist(_) => TypeWord::Dist,
    }
}
