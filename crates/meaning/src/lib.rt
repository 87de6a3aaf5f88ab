// Weakly-hard limits: their kinds, the records that hold a limit and a set of limits, and the longest window.
// What they mean stands in specs/; the laws of that meaning, on which every other crate rests, in proofs/.
#![tactic(auto)]

ghost use Rattle.std.specs.Prelude.{◌≡◌};
ghost use Rattle.meaning.specs.Limit.{rule_of};
ghost use Rattle.meaning.specs.KindOf.{KindOf, rule_with};

// The longest window that a limit may have. The history length and the number of histories follow from it.
pub const LONGEST_WINDOW: u8 = 16;

// The kinds of limits.
#[derive(Clone, Copy, Debug, PartialEq, Eq)]
pub enum Kind {
    AnyHit,
    RowHit,
    AnyMiss,
    RowMiss,
}

// A byte that is no kind's.
#[derive(Clone, Copy, Debug, PartialEq, Eq)]
pub struct UnknownKind(pub u8);

impl TryFrom<u8> for Kind {
    type Error = UnknownKind;

    ghost try_from_gives = { KindOf };

    fn try_from(byte: u8) -> Result<Kind, UnknownKind> {
        match byte {
            0 => Ok(Kind::AnyHit),
            1 => Ok(Kind::RowHit),
            2 => Ok(Kind::AnyMiss),
            3 => Ok(Kind::RowMiss),
            _ => Err(UnknownKind(byte)),
        }
    }
}

// One limit as its three bytes have it, and as C sees it: so its kind is a byte.
#[repr(C)]
#[derive(Clone, Copy, Debug, Default, PartialEq, Eq)]
pub struct Limit {
    pub kind: u8,
    pub x: u8,
    pub k: u8,
}

impl Limit {
    // The kind by which the limit goes. A kind byte above 3 is refused where sets are read and written, and never comes
    // here.
    pub fn rule_kind(self) -> Kind
        ensures { rule_of self ≡ rule_with result self.x self.k }
    {
        Kind::try_from(self.kind).unwrap_or(Kind::RowMiss)
    }
}

// RULES, A set in memory, as C sees it: a count beside eight places. Those from the count on hold zeros in a set that
// was read.
#[repr(C)]
#[derive(Clone, Copy, Debug, Default, PartialEq, Eq)]
pub struct LimitSet {
    pub count: usize,
    pub limits: [Limit; 8],
}
