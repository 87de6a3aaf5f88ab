// What every layout has in common: bytes as numbers, and the head that opens it; and why an entry refuses. specs/ have
// the rows of refusals, of which the first that holds decides, the number of each, and what a writer promises.
#![tactic(auto)]

ghost use Rattle.std.specs.Prelude.{◌≡◌, ℕ, ◌++◌, ◌+◌, ◌≤◌, ◌<◌, length, take, drop};
ghost use Rattle.layout.specs.Bytes.{four_at, length_field, four_bytes, eight_at, eight_bytes};
ghost use Rattle.layout.specs.Refusal.{first};
ghost use Rattle.layout.specs.Refused.{number_of, beside};
ghost use Rattle.layout.specs.Head.{head_rows, head_says};

// Why an entry refuses, one name for each number of the rules, with the value that stands beside it.
#[derive(Clone, Copy, Debug, PartialEq, Eq)]
pub enum Refused {
    SetLength,
    SetVersion,
    LimitCount,
    LimitsLength,
    LimitKind { limit: usize },
    LimitK { limit: usize },
    LimitX { limit: usize },
    WorkLength,
    Room { needed: usize },
    TableLength,
    TableVersion,
    States,
    Outcome { place: usize },
    Job,
    Log,
    UnusedBits,
    Count,
    Record,
    LostByte,
    OldRecord,
    LimitsNothing,
    Walk,
    PatternLength,
}

impl Refused {
    // The number that the rules give it.
    pub fn number(self) -> u8
        ensures { result ≡ number_of self }
    {
        match self {
            Refused::SetLength => 1,
            Refused::SetVersion => 2,
            Refused::LimitCount => 3,
            Refused::LimitsLength => 4,
            Refused::LimitKind { .. } => 5,
            Refused::LimitK { .. } => 6,
            Refused::LimitX { .. } => 7,
            Refused::WorkLength => 8,
            Refused::Room { .. } => 9,
            Refused::TableLength => 10,
            Refused::TableVersion => 11,
            Refused::States => 12,
            Refused::Outcome { .. } => 13,
            Refused::Job => 14,
            Refused::Log => 15,
            Refused::UnusedBits => 16,
            Refused::Count => 17,
            Refused::Record => 18,
            Refused::LostByte => 19,
            Refused::OldRecord => 20,
            Refused::LimitsNothing => 21,
            Refused::Walk => 25,
            Refused::PatternLength => 26,
        }
    }

    // The value beside the number, 0 where there is none.
    pub fn at(self) -> usize
        ensures { result ≡ beside self }
    {
        match self {
            Refused::LimitKind { limit } => limit,
            Refused::LimitK { limit } => limit,
            Refused::LimitX { limit } => limit,
            Refused::Room { needed } => needed,
            Refused::Outcome { place } => place,
            _ => 0,
        }
    }
}

// What is wrong with the head of a layout: its length, or else its version.
#[derive(Clone, Copy, Debug, PartialEq, Eq)]
pub enum HeadFault {
    Length,
    Version,
}

// A byte as a number that can be added to and compared with lengths.
pub fn wide(byte: u8) -> usize
    ensures { (result ≡ byte) × (result < 256) }
{
    byte as usize
}

// The number that four bytes write, the highest first.
pub fn four_at(bytes: &[u8], at: usize) -> usize
    requires { at + 4 ≤ length bytes.now }
    ensures { (result ≡ four_at bytes.now at) × (result < 4294967296) }
{
    u32::from_be_bytes([bytes[at], bytes[at + 1], bytes[at + 2], bytes[at + 3]]) as usize
}

// The number that eight bytes write, the highest first: two numbers of four, which is shorter than a list of eight
// places.
pub fn eight_at(bytes: &[u8], at: usize) -> u64
    requires { at + 8 ≤ length bytes.now }
    ensures { result ≡ eight_at bytes.now at }
{
    (four_at(bytes, at) * 4294967296 + four_at(bytes, at + 4)) as u64
}

// The four bytes that say how many bytes come after them.
pub fn length_field(bytes: &[u8]) -> usize
    requires { 4 ≤ length bytes.now }
    ensures { (result ≡ length_field bytes.now) × (result < 4294967296) }
{
    four_at(bytes, 0)
}

// Tests the head of a layout that has at least so many bytes and a version of its own.
pub fn check_head(bytes: &[u8], least: usize, own: u8) -> Result<(), HeadFault>
    requires { 5 ≤ least }
    ensures { (wrong : ℕ) (other : ℕ) → first (head_rows least own wrong other bytes.now) ≡ head_says wrong other result }
{
    let n = bytes.len();
    if n < least {
        return Err(HeadFault::Length);
    }
    let rest = length_field(bytes);
    if rest != n - 4 {
        return Err(HeadFault::Length);
    }
    if bytes[4] != own {
        return Err(HeadFault::Version);
    }
    Ok(())
}

// Writes a number as four bytes, the highest first. The place stands beside the buffer: who stores knows it, and no
// next one is answered.
pub fn put_four(out: &mut [u8], at: usize, n: usize)
    requires { (at + 4 ≤ length out.old) × (n < 4294967296) }
    ensures { out.new ≡ take at out.old ++ four_bytes n ++ drop (at + 4) out.old }
{
    out[at..at + 4].copy_from_slice(&(n as u32).to_be_bytes());
}

// Writes a number as eight bytes, the highest first. It differs from `put_four`, and from what `builder` stores as two,
// in the number's width; each is one call of the library, with its own definition.
pub fn put_eight(out: &mut [u8], at: usize, n: u64)
    requires { at + 8 ≤ length out.old }
    ensures { out.new ≡ take at out.old ++ eight_bytes n ++ drop (at + 8) out.old }
{
    out[at..at + 8].copy_from_slice(&n.to_be_bytes());
}
