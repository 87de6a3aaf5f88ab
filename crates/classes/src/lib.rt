// Which histories can't be told apart: for each the least one that allows the same outcomes for ever after,
// found by rounds of refinement in a lent work area.
#![tactic(auto)]

ghost use Rattle.std.specs.Prelude.{◌≡◌, true, false, ℕ, ◌+◌, ◌-◌, ◌*◌, ◌^◌, ◌≤◌, ◌<◌, length, get_or};
ghost use Rattle.meaning.specs.Longest.{longest};
ghost use Rattle.meaning.specs.Limit.{Allowed};
ghost use Rattle.meaning.specs.Sets.{SetAllowed};
ghost use Rattle.classes.specs.Area.{used, high, class_at, Within};
ghost use Rattle.classes.specs.Classed.{Classed};
ghost use Rattle.classes.specs.Signature.{sig, bucket};
ghost use Rattle.classes.specs.Chain.{new_class, head, link, Placed, Chained, Found, Kept, Rounded};
ghost use Rattle.classes.specs.Stage.{Entered, marked, left_of, left_in, Started, FirstApart, parted_of, Parted, Renewed, Refined};

use meaning::{Limit, LimitSet};

// Set in an entry of the first region where a miss may follow.
pub const MAY_MISS: u16 = 1 << 15;

// The lent work area of n histories: four regions, n entries each, since C lends one array of numbers and there is no
// heap. The first has the classes of the last round, each with the bit of `MAY_MISS`; the second, from n on, has the
// classes of this round, the third the heads of the buckets, the fourth the links. A head or a link is 0, or one more
// than a history: an entry has 16 bits, and no room for an Option.
#[derive(Drop)]
struct Area<'a> {
    work: &'a mut [u16],
    n: usize,
    ghost some_history: { 1 ≤ n },
    ghost fits: { n ≤ high },
    ghost long: { used n ≤ length work.now },
}

impl<'a> Area<'a> {
    ghost use Rattle.classes.specs.Stores.{Stores};

    fn of(n: usize, work: &'a mut [u16]) -> Area<'a>
        requires { (1 ≤ n) × (n ≤ high) × (used n ≤ length work.old) }
        ensures same_reference { result.work.ghost_name ≡ work.entry.ghost_name }
        ensures unchanged { result.work.now ≡ work.old }
        ensures histories { result.n ≡ n }
    {
        Area { work, n }
    }

    fn class_of(&self, h: usize) -> usize
        requires { h < self.now.n }
        ensures { (result ≡ class_at self.now.work.now h) × (result < high) }
    {
        (self.work[h] % MAY_MISS) as usize
    }

    fn head(&self, b: usize) -> usize
        requires { b < self.now.n }
        ensures { result ≡ head self.now.n self.now.work.now b }
    {
        self.work[2 * self.n + b] as usize
    }

    fn link(&self, g: usize) -> usize
        requires { g < self.now.n }
        ensures { result ≡ link self.now.n self.now.work.now g }
    {
        self.work[3 * self.n + g] as usize
    }

    // What the round tells h apart by.
    fn signature(&self, h: usize) -> usize
        requires { h < self.now.n }
        ensures { (result ≡ sig self.now.work.now self.now.n h) × (result < high * (high + 1)) }
    {
        let miss = self.class_of(history::push_index(h, false, self.n));
        let hit = self.class_of(history::push_index(h, true, self.n));
        if self.work[h] < MAY_MISS {
            return hit;
        }
        (miss + 1) * MAY_MISS as usize + hit
    }

    fn bucket_of(&self, s: usize) -> usize
        requires { s < high * (high + 1) }
        ensures { (result ≡ bucket self.now.n s) × (result < self.now.n) }
    {
        (s * 40503 / 65536) & (self.n - 1)
    }

    // The class below h of signature s, by way of its bucket b. The links end at 0, and nothing is counted.
    fn find(&self, h: usize, s: usize, b: usize) -> Option<usize>
        requires { Chained self.now.work.now self.now.n h × (h ≤ self.now.n) × (b < self.now.n) × (b ≡ bucket self.now.n s) }
        ensures { Found self.now.work.now self.now.n h s result }
    {
        let mut next = self.head(b);
        while next != 0 {
            let g = next - 1;
            if self.signature(g) == s {
                return Some(g);
            }
            next = self.link(g);
        }
        None
    }

    // Gives h its class. A class of its own goes to the front of its bucket.
    fn place(&mut self, h: usize)
        requires { Placed self.old.work.now self.old.n h × (h < self.old.n) }
        ensures { Stores (λ n w w'. Placed w' n (h + 1) × Kept n w w') self.old self.new }
    {
        let s = self.signature(h);
        let b = self.bucket_of(s);
        if let Some(class) = self.find(h, s, b) {
            self.work[self.n + h] = class as u16;
            return;
        }
        self.work[self.n + h] = h as u16;
        let head = self.work[2 * self.n + b];
        self.work[3 * self.n + h] = head;
        self.work[2 * self.n + b] = (h + 1) as u16;
    }

    fn clear_heads(&mut self)
        ensures { Stores (λ n w w'. Placed w' n 0 × Kept n w w') self.old self.new }
    {
        self.work[2 * self.n..3 * self.n].fill(0);
    }

    // One round: of each history the least one of the same signature.
    fn round(&mut self)
        ensures { Stores Rounded self.old self.new }
    {
        self.clear_heads();
        for h in 0..self.n {
            self.place(h);
        }
    }

    // Whether the round changed a class.
    fn changed(&self) -> bool
        ensures { result ≡ false → (h : ℕ) → h < self.now.n → new_class self.now.n self.now.work.now h ≡ class_at self.now.work.now h }
    {
        self.work[..self.n]
            .iter()
            .zip(&self.work[self.n..2 * self.n])
            .any(|(last, class)| *class != *last % MAY_MISS)
    }

    // The classes of this round become those of the last.
    fn renew(&mut self)
        requires { (h : ℕ) → h < self.old.n → new_class self.old.n self.old.work.now h < high }
        ensures { Stores Renewed self.old self.new }
    {
        for h in 0..self.n {
            let old = self.work[h];
            let class = self.work[self.n + h];
            self.work[h] = old / MAY_MISS * MAY_MISS + class;
        }
    }

    // One round more, unless it changes nothing: then no later round would.
    fn refine(&mut self) -> bool
        ensures { Stores (λ n w w'. Refined n w w' result) self.old self.new }
    {
        self.round();
        if !self.changed() {
            return false;
        }
        self.renew();
        true
    }

    // Before the first round: a mark for every history, and no class.
    fn mark(&mut self)
        ensures { Stores (λ n w w'. Entered n marked w w') self.old self.new }
    {
        self.work[..self.n].fill(MAY_MISS);
    }

    // Takes the marks of the histories after which a limit allows no miss.
    fn unmark(&mut self, limit: Limit)
        requires { Allowed longest limit }
        ensures { Stores (λ n w w'. Entered n (left_in limit w) w w') self.old self.new }
    {
        for (h, entry) in self.work[..self.n].iter_mut().enumerate() {
            *entry = left_of(limit, h, *entry);
        }
    }

    // Limit by limit: asked history by history, the set would be copied for each. That it is allowed stays a clause,
    // here and below: a set is C's record.
    fn start(&mut self, set: LimitSet)
        requires { SetAllowed longest set }
        ensures { Stores (Started set) self.old self.new }
    {
        self.mark();
        for limit in &set.limits[..set.count] {
            self.unmark(*limit);
        }
    }

    // The least history whose entry isn't that of history 0.
    fn first_apart(&self) -> Option<usize>
        ensures { FirstApart self.now.n self.now.work.now result }
    {
        let first = self.work[0];
        self.work[..self.n].iter().position(|entry| *entry != first)
    }

    // What a first round would make of the marks: one job tells two histories apart only by whether it may be a miss.
    fn part(&mut self)
        requires { (h : ℕ) → h < self.old.n → get_or self.old.work.now h 0 ≤ high }
        ensures { Stores Parted self.old self.new }
    {
        let first = self.work[0];
        let Some(other) = self.first_apart() else {
            return;
        };
        for entry in &mut self.work[..self.n] {
            *entry = parted(first, *entry, other);
        }
    }
}

// What a limit leaves of an entry of the first region.
fn left_of(limit: Limit, h: usize, entry: u16) -> u16
    requires { Allowed longest limit × (h < high) }
    ensures { result ≡ left_of limit h entry }
{
    if history::limit_may_miss(limit, h as u16) {
        return entry;
    }
    0
}

// An entry with its class after one job: history 0, or the least that one job tells apart from it.
fn parted(first: u16, entry: u16, other: usize) -> u16
    requires { (entry ≤ high) × (other ≤ high) × ((entry ≡ first → ⊥) → other < high) }
    ensures { result ≡ parted_of first entry other }
{
    if entry == first {
        return entry;
    }
    entry + other as u16
}

// The classes of the n histories of m outcomes. The area comes as it was lent, a slice, and is an `Area` from here on.
pub fn classes(set: LimitSet, m: usize, n: usize, work: &mut [u16])
    requires { (n ≡ 2 ^ m) × (m ≤ longest - 1) × SetAllowed longest set × (used n ≤ length work.old) }
    ensures { Classed set m work.new × Within n work.old work.new }
{
    let mut area = Area::of(n, work);
    area.start(set);
    area.part();
    for i in 1..m {
        if !area.refine() {
            return;
        }
    }
}
