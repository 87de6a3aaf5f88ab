// The states of the table, numbered at first sight: breadth first over the classes of histories, a miss before a hit.
#![tactic(auto)]

ghost use Rattle.std.specs.Prelude.{◌≡◌, false, ◌+◌, ◌≤◌, ◌<◌, length};
ghost use Rattle.machines.specs.Numbering.{place};
ghost use Rattle.classes.specs.Area.{used, high, class_at};
ghost use Rattle.numbering.specs.Work.{OfSomeSet, Ready, NumberedFrom};
ghost use Rattle.numbering.specs.Rows.{Ordered, Visited, possible, Numbering, ReadTo, Cleared};

use classes::MAY_MISS;

// The lent work area of n histories while its classes are numbered, `count` of them so far. The first of its four
// regions has the classes. The third gets the number of each class, 0 for none or one more than the number; the fourth
// the classes in the order of their numbers. A struct shared with `classes` would be public, with a contract for each
// method, for three lines.
#[derive(Drop)]
struct Numbers<'a> {
    work: &'a mut [u16],
    n: usize,
    count: usize,
    ghost some_history: { 1 ≤ n },
    ghost fits: { n ≤ high },
    ghost long: { used n ≤ length work.now },
}

impl<'a> Numbers<'a> {
    ghost use Rattle.numbering.specs.Stores.{Stores};

    fn of(n: usize, work: &'a mut [u16]) -> Numbers<'a>
        requires { (1 ≤ n) × (n ≤ high) × (used n ≤ length work.old) }
        ensures same_reference { result.work.ghost_name ≡ work.entry.ghost_name }
        ensures unchanged { result.work.now ≡ work.old }
        ensures histories { (result.n ≡ n) × (result.count ≡ 0) }
    {
        Numbers { work, n, count: 0 }
    }

    fn clear(&mut self)
        ensures { Stores (λ n w w' count r. Cleared n w w' × (r ≡ count)) self.old self.new }
    {
        self.work[2 * self.n..3 * self.n].fill(0);
    }

    // Numbers the class of a history, where it has no number yet.
    fn visit(&mut self, history: usize)
        requires { (history < self.old.n) × Ready self.old.n self.old.work.now × Ordered self.old.n self.old.work.now self.old.count }
        ensures { Stores (λ n w w' count r. Visited n w w' (class_at w history) count r) self.old self.new }
    {
        let class = (self.work[history] % MAY_MISS) as usize;
        if self.work[2 * self.n + class] != 0 {
            return;
        }
        self.work[2 * self.n + class] = (self.count + 1) as u16;
        self.work[3 * self.n + self.count] = class as u16;
        self.count += 1;
    }

    // Whether an outcome can follow a class: a hit always, a miss where the class has its mark.
    fn may_follow(&self, class: usize, hit: bool) -> bool
        requires { class < self.now.n }
        ensures { result ≡ possible self.now.work.now class hit }
    {
        if hit {
            return true;
        }
        self.work[class] >= MAY_MISS
    }

    // Reads one entry of row i: visits what the outcome leads to, where it is possible.
    fn follow(&mut self, i: usize, hit: bool)
        requires { (i < self.old.count) × Numbering self.old.n self.old.work.now self.old.count (place i hit) }
        ensures { Stores (λ n w w' count r. ReadTo n w w' count r (place i hit + 1)) self.old self.new }
    {
        let class = self.work[3 * self.n + i] as usize;
        if self.may_follow(class, hit) {
            self.visit(history::push_index(class, hit, self.n));
        }
    }

    // Numbers the start alone: the class of the history of hits only.
    fn visit_start(&mut self)
        requires { Ready self.old.n self.old.work.now × (self.old.count ≡ 0) }
        ensures { Stores (λ n w w' count r. ReadTo n w w' 0 r (place 0 false)) self.old self.new }
    {
        self.clear();
        self.visit(self.n - 1);
    }
}

// Numbers every class that is reached, and returns how many they are. The area comes as it was lent. The classes are a
// queue whose end the loop moves, so its bound is no range's.
pub fn number(n: usize, work: &mut [u16]) -> usize
    requires { (n ≤ high) × (used n ≤ length work.old) × OfSomeSet n work.old }
    ensures { NumberedFrom n work.old work.new result }
{
    let mut numbers = Numbers::of(n, work);
    numbers.visit_start();
    let mut i = 0;
    while i < numbers.count {
        numbers.follow(i, false);
        numbers.follow(i, true);
        i += 1;
    }
    numbers.count
}
