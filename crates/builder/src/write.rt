// The bytes of the table that a numbered work area holds.
ghost use Rattle.std.specs.Prelude.{◌≡◌, true, false, ◌++◌, ◌+◌, ◌≤◌, ◌<◌, length, take, drop};
ghost use Rattle.numbering.specs.Numbered.{class_of, number_after, move_of, numbered_machine};
ghost use Rattle.table.specs.Bytes.{pair_bytes, entry_of, row_bytes, head_then, bytes_of, size_of};
ghost use Rattle.builder.specs.Rows.{Writable};

use classes::MAY_MISS;

// Writes a number as two bytes, the higher first. The place stands beside the buffer, as in `layout::put_four`.
fn put_two(out: &mut [u8], at: usize, n: u16)
    requires { at + 2 ≤ length out.old }
    ensures { out.new ≡ take at out.old ++ pair_bytes n (drop (at + 2) out.old) }
{
    out[at..at + 2].copy_from_slice(&n.to_be_bytes());
}

// A row: where a miss leads and where a hit does. Both are numbers, since a table has FF FF for a miss that isn't
// allowed.
fn put_row(out: &mut [u8], at: usize, miss: u16, hit: u16)
    requires { at + 4 ≤ length out.old }
    ensures { out.new ≡ take at out.old ++ pair_bytes miss (pair_bytes hit (drop (at + 4) out.old)) }
{
    put_two(out, at, miss);
    put_two(out, at + 2, hit);
}

// The length field, the version and the number of states. Each layout stores these two by itself: a call would be no
// shorter.
fn put_head(out: &mut [u8], n: usize)
    requires { (7 ≤ length out.old) × (n < 65536) }
    ensures { out.new ≡ head_then n (drop 7 out.old) }
{
    layout::put_four(out, 0, 3 + 4 * n);
    out[4] = 1;
    put_two(out, 5, n as u16);
}

// A work area of n histories in which `count` states are numbered: every move of them leads to a numbered class.
#[derive(Clone, Copy)]
struct States<'a> {
    work: &'a [u16],
    n: usize,
    count: usize,
    ghost writable: { Writable n work.now count },
}

impl<'a> States<'a> {
    // The history that a state stands for.
    fn history(self, state: usize) -> usize
        requires { state < self.count }
        ensures { (result ≡ class_of self.entry.n self.entry.work.now state) × (result < self.entry.n) }
    {
        self.work[3 * self.n + state] as usize
    }

    // The number and one of the class that an outcome leads to from a history.
    fn number_after(self, history: usize, hit: bool) -> u16
        requires { history < self.n }
        ensures { result ≡ number_after self.entry.work.now self.entry.n history hit }
    {
        let next = history::push_index(history, hit, self.n);
        let class = (self.work[next] % MAY_MISS) as usize;
        self.work[2 * self.n + class]
    }

    // What the table holds for a miss in a state: where it leads, or that it isn't allowed.
    fn miss_entry(self, state: usize) -> u16
        requires { state < self.count }
        ensures { result ≡ entry_of (move_of self.entry.work.now self.entry.n (class_of self.entry.n self.entry.work.now state) false) }
    {
        let history = self.history(state);
        if self.work[history] < MAY_MISS {
            return table::NO_MISS;
        }
        self.number_after(history, false) - 1
    }

    // Where a hit leads in a state.
    fn hit_entry(self, state: usize) -> u16
        requires { state < self.count }
        ensures { result ≡ entry_of (move_of self.entry.work.now self.entry.n (class_of self.entry.n self.entry.work.now state) true) }
    {
        self.number_after(self.history(state), true) - 1
    }

    // The rows of all states, after the head.
    fn put_rows(self, out: &mut [u8])
        requires { size_of self.count ≤ length out.old }
        ensures { out.new ≡ take 7 out.old ++ (row_bytes (numbered_machine self.entry.n self.entry.work.now self.entry.count) 0 self.entry.count ++ drop (size_of self.entry.count) out.old) }
    {
        for state in 0..self.count {
            let miss = self.miss_entry(state);
            let hit = self.hit_entry(state);
            put_row(out, 7 + 4 * state, miss, hit);
        }
    }
}

// The whole table, of an area as it was lent. What stands past it in the buffer stays.
pub fn write_table(work: &[u16], n: usize, count: usize, out: &mut [u8])
    requires { Writable n work.now count × (size_of count ≤ length out.old) }
    ensures { out.new ≡ bytes_of (numbered_machine n work.now count) ++ drop (size_of count) out.old }
{
    let states = States { work, n, count };
    put_head(out, count);
    states.put_rows(out);
}
