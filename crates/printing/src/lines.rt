// The lines that are printed: one for a refusal, or one for the count of states and one for each state of a table.
// Each ends with one newline.
ghost use Rattle.std.specs.Prelude.{◌≡◌, true, false};
ghost use Rattle.layout.specs.Refusal.{passed, first};
ghost use Rattle.layout.specs.Refused.{number_of, beside};
ghost use Rattle.table.specs.Bytes.{state_count, machine_of};
ghost use Rattle.table.specs.Rows.{table_rows, look_rows};
ghost use Rattle.table.specs.Check.{reached, move_by};
ghost use Rattle.printing.specs.Text.{move_text, line_of, state_line, state_lines, head_line, refusal_text, text_when};
ghost use Rattle.printing.specs.Put.{Puts};

use crate::put::Text;
use layout::Refused;
use table::Moves;

impl<'a> Text<'a> {
    // As `refused 3 at 0`.
    pub fn put_refusal(&mut self, refused: Refused)
        ensures { Puts (refusal_text (number_of refused) (beside refused)) self.old self.new }
    {
        self.put_text(b"refused ");
        self.put_number(refused.number() as usize);
        self.put_text(b" at ");
        self.put_number(refused.at());
        self.put_text(b"\n");
    }

    // As `states 2`.
    fn put_head(&mut self, n: usize)
        ensures { Puts (head_line n) self.old self.new }
    {
        self.put_text(b"states ");
        self.put_number(n);
        self.put_text(b"\n");
    }

    // Where a miss leads, or `-` where it isn't allowed.
    fn put_miss(&mut self, miss: Option<u16>)
        ensures { Puts (move_text (reached miss)) self.old self.new }
    {
        match miss {
            Some(state) => self.put_number(state as usize),
            None => self.put_text(b"-"),
        }
    }

    // As `0 1 0`.
    fn put_moves(&mut self, state: u16, moves: Moves)
        ensures { Puts (line_of state (move_by moves false) (move_by moves true)) self.old self.new }
    {
        self.put_number(state as usize);
        self.put_text(b" ");
        self.put_miss(moves.miss);
        self.put_text(b" ");
        self.put_number(moves.hit as usize);
        self.put_text(b"\n");
    }

    fn put_state(&mut self, bytes: &[u8], state: u16)
        requires { first (look_rows bytes.now state) ≡ passed }
        ensures { Puts (state_line (machine_of bytes.now) state) self.old self.new }
    {
        if let Ok(moves) = table::look(bytes, state) {
            self.put_moves(state, moves);
        }
    }

    fn put_states(&mut self, bytes: &[u8], n: usize)
        requires { (first (table_rows bytes.now) ≡ passed) × (n ≡ state_count bytes.now) }
        ensures { Puts (state_lines (machine_of bytes.now) 0 n) self.old self.new }
    {
        for state in 0..n {
            self.put_state(bytes, state as u16);
        }
    }

    // The text of a table, which is tested first.
    pub fn put_table(&mut self, bytes: &[u8])
        ensures { Puts (text_when (first (table_rows bytes.now)) (machine_of bytes.now)) self.old self.new }
    {
        match table::check_table(bytes) {
            Ok(n) => {
                self.put_head(n);
                self.put_states(bytes, n);
            }
            Err(refused) => self.put_refusal(refused),
        }
    }
}
