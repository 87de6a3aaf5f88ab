// Text put into a lent buffer, one piece after another; what goes past the buffer's end is cut off.
// The pieces have methods of their own, since `write!` promises nothing of what it writes.
ghost use Rattle.printing.specs.Text.{decimal};
ghost use Rattle.printing.specs.Put.{Puts};
ghost use Rattle.std.specs.Prelude.{◌≡◌, [], ◌∷◌};

// A lent buffer, and the place in it where the next piece goes.
#[derive(Drop)]
pub struct Text<'a> {
    out: &'a mut [u8],
    at: usize,
}

impl<'a> Text<'a> {
    pub fn start(out: &'a mut [u8]) -> Text<'a>
        ensures same_reference { result.out.ghost_name ≡ out.entry.ghost_name }
        ensures unchanged { result.out.now ≡ out.old }
        ensures place { result.at ≡ 0 }
    {
        Text { out, at: 0 }
    }

    // How many bytes of the text are there.
    pub fn length(&self) -> usize
        ensures { result ≡ self.now.at }
    {
        self.at
    }

    fn put_byte(&mut self, byte: u8)
        ensures { Puts (byte ∷ []) self.old self.new }
    {
        if self.at < self.out.len() {
            self.out[self.at] = byte;
            self.at += 1;
        }
    }

    pub fn put_text(&mut self, text: &[u8])
        ensures { Puts text.now self.old self.new }
    {
        for &byte in text {
            self.put_byte(byte);
        }
    }

    pub fn put_number(&mut self, n: usize)
        ensures { Puts (decimal n) self.old self.new }
    {
        let mut digits = [0u8; 20];
        let count = io::decimal(n as u64, &mut digits);
        self.put_text(&digits[..count]);
    }
}
