// Bytes written into a lent buffer, one behind the other. What has no room is left out.
#![tactic(auto)]

ghost use Rattle.std.specs.Prelude.{◌≤◌, length};

// A lent buffer, and how many of its bytes are written: those in front.
#[derive(Drop)]
pub struct Output<'a> {
    pub buffer: &'a mut [u8],
    pub written: usize,
    ghost within: { written ≤ length buffer.now },
}

impl<'a> Output<'a> {
    ghost use Rattle.std.specs.Prelude.{◌≡◌, [], ◌∷◌};
    ghost use Rattle.output.specs.Writes.{Writes};

    // A buffer into which nothing is written yet.
    pub fn new(buffer: &'a mut [u8]) -> Output<'a>
        ensures same { result.buffer.ghost_name ≡ buffer.entry.ghost_name }
        ensures kept { result.buffer.now ≡ buffer.old }
        ensures none { result.written ≡ 0 }
    {
        Output {
            buffer: buffer,
            written: 0,
        }
    }

    // Writes a byte.
    pub fn write_byte(&mut self, byte: u8)
        ensures { Writes (byte ∷ []) self.old self.new }
    {
        if self.written < self.buffer.len() {
            self.buffer[self.written] = byte;
            self.written += 1;
        }
    }

    // Writes a text.
    pub fn write_text(&mut self, text: &[u8])
        ensures { Writes text.now self.old self.new }
    {
        for &byte in text {
            self.write_byte(byte);
        }
    }
}
