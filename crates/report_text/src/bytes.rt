// Bytes and numbers one behind the other in lent bytes: where there is no room left nothing is stored and the place
// stays.
ghost use Rattle.std.specs.Prelude.{◌≡◌, [], ◌∷◌};
ghost use Rattle.definitions.specs.Report.{decimal};
ghost use Rattle.report_text.specs.Putting.{Puts};

use itoa::Buffer;

#[derive(Drop)]
pub(crate) struct Writer<'a> {
    pub(crate) out: &'a mut [u8],
    // the place behind what is written
    pub(crate) at: usize,
}

// Not `write!` of std: by its contract it may fail, and a report is written whatever is in it.
impl<'a> Writer<'a> {
    pub(crate) fn byte(&mut self, b: u8)
        ensures same_bytes { self.new.out.ghost_name ≡ self.old.out.ghost_name }
        ensures puts { Puts (b ∷ []) self.old.at self.old.out.now self.new.out.now self.new.at }
    {
        if self.at < self.out.len() {
            self.out[self.at] = b;
            self.at += 1;
        }
    }

    pub(crate) fn bytes(&mut self, text: &[u8])
        ensures same_bytes { self.new.out.ghost_name ≡ self.old.out.ghost_name }
        ensures puts { Puts text.now self.old.at self.old.out.now self.new.out.now self.new.at }
    {
        for b in text {
            self.byte(*b);
        }
    }

    pub(crate) fn decimal(&mut self, n: usize)
        ensures same_bytes { self.new.out.ghost_name ≡ self.old.out.ghost_name }
        ensures puts { Puts (decimal n) self.old.at self.old.out.now self.new.out.now self.new.at }
    {
        let mut digits = Buffer::new();
        self.bytes(digits.format(n).as_bytes());
    }
}
