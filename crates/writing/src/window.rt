// Writing texts one after the other into a lent buffer: each writer passes over what is to be skipped and then writes until the buffer is full.
ghost use Rattle.std.specs.Prelude.{◌≡◌, ◌+◌, ◌≤◌, length};
ghost use Rattle.writing.specs.Window.{Wrote};

use octets::overwrites::overwrite;

// A lent buffer with the place where the next byte goes: `skip` bytes are passed over first, then bytes are stored from `at` on.
#[derive(Drop)]
pub struct Writer<'a> {
    pub out: &'a mut [u8],
    pub skip: usize,
    pub at: usize,
}

impl<'a> Writer<'a> {
    // From the front of the buffer on.
    pub fn new(out: &'a mut [u8]) -> Writer<'a>
        ensures name { result.out.ghost_name ≡ out.entry.ghost_name }
        ensures bytes { result.out.now ≡ out.entry.now }
        ensures skip { result.skip ≡ 0 }
        ensures at { result.at ≡ 0 }
    {
        Writer {
            out,
            skip: 0,
            at: 0,
        }
    }

    // The first `skip` bytes of what is written are passed over, the others stand from the front of the buffer on.
    pub fn passing(out: &'a mut [u8], skip: usize) -> Writer<'a>
        ensures name { result.out.ghost_name ≡ out.entry.ghost_name }
        ensures bytes { result.out.now ≡ out.entry.now }
        ensures skip { result.skip ≡ skip }
        ensures at { result.at ≡ 0 }
    {
        Writer { out, skip, at: 0 }
    }

    // The text. Where nothing is to be skipped and there is room, it is copied whole, so that one of a fixed length is stored without a call.
    #[inline(always)]
    pub fn put(&mut self, text: &[u8])
        ensures { Wrote text.now self.old self.new }
    {
        if self.skip == 0 {
            self.store(text);
        } else if text.len() <= self.skip {
            self.skip -= text.len();
        } else {
            let rest = &text[self.skip..];
            self.skip = 0;
            self.store(rest);
        }
    }

    // The text from `at` on, until the buffer is full.
    #[inline(always)]
    fn store(&mut self, text: &[u8])
        requires { self.old.skip ≡ 0 }
        ensures { Wrote text.now self.old self.new }
    {
        if self.out.len() <= self.at {
            return;
        }
        let room = self.out.len() - self.at;
        if text.len() <= room {
            self.copy(text);
        } else {
            self.copy(&text[..room]);
        }
    }

    // The text, for which there is room.
    #[inline(always)]
    fn copy(&mut self, text: &[u8])
        requires nothing_to_skip { self.old.skip ≡ 0 }
        requires room { self.old.at + length text.now ≤ length self.old.out.now }
        ensures { Wrote text.now self.old self.new }
    {
        let end = self.at + text.len();
        overwrite(self.out, self.at, text);
        self.at = end;
    }
}
