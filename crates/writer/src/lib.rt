// Writes bytes and numbers through a window into a lent buffer.
#![tactic(auto)]

ghost use Rattle.std.specs.Prelude.{◌≡◌};
ghost use Rattle.writer.specs.Text.{digit, decimal};
ghost use Rattle.writer.specs.Window.{writer, start, put, ended_in, ended, written};

// How many bytes are still to be skipped, how many of a buffer are filled, and how many did not fit, which are counted up to `most`.
// The counts are kept apart from the buffer, so that they can be copied and outlast its loan.
#[derive(Clone, Copy)]
pub struct Writer {
    pub skip: usize,
    pub filled: usize,
    pub left: usize,
    pub most: usize,
}

// A writer with the lent buffer that it writes into.
#[derive(Drop)]
pub struct Output<'a> {
    pub writer: Writer,
    pub buf: &'a mut [u8],
}

// The last digit of a number.
fn digit(n: u32) -> u8
    ensures { result ≡ digit n }
{
    b'0' + (n % 10) as u8
}

impl Writer {
    // A writer for the window that starts at `from`, which counts at most so many bytes past its end.
    pub fn new(from: usize, most: usize) -> Writer
        ensures { result ≡ writer from 0 0 most }
    {
        Writer {
            skip: from,
            filled: 0,
            left: 0,
            most,
        }
    }

    // Whether no byte changes anything any more, in a buffer.
    #[tactic(auto, unfolding(crate::specs::Window::ended_in))]
    pub fn ended(self, buf: &[u8]) -> bool
        ensures { result ≡ ended_in self buf.now }
    {
        self.skip == 0 && buf.len() <= self.filled && self.most <= self.left
    }
}

impl<'a> Output<'a> {
    // Such a writer, with the buffer.
    pub fn new(from: usize, most: usize, buf: &'a mut [u8]) -> Output<'a>
        ensures started { result ≡ start from most buf.entry }
        ensures same_reference { result.buf.ghost_name ≡ buf.entry.ghost_name }
    {
        Output {
            writer: Writer::new(from, most),
            buf,
        }
    }

    // One byte.
    #[tactic(auto, unfolding(crate::specs::Window::put))]
    pub fn put(&mut self, b: u8)
        ensures { self.new ≡ put b self.old }
    {
        if self.writer.skip != 0 {
            self.writer.skip -= 1;
            return;
        }
        let at = self.writer.filled;
        if at < self.buf.len() {
            self.buf[at] = b;
            self.writer.filled = at + 1;
            return;
        }
        if self.writer.left < self.writer.most {
            self.writer.left += 1;
        }
    }

    // Whether no byte changes anything any more.
    #[tactic(auto, unfolding(crate::specs::Window::ended))]
    pub fn ended(&self) -> bool
        ensures { result ≡ ended self.now }
    {
        self.writer.ended(self.buf)
    }

    // A number in decimal.
    pub fn number(&mut self, n: u32)
        ensures { self.new ≡ written (decimal n) self.old }
    {
        if 10 <= n {
            self.number(n / 10);
        }
        self.put(digit(n));
    }

    // A slice's bytes.
    pub fn bytes(&mut self, s: &[u8])
        ensures { self.new ≡ written s.now self.old }
    {
        for b in s {
            self.put(*b);
        }
    }
}
