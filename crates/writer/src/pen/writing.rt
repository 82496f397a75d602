// How a pen writes.
ghost use Rattle.std.specs.Prelude.{◌≡◌, ◌≤◌, [], length, decimal};
ghost use Rattle.writer.specs.Bytes.{written, ahead, loan, Wrote, Added};

use super::Pen;

// Writes the bytes at the front.
fn put_bytes(out: &mut [u8], bytes: &[u8])
    requires { length bytes.now ≤ length out.old }
    ensures { Wrote out.old out.new bytes.now }
{
    out[..bytes.len()].copy_from_slice(bytes);
}

#[tactic(auto, unfolding(crate::specs::Bytes::written, crate::specs::Bytes::ahead))]
impl<'a> Pen<'a> {
    // A pen that has written nothing.
    pub(crate) fn over(out: &'a mut [u8]) -> Pen<'a>
        ensures written { written result ≡ [] }
        ensures ahead { ahead result ≡ out.old }
        ensures loan { loan result ≡ out.entry.ghost_name }
    {
        Pen { out, at: 0 }
    }

    // Writes the bytes.
    pub(crate) fn bytes(&mut self, bytes: &[u8])
        requires { length bytes.now ≤ length (ahead self.old) }
        ensures added { Added self.old bytes.now self.new }
        ensures loan { loan self.new ≡ loan self.old }
    {
        let at = self.at;
        put_bytes(&mut self.out[at..], bytes);
        self.at = at + bytes.len();
    }

    // Writes a number in decimal: by hand, since the library `itoa` would be one more to trust.
    pub(crate) fn decimal(&mut self, n: u32)
        requires { length (decimal n) ≤ length (ahead self.old) }
        ensures added { Added self.old (decimal n) self.new }
        ensures loan { loan self.new ≡ loan self.old }
    {
        if n < 10 {
            self.bytes(&[b'0' + n as u8]);
            return;
        }
        self.decimal(n / 10);
        self.bytes(&[b'0' + (n % 10) as u8]);
    }

    // How many bytes are written.
    pub(crate) fn len(&self) -> usize
        ensures { result ≡ length (written self.now) }
    {
        self.at
    }
}

// How many digits a number has.
pub(crate) fn digit_count(n: u32) -> usize
    ensures is { result ≡ length (decimal n) }
    ensures few { result ≤ 10 }
{
    if n < 10 { 1 } else { digit_count(n / 10) + 1 }
}
