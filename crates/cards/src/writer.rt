// Texts written into an output.
ghost use Rattle.cards.specs.Writers.{Writes, writer_laws};

use crate::sink::Sink;
use itoa::Buffer;

// The output, and where the next text goes. A text without room is left out.
// The output is kept whole, and no rest of it that shrinks: what a caller learns of it, it learns of the slice that it lent.
#[derive(Drop)]
pub(crate) struct Writer<'a> {
    pub(crate) output: &'a mut [u8],
    pub(crate) at: usize,
}

impl Sink for Writer<'_> {
    ghost puts = { Writes };

    #[inline]
    fn put(&mut self, text: &[u8]) {
        let end = self.at.saturating_add(text.len());
        if end <= self.output.len() {
            self.output[self.at..end].copy_from_slice(text);
            self.at = end;
        }
    }

    // Few digits need no buffer: made ready for each number, it costs more than they do.
    #[inline]
    fn put_decimal(&mut self, n: u64) {
        if n < 10 {
            self.put(&[b'0' + n as u8]);
        } else if n < 100 {
            self.put(&[b'0' + (n / 10) as u8, b'0' + (n % 10) as u8]);
        } else {
            self.put(Buffer::new().format(n).as_bytes());
        }
    }

    #[inline]
    fn put_next(&mut self, n: u64) {
        if n < 10 {
            self.put(&[b',', b'0' + n as u8]);
        } else if n < 100 {
            self.put(&[b',', b'0' + (n / 10) as u8, b'0' + (n % 10) as u8]);
        } else {
            self.put(b",");
            self.put(Buffer::new().format(n).as_bytes());
        }
    }

    ghost laws = { writer_laws };
}
