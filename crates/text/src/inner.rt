// Writers behind a check of the room already made, for a buffer that is lent and so is no `Text`: text, a
// number in decimal, and a number of 32 bits as bytes.
ghost use Rattle.std.specs.Prelude.{◌≡◌, ◌+◌, ◌≤◌, length};
ghost use Rattle.text.specs.Decimal.{decimal_of};
ghost use Rattle.text.specs.Written.{written};
ghost use Rattle.text.specs.Word.{word_bytes};

use crate::digits;

// Writes the text from the place `at` on, and answers the place after it.
pub fn put_text(buf: &mut [u8], at: usize, text: &[u8]) -> usize
    requires { at + length text.now ≤ length buf.old }
    ensures value { result ≡ at + length text.now }
    ensures buf_after { buf.new ≡ written buf.old at text.now }
{
    let end = at + text.len();
    buf[at..end].copy_from_slice(text);
    end
}

// Writes a number in decimal from the place `at` on, and answers the place after it.
pub fn put_decimal(buf: &mut [u8], at: usize, x: u64) -> usize
    requires { at + length (decimal_of x) ≤ length buf.old }
    ensures value { result ≡ at + length (decimal_of x) }
    ensures buf_after { buf.new ≡ written buf.old at (decimal_of x) }
{
    let end = at + digits::count(x);
    digits::fill(&mut buf[at..end], x);
    end
}

// Writes the number from the place `at` on, low byte first, and answers the place after it.
pub fn put_word(buf: &mut [u8], at: usize, x: u32) -> usize
    requires { at + 4 ≤ length buf.old }
    ensures value { result ≡ at + 4 }
    ensures buf_after { buf.new ≡ written buf.old at (word_bytes x) }
{
    let end = at + 4;
    buf[at..end].copy_from_slice(&x.to_le_bytes());
    end
}
