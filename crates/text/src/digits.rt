// The decimal digits of a number.
ghost use Rattle.std.specs.Prelude.{◌≡◌, length};
ghost use Rattle.text.specs.Decimal.{decimal_of};

// How many digits a number has: 0 has one, though no logarithm.
pub(crate) fn count(x: u64) -> usize
    ensures { result ≡ length (decimal_of x) }
{
    x.checked_ilog10().map_or(1, |k| k as usize + 1)
}

// Fills a slice that is as long as the number's decimal with it.
pub(crate) fn fill(slice: &mut [u8], x: u64)
    requires { length slice.old ≡ length (decimal_of x) }
    ensures { slice.new ≡ decimal_of x }
{
    let mut rest = x;
    for at in (0..slice.len()).rev() {
        slice[at] = b'0' + (rest % 10) as u8;
        rest /= 10;
    }
}
