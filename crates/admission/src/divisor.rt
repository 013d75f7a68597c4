// The greatest common divisor, by remainders.
ghost use Rattle.admission.specs.Promise.{DivisorPromise};

pub fn common_divisor(a: u64, b: u64) -> u64
    ensures { DivisorPromise a b result }
{
    let mut x = a;
    let mut y = b;
    while y != 0 {
        let rest = x % y;
        x = y;
        y = rest;
    }
    x
}
