// The decimal of a number: its digits counted, and written into a buffer.
#![tactic(auto)]

ghost use Rattle.std.specs.Prelude.{◌≡◌, ◌+◌, ◌≤◌, ◌<◌, length};
ghost use Rattle.decimals.specs.Decimal.{decimal};
ghost use Rattle.decimals.specs.Placed.{placed};

// How many digits the decimal of a number has, of at most four.
pub fn digit_count(n: u32) -> usize
    requires { n < 10000 }
    ensures { result ≡ length (decimal n) }
{
    if n < 10 {
        return 1;
    }
    if n < 100 {
        return 2;
    }
    if n < 1000 {
        return 3;
    }
    4
}

// Writes the decimal of `n` from a place on, and says the place after it.
pub fn put_number(buf: &mut [u8], at: usize, n: u32) -> usize
    requires { at + length (decimal n) ≤ length buf.old }
    ensures { (result ≡ at + length (decimal n)) × (buf.new ≡ placed buf.old at (decimal n)) }
{
    if n < 10 {
        buf[at] = b'0' + n as u8;
        return at + 1;
    }
    let next = put_number(buf, at, n / 10);
    buf[next] = b'0' + (n % 10) as u8;
    next + 1
}
