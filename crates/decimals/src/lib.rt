// Triples as lines of decimals, at the front of lent bytes.
#![tactic(auto)]

ghost use Rattle.std.specs.Prelude.{◌≡◌, ◌++◌, ◌≤◌, length, drop};
ghost use Rattle.decimals.specs.Decimal.{decimal_of, followed, line_of, lines_of};

// Each function here puts its text at the front of `out` and returns how many bytes it is; the rest of `out` stays.

// The decimal of n: the higher digits first, then the last one.
fn put_decimal(out: &mut [u8], n: u32) -> usize
    requires { length (decimal_of n) ≤ length out.old }
    ensures { (result ≡ length (decimal_of n)) × (out.new ≡ decimal_of n ++ drop result out.old) }
{
    if n < 10 {
        out[0] = b'0' + n as u8;
        return 1;
    }
    let end = put_decimal(out, n / 10);
    out[end] = b'0' + (n % 10) as u8;
    end + 1
}

// A number, and the byte after it.
pub fn put_number(out: &mut [u8], n: u32, by: u8) -> usize
    requires { length (followed n by) ≤ length out.old }
    ensures { (result ≡ length (followed n by)) × (out.new ≡ followed n by ++ drop result out.old) }
{
    let last = put_decimal(out, n);
    out[last] = by;
    last + 1
}

// A triple on a line.
fn put_line(out: &mut [u8], x: u32, y: u32, z: u32) -> usize
    requires { length (line_of x y z) ≤ length out.old }
    ensures { (result ≡ length (line_of x y z)) × (out.new ≡ line_of x y z ++ drop result out.old) }
{
    let second = put_number(out, x, b' ');
    let third = second + put_number(&mut out[second..], y, b' ');
    third + put_number(&mut out[third..], z, b'\n')
}

// 01: "prints one triple a line": the lines of the list's triples.
pub fn render(list: &[u32], out: &mut [u8]) -> usize
    requires { length (lines_of list.now) ≤ length out.old }
    ensures { (result ≡ length (lines_of list.now))
        × (out.new ≡ lines_of list.now ++ drop result out.old) }
{
    let (triples, _) = list.as_chunks::<3>();
    let mut at = 0;
    for [x, y, z] in triples {
        at += put_line(&mut out[at..], *x, *y, *z);
    }
    at
}
