// The line that the plan printer reads.
#![tactic(auto)]

ghost use Rattle.std.specs.Prelude.{◌≡◌, ◌≤◌, [], length, drop, MatchOption};
ghost use Rattle.decimals.specs.Decimal.{Digits, decimal};
ghost use Rattle.lines.specs.Line.{front, most, spaced, ended, field, past, Reads, parsed};

// "v, g and disk" (01).
#[derive(Clone, Copy)]
pub struct Question {
    pub v: u32,
    pub g: u32,
    pub disk: u32,
}

// How many digits stand at the front of a line, nine at most.
fn count_digits(line: &[u8]) -> usize
    ensures { result ≡ length (front most line.now) }
{
    line.iter()
        .take(9)
        .take_while(|x| x.is_ascii_digit())
        .count()
}

// The number that digits stand for, nine at most.
fn number_of(digits: &[u8]) -> u32
    requires digits { Digits digits.now }
    requires nine { length digits.now ≤ most }
    ensures { result ≡ decimal digits.now }
{
    let mut number = 0;
    for x in digits {
        number = number * 10 + u32::from(*x - b'0');
    }
    number
}

// One to nine digits at the front of a line, as their number, and what comes after them.
fn read_number(line: &[u8]) -> Option<(u32, &[u8])>
    ensures { MatchOption result (front most line.now ≡ []) (λ x. Reads (front most line.now) (drop (length (front most line.now)) line.now) x.0 x.1.now) }
{
    let (digits, rest) = line.split_at(count_digits(line));
    if digits.is_empty() {
        return None;
    }
    Some((number_of(digits), rest))
}

// The same if a space follows them, and what comes after the space.
fn read_number_and_space(line: &[u8]) -> Option<(u32, &[u8])>
    ensures { MatchOption result (field spaced line.now ≡ []) (λ x. Reads (field spaced line.now) (past line.now) x.0 x.1.now) }
{
    let (number, rest) = read_number(line)?;
    Some((number, rest.strip_prefix(b" ")?))
}

// Whether nothing comes but a line end.
fn is_end(rest: &[u8]) -> bool
    ensures { result ≡ ended rest.now }
{
    matches!(rest, [] | [b'\n'])
}

// "It reads one line, v, g and disk in decimal, one to nine digits each, with single spaces, with or without a line end" (01).
pub fn parse(line: &[u8]) -> Option<Question>
    ensures { result ≡ parsed line.now }
{
    let (v, rest) = read_number_and_space(line)?;
    let (g, rest) = read_number_and_space(rest)?;
    let (disk, rest) = read_number(rest)?;
    is_end(rest).then_some(Question { v, g, disk })
}
