// Where items stand, and the numbers among them.
ghost use Rattle.std.specs.Prelude.{◌≡◌, true, ◌+◌, ◌-◌, ◌*◌, ◌≤◌, ◌<◌, ◌≢◌, length, take_while, get_or, drop};
ghost use Rattle.names.specs.Numerals.{is_digit};
ghost use Rattle.kinds.specs.Words.{byte};
ghost use Rattle.clauses.specs.Items.{is_separator};
ghost use Rattle.clause_items.specs.Found.{largest, capped, gap, number_at};

use names::forms::is_digit;

// A number and where it ends.
#[derive(Clone, Copy)]
pub struct Number {
    pub value: usize,
    pub to: usize,
}

#[derive(Clone, Copy)]
pub struct Largest;

impl Largest {
    // Past every limit; what is larger counts as this.
    pub const NUMBER: usize = 65535;
}

pub fn is_separator(b: u8) -> bool
    ensures { result ≡ is_separator b }
{
    b == b' ' || b == b'\n'
}

// How many separators stand at the front.
fn gap(s: &[u8]) -> usize
    ensures { result ≡ length (take_while is_separator s.now) }
{
    s.iter().take_while(|b| is_separator(**b)).count()
}

// The place of the next item, or the line's end.
pub fn skip(line: &[u8], at: usize) -> usize
    requires { at ≤ length line.now }
    ensures { result ≡ at + gap (drop at line.now) }
{
    at + gap(&line[at..])
}

// The value with one digit more.
fn with_digit(value: usize, b: u8) -> usize
    requires { (value ≤ largest) × (is_digit b ≡ true) }
    ensures { result ≡ capped (10 * value + (b - byte "0")) }
{
    let more = 10 * value + usize::from(b - b'0');
    more.min(Largest::NUMBER)
}

// A 0 stands alone.
fn zero_at(line: &[u8], at: usize) -> Option<Number>
    requires { (at < length line.now) × (get_or line.now at 0 ≡ byte "0") }
    ensures { result ≡ number_at at (drop at line.now) }
{
    let to = at + 1;
    if line.len() <= to || is_separator(line[to]) {
        return Some(Number { value: 0, to });
    }
    None
}

// A number whose first digit is not 0.
fn digits_at(line: &[u8], at: usize) -> Option<Number>
    requires { (at < length line.now) × (is_digit (get_or line.now at 0) ≡ true) × (get_or line.now at 0 ≢ byte "0") }
    ensures { result ≡ number_at at (drop at line.now) }
{
    let mut value: usize = 0;
    for (n, b) in line[at..].iter().enumerate() {
        if !is_digit(*b) {
            if is_separator(*b) {
                let to = at + n;
                return Some(Number { value, to });
            }
            return None;
        }
        value = with_digit(value, *b);
    }
    let to = line.len();
    Some(Number { value, to })
}

pub fn number_at(line: &[u8], at: usize) -> Option<Number>
    requires { at ≤ length line.now }
    ensures { result ≡ number_at at (drop at line.now) }
{
    let first = *line.get(at)?;
    if first == b'0' {
        return zero_at(line, at);
    }
    if is_digit(first) {
        return digits_at(line, at);
    }
    None
}
