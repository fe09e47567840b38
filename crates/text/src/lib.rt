// Text in a lent slice: each function writes at a place and answers the place behind.
#![tactic(auto)]

ghost use Rattle.std.specs.Prelude.{◌≡◌, ◌++◌, map, ◌+◌, ◌*◌, ◌<◌, ◌≤◌, length};
ghost use Rattle.std.specs.Int.Signed.{mag};
ghost use Rattle.defs.specs.Lists.{concat};
ghost use Rattle.text.specs.Printed.{decimal, signed, printed_byte, printed_sequence};
ghost use Rattle.text.specs.Printed.{digit as digit_of, surplus as surplus_of};
ghost use Rattle.text.specs.Put.{TextPut};

// The code of a digit below 16.
fn digit(d: u32) -> u8
    requires { d < 16 }
    ensures { result ≡ digit_of d }
{
    if d < 10 { 48 + d as u8 } else { 87 + d as u8 }
}

// The digits before the last one first.
fn put_digits(text: &mut [u8], at: usize, x: u32) -> usize
    requires { at + length (decimal x) ≤ length text.old }
    ensures { TextPut (length (decimal x)) (decimal x) text.old at result text.new }
{
    if x < 10 {
        text[at] = digit(x);
        return at + 1;
    }
    let last = put_digits(text, at, x / 10);
    text[last] = digit(x % 10);
    last + 1
}

// A number in decimal, of at most ten digits.
pub fn put_decimal(text: &mut [u8], at: usize, x: u32) -> usize
    requires { at + 10 ≤ length text.old }
    ensures { TextPut 10 (decimal x) text.old at result text.new }
{
    put_digits(text, at, x)
}

// Edges minus vertices; may be below zero.
pub fn surplus(edges: usize, vertices: usize) -> i32
    requires { (edges < 65536) × (vertices < 65536) }
    ensures { (result ≡ surplus_of edges vertices) × (mag result < 65536) }
{
    (edges as i32) - (vertices as i32)
}

// A number with its sign.
pub fn put_signed(text: &mut [u8], at: usize, x: i32) -> usize
    requires { (at + 11 ≤ length text.old) × (mag x < 65536) }
    ensures { TextPut 11 (signed x) text.old at result text.new }
{
    if x < 0 {
        text[at] = b'-';
        return put_decimal(text, at + 1, (0 - x) as u32);
    }
    put_decimal(text, at, x as u32)
}

pub fn put_bytes(text: &mut [u8], at: usize, s: &[u8]) -> usize
    requires { at + length s.now ≤ length text.old }
    ensures { TextPut (length s.now) s.now text.old at result text.new }
{
    let behind = at + s.len();
    text[at..behind].copy_from_slice(s);
    behind
}

// A name and a number.
pub fn put_field(text: &mut [u8], at: usize, name: &[u8], x: u32) -> usize
    requires { at + length name.now + 10 ≤ length text.old }
    ensures { TextPut (length name.now + 10) (name.now ++ decimal x) text.old at result text.new }
{
    let behind = put_bytes(text, at, name);
    put_decimal(text, behind, x)
}

// A letter as it is, any other byte as \x and two digits.
fn put_byte(text: &mut [u8], at: usize, b: u8) -> usize
    requires { at + 4 ≤ length text.old }
    ensures { TextPut 4 (printed_byte b) text.old at result text.new }
{
    if b.is_ascii_alphabetic() {
        text[at] = b;
        return at + 1;
    }
    text[at] = b'\\';
    text[at + 1] = b'x';
    text[at + 2] = digit((b / 16) as u32);
    text[at + 3] = digit((b % 16) as u32);
    at + 4
}

// Each byte in turn.
fn put_each(text: &mut [u8], at: usize, s: &[u8]) -> usize
    requires { at + 4 * length s.now ≤ length text.old }
    ensures { TextPut (4 * length s.now) (concat (map printed_byte s.now)) text.old at result text.new }
{
    let mut to = at;
    for b in s {
        to = put_byte(text, to, *b);
    }
    to
}

// The bytes of a sequence; a dot where there are none.
pub fn put_sequence(text: &mut [u8], at: usize, s: &[u8]) -> usize
    requires { at + 4 * length s.now + 1 ≤ length text.old }
    ensures { TextPut (4 * length s.now + 1) (printed_sequence s.now) text.old at result text.new }
{
    if s.is_empty() {
        return put_bytes(text, at, b".");
    }
    put_each(text, at, s)
}
