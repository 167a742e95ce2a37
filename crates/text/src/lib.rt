// Text written into a lent buffer from a place on, as far as the buffer has room: bytes, texts, numbers in decimal and in
// hex. Each writer answers the next place. No `String`: the core has no heap, and `listing-fits` and the replies' bounds are of such buffers.
#![tactic(auto)]

ghost use Rattle.std.specs.Prelude.{◌≡◌, ◌∷◌, [], ◌≤◌};
ghost use Rattle.text.specs.Digits.{decimal, number_text, hex_digit, hex_byte, hex_bytes};
ghost use Rattle.text.specs.Over.{Written};

// A byte at a place, where the buffer has it; the next place.
pub fn put_byte(out: &mut [u8], at: usize, b: u8) -> usize
    ensures { Written out.old at (b ∷ []) out.new result }
{
    if at < out.len() {
        out[at] = b;
        return at + 1;
    }
    at
}

// A text from a place on; the next place.
pub fn put_text(out: &mut [u8], at: usize, text: &[u8]) -> usize
    ensures { Written out.old at text.now out.new result }
{
    let mut to = at;
    for i in 0..text.len() {
        to = put_byte(out, to, text[i]);
    }
    to
}

// A number in decimal: its last digit behind those before it.
pub fn put_decimal(out: &mut [u8], at: usize, n: usize) -> usize
    ensures { Written out.old at (decimal n) out.new result }
{
    if n < 10 {
        return put_byte(out, at, 48 + (n % 10) as u8);
    }
    let to = put_decimal(out, at, n / 10);
    put_byte(out, to, 48 + (n % 10) as u8)
}

// A space and a number.
pub fn put_number(out: &mut [u8], at: usize, n: usize) -> usize
    ensures { Written out.old at (number_text n) out.new result }
{
    let to = put_text(out, at, b" ");
    put_decimal(out, to, n)
}

// A digit in hex.
fn hex_digit(d: u8) -> u8
    requires { d ≤ 15 }
    ensures { result ≡ hex_digit d }
{
    if d < 10 { 48 + d } else { 55 + d }
}

// A byte as two digits in hex.
pub fn put_hex(out: &mut [u8], at: usize, b: u8) -> usize
    ensures { Written out.old at (hex_byte b) out.new result }
{
    let to = put_byte(out, at, hex_digit(b / 16));
    put_byte(out, to, hex_digit(b % 16))
}

// Bytes, each as two digits in hex.
pub fn put_hex_bytes(out: &mut [u8], at: usize, bytes: &[u8]) -> usize
    ensures { Written out.old at (hex_bytes bytes.now) out.new result }
{
    let mut to = at;
    for i in 0..bytes.len() {
        to = put_hex(out, to, bytes[i]);
    }
    to
}
