// Lines of lowercase hexadecimal and the bytes that they stand for. What a digit is, and which bytes a line has, is in specs/Hex.antt.
// The loops have no way out but their end, so that the compiler can do several characters at once.
#![tactic(auto)]

ghost use Rattle.std.specs.Prelude.{true, ◌≡◌, ◌*◌, ◌/◌, ◌≤◌, ◌<◌, length};
ghost use Rattle.lists.specs.Written.{Wrote};
ghost use Rattle.frame_hex.specs.Hex.{hex_digit, digit_value_of, digit_of, hex_line, byte_of, bytes_of, hex_of};

use lists::write;

fn hex_digit(c: u8) -> bool
    ensures { result ≡ hex_digit c }
{
    matches!(c, b'0'..=b'9' | b'a'..=b'f')
}

// Whether the line has digits only, and an even number of them.
pub fn hex_line(line: &[u8]) -> bool
    ensures { result ≡ hex_line line.now }
{
    let mut digits = true;
    for &c in line {
        digits &= hex_digit(c);
    }
    digits && line.len() % 2 == 0
}

// The number that a digit stands for.
fn value_of(c: u8) -> u8
    requires { hex_digit c ≡ true }
    ensures { (result ≡ digit_value_of c) × (result < 16) }
{
    if c <= b'9' { c - b'0' } else { c - b'a' + 10 }
}

// Byte i of the line.
fn byte_of(line: &[u8], i: usize) -> u8
    requires { (hex_line line.now ≡ true) × (i < length line.now / 2) }
    ensures { result ≡ byte_of line.now i }
{
    let high = value_of(line[2 * i]);
    let low = value_of(line[2 * i + 1]);
    16 * high + low
}

// The bytes of the line, from the first place on. The loop counts: over `iter_mut` its record has a part's items, and Wrote speaks of the whole list.
pub fn take_bytes(line: &[u8], bytes: &mut [u8])
    requires { (hex_line line.now ≡ true) × (length line.now / 2 ≤ length bytes.old) }
    ensures { Wrote bytes.old 0 (bytes_of line.now) bytes.new }
{
    for i in 0..line.len() / 2 {
        bytes[i] = byte_of(line, i);
    }
}

// The digit that stands for a number below 16.
fn digit_of(v: u8) -> u8
    requires { v < 16 }
    ensures { result ≡ digit_of v }
{
    if v < 10 { b'0' + v } else { b'a' + (v - 10) }
}

// The line of these bytes, from the first place on.
pub fn put_hex(bytes: &[u8], line: &mut [u8])
    requires { 2 * length bytes.now ≤ length line.old }
    ensures { Wrote line.old 0 (hex_of bytes.now) line.new }
{
    for (i, &byte) in bytes.iter().enumerate() {
        write(line, 2 * i, digit_of(byte / 16));
        write(line, 2 * i + 1, digit_of(byte % 16));
    }
}
