// Codes as text.
ghost use Rattle.std.specs.Prelude.{◌≡◌, ◌<◌, ◌≤◌, length, MatchOption};
ghost use Rattle.commands.specs.Codes.{Hex, Unhex, One, Decodes};

use crate::Glyph;

// What a hexadecimal digit is worth.
fn hex_digit(b: u8) -> Option<u8>
    ensures { MatchOption result (Unhex b) (Hex b) }
{
    match b {
        b'0'..=b'9' => Some(b - b'0'),
        b'A'..=b'F' => Some(b - b'A' + 10),
        b'a'..=b'f' => Some(b - b'a' + 10),
        _ => None,
    }
}

// The byte that the text at i writes.
fn glyph_at(w: &[u8], i: usize) -> Option<Glyph>
    requires { i < length w.now }
    ensures { One w.now i result }
{
    let byte = w[i];
    if byte < b'!' || byte > b'~' {
        return None;
    }
    if byte != b'%' {
        return Some(Glyph { byte, size: 1 });
    }
    if w.len() - i < 3 {
        return None;
    }
    let x = hex_digit(w[i + 1])?;
    let y = hex_digit(w[i + 2])?;
    Some(Glyph {
        byte: x * 16 + y,
        size: 3,
    })
}

// The code that a word writes, at the start of the output. A word no longer than the output fits.
pub fn decode(w: &[u8], out: &mut [u8]) -> Option<usize>
    ensures { Decodes w.now out.new result }
{
    let mut i = 0;
    let mut n = 0;
    // Stays: a turn goes on by one byte or by three.
    while i < w.len() {
        let g = glyph_at(w, i)?;
        if n >= out.len() {
            return None;
        }
        out[n] = g.byte;
        n += 1;
        i += g.size;
    }
    Some(n)
}
