// Numbers in plain decimal.
ghost use Rattle.std.specs.Prelude.{◌≡◌, ◌≤◌, ◌<◌, ◌^◌, pos, neg_ℤ};
ghost use Rattle.commands.specs.Numbers.{ReadsNumber, ReadsSigned, Worth};

// What a digit is worth.
fn digit(b: u8) -> Option<usize>
    ensures { Worth b result }
{
    match b {
        b'0'..=b'9' => Some((b - b'0') as usize),
        _ => None,
    }
}

// The number that a word writes, if 64 bits hold it.
pub fn read_number(w: &[u8]) -> Option<usize>
    ensures { ReadsNumber w.now result }
{
    if w.is_empty() {
        return None;
    }
    let mut n: usize = 0;
    for b in w {
        let d = digit(*b)?;
        n = n.checked_mul(10)?.checked_add(d)?;
    }
    Some(n)
}

fn minus(n: usize) -> i64
    requires { n ≤ 2 ^ 63 }
    ensures { result ≡ neg_ℤ (pos n) }
{
    // Stays: the size of the least number is none of i64, so that there is nothing to negate.
    if n == 0 { 0 } else { -1 - (n - 1) as i64 }
}

// The number from -most - 1 to most that a word writes.
pub fn read_signed(w: &[u8], most: usize) -> Option<i64>
    requires { most < 2 ^ 63 }
    ensures { ReadsSigned w.now most result }
{
    if let [b'-', digits @ ..] = w {
        let n = read_number(digits)?;
        return if n > most + 1 { None } else { Some(minus(n)) };
    }
    let n = read_number(w)?;
    if n > most { None } else { Some(n as i64) }
}
