// Bytes as hex text, and parts of them.

// The bytes on one line.
pub fn digits<R: Print>(rt: &R, bytes: &[u8]) {
    for x in bytes {
        let _ = print!(rt; " {x:02x}");
    }
    let _ = println!(rt;);
}

// The bytes from a up to e, where there are so many.
pub fn part(bytes: &[u8], a: usize, e: usize) -> &[u8] {
    bytes.get(a..e).unwrap_or(bytes)
}

// Lines of 16 bytes after their offset; those of zeros only are left out.
pub fn lines<R: Print>(rt: &R, bytes: &[u8]) {
    for (i, line) in bytes.chunks_exact(16).enumerate() {
        if !words::all_zero(line) {
            let a = 16 * i;
            let _ = print!(rt; "{a:04x}");
            digits(rt, line);
        }
    }
}
