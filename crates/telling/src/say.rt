// Lines on standard output, each in one write, but those of a list page by page; and what failed, on standard error.
ghost use Rattle.std.specs.Prelude.{◌≤◌, length};

use commands::Fault;
use std::io;
use std::io::Write;
use store::Answer;

// What stands behind the system's own words in an error's text, before its number.
const BEFORE_NUMBER: &str = " (os error ";

// The system's words for an error, without its number.
fn words_of(text: &str) -> &str {
    text.rsplit_once(BEFORE_NUMBER)
        .map_or(text, |(words, _)| words)
}

// The error's text at the start of the buffer, as far as there is room; its length.
fn error_text(e: io::Error, out: &mut [u8]) -> usize
    ensures { result ≤ length out.new }
{
    let room = out.len();
    let mut rest = &mut *out;
    let _ = write!(rest, "{e}");
    let left = rest.len();
    room.saturating_sub(left)
}

// A line on standard error: what failed, and the system's words for why.
pub fn failure<R: Eprint>(rt: &R, what: &str, e: io::Error) {
    let mut buffer = [0u8; 128];
    let n = error_text(e, &mut buffer);
    let text = std::str::from_utf8(&buffer[0..n]).unwrap_or("an error");
    let words = words_of(text);
    let _ = eprintln!(rt; "{what}: {words}");
}

// Whether the text could be written; if not, that is said.
pub fn text<R: Print + Eprint>(rt: &R, bytes: &[u8]) -> bool {
    rt.write_all(bytes)
        .map_err(|e| failure(rt, "standard output", e))
        .is_ok()
}

// The answer to the line of that number; of a row the code stands in the buffer.
pub fn answer<R: Print + Eprint>(rt: &R, a: Answer, code: &[u8], number: usize) -> bool
    requires { length code.now ≤ 64 }
{
    let mut line = [0u8; 320];
    let n = commands::answer_line(a, code, number, &mut line);
    text(rt, &line[0..n])
}

// Why the line of that number is not obeyed.
pub fn fault<R: Print + Eprint>(rt: &R, f: Fault, number: usize) -> bool {
    let mut line = [0u8; 128];
    let n = commands::fault_line(f, number, &mut line);
    text(rt, &line[0..n])
}

// A word and a number, which is what is told and no length.
// Stays: the line is built in a buffer of the frame, with no heap.
pub fn number<R: Print + Eprint>(rt: &R, word: &[u8], n: usize) -> bool
    requires { length word.now ≤ 10 }
{
    let mut line = [0u8; 32];
    let k = commands::number_line(word, n, &mut line);
    text(rt, &line[0..k])
}

// Before a line is typed.
pub fn prompt<R: Print>(rt: &R, terminal: bool) {
    if terminal {
        let _ = rt.write_all(b"lots> ");
    }
}

pub fn help<R: Print + Eprint>(rt: &R) -> bool {
    text(
        rt,
        b"format N [SIZE] [anew] (SIZE 1024, 4096 or 16384) | put, add, move CODE PAGE SLOT VOLUME | lookup CODE | remove CODE\n",
    ) && text(
        rt,
        b"count | row N | list | check | counts | inspect PAGE | report SHEET | help | quit (or Ctrl-D: ends and saves)\n",
    )
}
