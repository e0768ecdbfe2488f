// The lot index from a shell: commands from standard input, one a line, on the store in the file that the argument names.
#![tactic(auto)]

ghost use Rattle.std.specs.Prelude.{◌<◌, ◌≤◌, length};

mod arguments;
mod bid;
mod faults;
mod files;
mod input;
mod known;
mod obey;
mod sheet_file;

use std::env::Env;
use std::fs::Files;
use store::{Answer, Done};
use text_lines::LineRead;

// What a line said, and whether it changed the store. Listed: so many rows, and their number. Format is still to be done, so many pages of that size; Stopped: an answer could not be written.
#[derive(Clone, Copy)]
pub enum Outcome {
    Silent,
    Unknown,
    Told(Answer),
    Changed(Answer),
    Listed(usize),
    Format(usize, usize),
    Stopped,
}

#[derive(Clone, Copy)]
pub struct Session {
    // the store: its length, whether it has changed since it was read, and whether it is known to be accepted
    pub len: usize,
    pub changed: bool,
    pub known: bool,
    // the line that is being read, and how many came before it
    pub line: LineRead,
    pub number: usize,
    // how many lines were refused or unknown; whether lines are typed at a terminal
    pub refused: usize,
    pub terminal: bool,
    // the line quit was read; the input is at its end; it cannot be read, or an answer cannot be written
    // Stays: Runs:Turned says of quit what it says where the session is stopped too, which one enum cannot hold at once.
    pub quit: bool,
    pub ended: bool,
    pub stopped: bool,
}

fn main(rt: HostRuntime) {
    let mut path = io::buffer();
    let words = arguments::count(&rt);
    match arguments::word(&rt, 1, &mut path) {
        Some(n) if words < 6 => in_room(&rt, &path[..n], words),
        _ => usage(&rt),
    }
}

fn usage<R: Eprint>(rt: &R) {
    let _ = eprintln!(rt; "usage: lots FILE [terminal | lines [FOLDER [large]]]");
}

// Whether the second word says that lines are typed at a terminal.
fn is_typed<R: Env>(rt: &R) -> bool {
    let mut word = [0u8; 16];
    let Some(n) = arguments::word(rt, 2, &mut word) else {
        return false;
    };
    matches!(&word[..n], b"terminal")
}

// Room for 258 pages of 1,024 bytes and one byte more, so that a longer file shows refusal 1; the fourth word asks for that of 4,098 pages of 16,384 bytes and one
// byte more, for a stack of over 64 MiB.
fn in_room<R: Env + Files + Input + Print + Eprint>(rt: &R, path: &[u8], words: usize)
    requires { length path.now ≤ 4096 }
{
    let terminal = is_typed(rt);
    let turns = turns_left(rt, words);
    if words == 5 {
        work_in::<R, 67141633>(rt, path, terminal, turns);
    } else {
        work_in::<R, 264193>(rt, path, terminal, turns);
    }
}

// None is left: the words of a run do not change. The compiler cannot tell, so that it keeps a function that may call itself apart from `main`, in
// whose frame its room would else stand in every run.
fn turns_left<R: Env>(rt: &R, words: usize) -> usize {
    if arguments::count(rt) == words { 0 } else { 1 }
}

// The run, in a room of that many bytes.
fn work_in<R: Env + Files + Input + Print + Eprint, const ROOM: usize>(
    rt: &R,
    path: &[u8],
    terminal: bool,
    turns: usize,
)
    requires { (length path.now ≤ 4096) × (ROOM < 9223372036854775808) }
{
    let mut store = [0u8; ROOM];
    work(rt, path, &mut store, terminal);
    if turns > 0 {
        work_in::<R, ROOM>(rt, path, terminal, turns - 1);
    }
}

// How many lines were not obeyed.
fn tell_refused<R: Eprint>(rt: &R, n: usize) {
    if n > 0 {
        let _ = eprintln!(rt; "lots: {n} lines refused or unknown");
    }
}

// How many rows the file has now.
fn tell_saved<R: Eprint>(rt: &R, a: Answer) {
    if let Ok(Done::Rows(n)) = a {
        let _ = eprintln!(rt; "saved {n} rows");
    }
}

// Reads the file, if it is there; obeys the input; writes a changed store.
fn work<R: Env + Files + Input + Print + Eprint>(
    rt: &R,
    path: &[u8],
    store: &mut [u8],
    terminal: bool,
)
    requires { length path.now ≤ 4096 }
{
    let Some(len) = files::load(rt, path, store) else {
        return;
    };
    let z = input::run(rt, store, len, terminal);
    tell_refused(rt, z.refused);
    if z.stopped || !z.changed {
        return;
    }
    let store = &store[0..z.len];
    if files::save(rt, path, store) {
        tell_saved(rt, known::count_known(store, z.known));
    }
}
