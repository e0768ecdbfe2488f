// The input taken apart into lines, and what is kept from one to the next.
ghost use Rattle.std.specs.Prelude.{◌≡◌, ◌≤◌, true, ◌⊎◌, [], ◌∷◌, length, MatchOption};
ghost use Rattle.ground.specs.Says.{Says};
ghost use Rattle.lots.specs.Runs.{Aside, BeforeAnew, Brought, Feeds, LineTurned, Ran, Turned, WordsTurned};
ghost use Rattle.lots.specs.Sessions.{After, Alike, AsRead, SessionBegins, FormatAsked, FormatTold, Kept, LacksRoom, Learnt, lent_for, most_pages, NextLine, SessionHolds, SessionReads};

use super::{known, obey};
use crate::{Outcome, Session};
use commands::Fault;
use std::env::Env;
use std::fs::Files;
use std::io::Read;
use telling::say;
use text_lines::LineRead;

// How many bytes are lent for a store of n pages of a size; none where that is no store, or there is no room.
fn length_of(n: usize, size: usize, most: usize) -> usize
    ensures { (result ≡ lent_for most n size) × (result ≤ most) }
{
    // Stays: the call is made on no byte then, as Sessions:FormatAsked says, so that 0 is the length that is lent.
    if n > 4098 {
        return 0;
    }
    if size > 16384 {
        return 0;
    }
    let len = n * size;
    if len > most { 0 } else { len }
}

// What a line did, marked.
fn marked(z: Session, o: Outcome) -> Session
    ensures { After z o result }
{
    let mut y = z;
    match o {
        Outcome::Changed(_) => y.changed = true,
        Outcome::Stopped => y.stopped = true,
        _ => {}
    }
    y
}

// A line that was not obeyed is counted.
fn counted(z: Session, more: usize) -> Session
    ensures { Alike z result × AsRead z result }
{
    let mut y = z;
    y.refused = std::num::wrapping_add_usize(y.refused, more);
    y
}

// What a line did, kept.
fn after(z: Session, o: Outcome) -> Session
    ensures { After z o result }
{
    marked(counted(z, obey::faults_in(o)), o)
}

// A store of n pages of a size in the place of the old one, unless that is refused.
fn format<R: Print + Eprint>(rt: &R, store: &mut [u8], z: Session, n: usize, size: usize) -> Session
    requires { SessionHolds z store.old }
    ensures { Kept z store.old result store.new × AsRead z result × FormatAsked n size z store.old result store.new }
{
    let len = length_of(n, size, store.len());
    let a = directory::format(&mut store[0..len], size);
    let mut y = after(z, obey::wrote(rt, a, z.number));
    if obey::is_done(a) {
        y.len = len;
        y.known = true;
    }
    y
}

// Whether a format may clear what there is: there is nothing, or the word anew is said.
fn may_clear(len: usize, anew: bool) -> bool
    ensures { Says result ((len ≡ 0) ⊎ (anew ≡ true)) }
{
    anew || len == 0
}

// How many pages a store of a larger page size has at most; none of another size.
fn most_pages(size: usize) -> usize
    ensures { (result ≡ most_pages size) × (result ≤ 4098) }
{
    // Stays: tried as a match; its last arm does not tell the proof which sizes are out, and that did not close.
    if size == 4096 {
        return 1026;
    }
    if size == 16384 {
        return 4098;
    }
    0
}

// Whether n pages of a size would be a store, but one that the buffer has no room for.
fn lacks_room(n: usize, size: usize, most: usize) -> bool
    ensures { Says result (LacksRoom most n size) }
{
    if size > 16384 {
        return false;
    }
    if n > most_pages(size) {
        return false;
    }
    most < n * size
}

// A format of n pages of a size that a line asks.
fn ask_format<R: Print + Eprint>(
    rt: &R,
    store: &mut [u8],
    z: Session,
    n: usize,
    size: usize,
    anew: bool,
) -> Session
    requires { SessionHolds z store.old }
    ensures { Kept z store.old result store.new × AsRead z result × FormatTold n size anew z store.old result store.new }
{
    if !may_clear(z.len, anew) {
        return after(z, obey::unknown(rt, Fault::Filled, z.number));
    }
    if lacks_room(n, size, store.len()) {
        return after(z, obey::unknown(rt, Fault::Room, z.number));
    }
    format(rt, store, z, n, size)
}

// Where ` anew` stands at the end of a format, or the end.
// Stays: an index and no Option, of which Running:without says what stands before it, and whether anew is said.
fn before_anew(line: &[u8]) -> usize
    ensures { BeforeAnew line.now result }
{
    match line.strip_suffix(b" anew") {
        Some(words) if words.starts_with(b"format ") => words.len(),
        _ => line.len(),
    }
}

// What a line makes known: a store that a call has changed is accepted.
fn learnt(z: Session, o: Outcome) -> Session
    ensures { Learnt z o result }
{
    let mut y = z;
    if let Outcome::Changed(_) = o {
        y.known = true;
    }
    y
}

// A command on the store.
fn command<R: Env + Files + Print + Eprint>(
    rt: &R,
    store: &mut [u8],
    z: Session,
    line: &[u8],
) -> Session
    requires { SessionHolds z store.old × (Aside line.now → ⊥) }
    ensures { Turned line.now z store.old result store.new }
{
    let n = before_anew(line);
    let len = z.len;
    let o = obey::obey(rt, &mut store[0..len], &line[..n], z.number, z.known);
    if let Outcome::Format(p, size) = o {
        return ask_format(rt, store, z, p, size, n < line.len());
    }
    after(learnt(z, o), o)
}

// The text of a line.
fn turn<R: Env + Files + Print + Eprint>(
    rt: &R,
    store: &mut [u8],
    z: Session,
    line: &[u8],
) -> Session
    requires { SessionHolds z store.old }
    ensures { Turned line.now z store.old result store.new }
{
    match line {
        b"quit" => Session { quit: true, ..z },
        b"help" => after(z, obey::help(rt)),
        _ => command(rt, store, z, line),
    }
}

// The session at the start of the next line.
fn next_line(z: Session) -> Session
    ensures { Alike z result × NextLine z result }
{
    let mut y = z;
    y.number = std::num::wrapping_add_usize(y.number, 1);
    y.line = LineRead::fresh();
    y
}

// A line whose words stand with one blank between, or as many of them as there was room for.
fn words_line<R: Env + Files + Print + Eprint>(
    rt: &R,
    store: &mut [u8],
    z: Session,
    over: bool,
    words: &[u8],
) -> Session
    requires { SessionHolds z store.old }
    ensures { WordsTurned over words.now z store.old result store.new }
{
    let a = text_lines::text_start(words);
    if over {
        return after(z, obey::too_long(rt, &words[a..], z.number));
    }
    turn(rt, store, z, &words[a..])
}

// The end of a line: it is obeyed, and the next one begins.
fn end_line<R: Env + Files + Print + Eprint>(
    rt: &R,
    store: &mut [u8],
    z: Session,
    line: &[u8],
) -> Session
    requires { SessionReads z store.old line.now }
    ensures { LineTurned line.now z store.old result store.new }
{
    let g = z.line;
    words_line(rt, store, next_line(z), g.over, &line[0..g.fill])
}

// One byte of the input.
fn take<R: Env + Files + Print + Eprint>(
    rt: &R,
    store: &mut [u8],
    z: Session,
    line: &mut [u8],
    b: u8,
) -> Session
    requires { SessionReads z store.old line.old }
    ensures { Feeds (b ∷ []) z store.old line.old result store.new line.new }
{
    if b == 10 {
        return end_line(rt, store, z, line);
    }
    let mut y = z;
    y.line = z.line.read_byte(line, b);
    y
}

// A piece of the input; nothing of it after the line quit.
fn feed<R: Env + Files + Print + Eprint>(
    rt: &R,
    store: &mut [u8],
    z: Session,
    line: &mut [u8],
    piece: &[u8],
) -> Session
    requires { SessionReads z store.old line.old }
    ensures { Feeds piece.now z store.old line.old result store.new line.new }
{
    let mut y = z;
    for b in piece {
        if y.stopped {
            return y;
        }
        if y.quit {
            return y;
        }
        y = take(rt, store, y, line, *b);
    }
    y
}

// What a read of the input brought: its bytes, of which there are none at the end; or none where it failed.
fn take_read<R: Env + Files + Print + Eprint>(
    rt: &R,
    store: &mut [u8],
    z: Session,
    line: &mut [u8],
    came: Option<&[u8]>,
) -> Session
    requires { SessionReads z store.old line.old }
    ensures { MatchOption came.entry (Feeds [] z store.old line.old result store.new line.new) (λ piece. Feeds piece.now z store.old line.old result store.new line.new) }
{
    let mut y = z;
    match came {
        Some(piece) => {
            if piece.is_empty() {
                y.ended = true;
                return y;
            }
            feed(rt, store, y, line, piece)
        }
        None => {
            y.stopped = true;
            y
        }
    }
}

// What one read of the input brings.
fn read<R: Env + Files + Print + Eprint, I: Read>(
    rt: &R,
    input: &mut I,
    store: &mut [u8],
    z: Session,
    line: &mut [u8],
) -> Session
    requires { SessionReads z store.old line.old }
    ensures { Brought z store.old line.old result store.new line.new }
{
    say::prompt(rt, z.terminal);
    let mut piece = io::buffer();
    match input.read(&mut piece) {
        Ok(n) => take_read(rt, store, z, line, Some(&piece[..n])),
        Err(e) => {
            say::failure(rt, "standard input", e);
            take_read(rt, store, z, line, None)
        }
    }
}

// The whole input. A proved loop has to end, and nothing says that the input does: so many reads no run uses up.
fn read_all<R: Env + Files + Print + Eprint, I: Read>(
    rt: &R,
    input: &mut I,
    store: &mut [u8],
    z: Session,
    line: &mut [u8],
) -> Session
    requires { SessionReads z store.old line.old }
    ensures { Brought z store.old line.old result store.new line.new }
{
    let mut y = z;
    for _ in 0..u64::MAX {
        if y.stopped {
            return y;
        }
        if y.quit {
            return y;
        }
        if y.ended {
            return y;
        }
        y = read(rt, input, store, y, line);
    }
    y
}

// A session before its first line.
fn begin(len: usize, known: bool, terminal: bool) -> Session
    ensures { SessionBegins len known result }
{
    let line = LineRead::fresh();
    Session {
        len,
        changed: false,
        known,
        line,
        number: 0,
        refused: 0,
        terminal,
        quit: false,
        ended: false,
        stopped: false,
    }
}

// Every line of the input, on a store that is the first len bytes of the buffer. It is checked once, here.
// Stays: no heap; a format makes the store longer within the buffer, so that both are lent.
pub fn run<R: Env + Files + Input + Print + Eprint>(
    rt: &R,
    store: &mut [u8],
    len: usize,
    terminal: bool,
) -> Session
    requires { len ≤ length store.old }
    ensures { Ran len store.old result store.new }
{
    let mut line = io::buffer();
    let mut input = rt.reader();
    let known = known::is_accepted(&store[0..len]);
    let y = read_all(
        rt,
        &mut input,
        store,
        begin(len, known, terminal),
        &mut line,
    );
    if y.stopped {
        return y;
    }
    if y.quit {
        return y;
    }
    // what stands behind the last line end
    end_line(rt, store, y, &line)
}
