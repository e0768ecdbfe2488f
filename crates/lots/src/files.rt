// The store's file: read whole, and written anew beside itself.
ghost use Rattle.std.specs.Prelude.{◌+◌, ◌≤◌, IfOk, IfSome, length};

use std::fs::{Files, OpenFile, OpenOptions};
use std::io::{ErrorKind, Read, Write};
use std::{fs, io};
use telling::say;

// Why the store's file cannot be read or written anew.
// Stays: an error enum for `?`; an Option of the second case would not say what none is.
enum Failure<'a> {
    // its name is not UTF-8
    Unnamed,
    // the system says so of the file of that name
    System(&'a str, io::Error),
}

// What could not be read or written is told.
fn tell<R: Eprint>(rt: &R, failure: Failure<'_>) {
    match failure {
        Failure::Unnamed => {
            let _ = eprintln!(rt; "lots: a file whose name is not UTF-8 cannot be opened");
        }
        Failure::System(path, e) => say::failure(rt, path, e),
    }
}

// A file's name as text, without which std opens no file.
fn text_of(name: &[u8]) -> Result<&str, Failure<'_>> {
    std::str::from_utf8(name).map_err(|_| Failure::Unnamed)
}

// Reads until the buffer is full or the file is at its end: how many bytes there were.
fn read_full<F: Read>(file: &mut F, store: &mut [u8]) -> io::Result<usize>
    ensures { IfOk result (λ n. n ≤ length store.new) }
{
    let mut done = 0;
    // Stays: a read brings as many bytes as it likes, and read_exact does not say how many came before the end.
    while done < store.len() {
        let n = file.read(&mut store[done..])?;
        if n == 0 {
            return Ok(done);
        }
        done += n;
    }
    Ok(done)
}

// The first bytes of the file of that name, as many as the buffer holds; none where there is no file.
fn read<'a, R: Files>(rt: &R, path: &'a [u8], store: &mut [u8]) -> Result<usize, Failure<'a>>
    ensures { IfOk result (λ n. n ≤ length store.new) }
{
    let path = text_of(path)?;
    match fs::open(rt, path) {
        Ok(mut file) => read_full(&mut file, store).map_err(|e| Failure::System(path, e)),
        Err(e) => {
            if e.kind() == ErrorKind::NotFound {
                return Ok(0);
            }
            Err(Failure::System(path, e))
        }
    }
}

// How many bytes the file has, as many as the buffer holds; none where it could not be read, which is told.
pub fn load<R: Files + Eprint>(rt: &R, path: &[u8], store: &mut [u8]) -> Option<usize>
    ensures { IfSome result (λ n. n ≤ length store.new) }
{
    read(rt, path, store).map_err(|e| tell(rt, e)).ok()
}

// Writes an open file to the device.
fn write_open<F: Write + OpenFile>(file: &mut F, store: &[u8]) -> io::Result<()> {
    file.write_all(store)?;
    file.sync_all()
}

// A new file of that name, which must be free.
fn create<R: Files>(rt: &R, path: &str) -> io::Result<R::File> {
    let mut how = OpenOptions::new();
    how.write(true).create_new(true);
    how.open(rt, path)
}

// Makes a file of the store; whatever fails is told. The name must be free, and a file that cannot be made whole is removed, once that is told.
fn make<R: Files + Eprint>(rt: &R, path: &str, store: &[u8]) -> Option<()> {
    let mut file = create(rt, path)
        .map_err(|e| say::failure(rt, path, e))
        .ok()?;
    write_open(&mut file, store)
        .map_err(|e| {
            say::failure(rt, path, e);
            let _ = fs::remove_file(rt, path);
        })
        .ok()
}

// The store goes to a new file, which then takes the old one's name; whatever fails is told.
fn replace<R: Files + Eprint>(rt: &R, path: &[u8], beside: &[u8], store: &[u8]) -> Option<()> {
    let path = text_of(path).map_err(|e| tell(rt, e)).ok()?;
    let beside = text_of(beside).map_err(|e| tell(rt, e)).ok()?;
    make(rt, beside, store)?;
    fs::rename(rt, beside, path)
        .map_err(|e| {
            say::failure(rt, path, e);
            let _ = fs::remove_file(rt, beside);
        })
        .ok()
}

// The name of the new file: FILE.new.
fn name(path: &[u8], out: &mut [u8]) -> usize
    requires { length path.now + 4 ≤ length out.old }
    ensures { result ≤ length out.new }
{
    words::copy_at(out, 0, path);
    words::copy_at(out, path.len(), b".new");
    path.len() + 4
}

// Writes the store beside the file and renames it over the file. Whatever fails is told, and the old file is as it was.
pub fn save<R: Files + Eprint>(rt: &R, path: &[u8], store: &[u8]) -> bool
    requires { length path.now ≤ 4096 }
{
    let mut beside = [0u8; 4100];
    let n = name(path, &mut beside);
    replace(rt, path, &beside[0..n], store).is_some()
}
