// A sheet's file: opened, read piece by piece, laid out as numbers.
ghost use Rattle.std.specs.Prelude.{◌≡◌, ◌≤◌, length, IfOk, IfSome};
ghost use Rattle.sheets.specs.Laying.{blank_sheet};
ghost use Rattle.lots.specs.Reports.{FileBegun, FileRead, PieceRead};

use super::arguments;
use sheets::Sheet;
use std::env::Env;
use std::fs;
use std::fs::Files;
use std::io::Read;

// What one read of the sheet brings, and whether it was more than the file's end.
fn read_piece<F: Read>(
    file: &mut F,
    flat: &mut [u64],
    sheet: &mut Sheet,
    line: &mut [u8],
) -> std::io::Result<bool>
    requires { FileBegun sheet.old line.old flat.old 4096 }
    ensures { PieceRead sheet.old sheet.new line.new flat.new }
{
    let mut piece = io::buffer();
    let n = file.read(&mut piece)?;
    sheet.take_piece(flat, line, &piece[..n]);
    Ok(n > 0)
}

// The whole sheet: 2^51 pieces, no run's to use up, so that every line has a number.
fn read_sheet<F: Read>(
    file: &mut F,
    flat: &mut [u64],
    sheet: &mut Sheet,
    line: &mut [u8],
) -> std::io::Result<()>
    requires { FileBegun sheet.old line.old flat.old 9223372036854775809 }
    ensures { FileBegun sheet.new line.new flat.new 1 }
{
    for _ in 0..2251799813685248u64 {
        if !read_piece(file, flat, sheet, line)? {
            break;
        }
    }
    Ok(())
}

// The lines of an open sheet.
fn read_open<F: Read>(file: &mut F, flat: &mut [u64]) -> std::io::Result<Sheet>
    requires { flat.old ≡ blank_sheet }
    ensures { IfOk result (λ z. FileRead z flat.new) }
{
    let mut line = io::buffer();
    let mut sheet = Sheet::fresh();
    read_sheet(file, flat, &mut sheet, &mut line)?;
    sheet.last_line(flat, &line);
    Ok(sheet)
}

// A sheet's name in the folder where the user stands, which is the program's third word; none where that is not known.
fn join<R: Env>(rt: &R, name: &[u8], out: &mut [u8]) -> Option<usize>
    ensures { IfSome result (λ n. n ≤ length out.new) }
{
    let n = arguments::word(rt, 3, out)?;
    if n >= out.len() || name.len() >= out.len() - n {
        return None;
    }
    words::copy_at(out, n, b"/");
    words::copy_at(out, n + 1, name);
    Some(n + 1 + name.len())
}

// A name from the root on, or a program that was told no folder, needs none.
fn is_whole<R: Env>(rt: &R, name: &[u8]) -> bool {
    arguments::count(rt) < 4 || name.starts_with(b"/")
}

// The file of that name, unless it cannot be opened, as where the name is no text.
fn open_named<R: Files>(rt: &R, name: &[u8]) -> Option<R::File> {
    match std::str::from_utf8(name) {
        Ok(name) => fs::open(rt, name).ok(),
        Err(_) => None,
    }
}

fn open_sheet<R: Env + Files>(rt: &R, name: &[u8]) -> Option<R::File> {
    if is_whole(rt, name) {
        return open_named(rt, name);
    }
    let mut path = [0u8; 8192];
    let n = join(rt, name, &mut path)?;
    open_named(rt, &path[..n])
}

// The sheet of that name, unless it cannot be read.
pub fn load<R: Env + Files>(rt: &R, name: &[u8], flat: &mut [u64]) -> Option<Sheet>
    requires { flat.old ≡ blank_sheet }
    ensures { IfSome result (λ z. FileRead z flat.new) }
{
    let mut file = open_sheet(rt, name)?;
    read_open(&mut file, flat).ok()
}
