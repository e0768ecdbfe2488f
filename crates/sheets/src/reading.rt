// The bytes of a sheet gathered into lines, and each line laid out.
ghost use Rattle.std.specs.Prelude.{List, [], ◌∷◌, ℕ, length};
ghost use Rattle.text_lines.specs.Ends.{input_lines};
ghost use Rattle.sheets.specs.Laying.{HeldSays, LineRoom, LineTaken, LinesRead, BytesRead, SheetRoom, BytesTaken, NoneRead};

use crate::Sheet;
use commands::SheetLine;

// What a line says; one that there was no room for is of another form.
fn line_says(over: bool, held: &[u8]) -> SheetLine
    ensures { HeldSays over held.now result }
{
    if over {
        return SheetLine::Other;
    }
    commands::sheet_line(held)
}

impl Sheet {
    // A sheet before its first byte.
    pub fn fresh() -> Sheet
        ensures { NoneRead result }
    {
        Sheet {
            rows: 0,
            low: 0,
            bad: None,
            wrong: None,
            number: 0,
            fill: 0,
            over: false,
        }
    }

    // A whole line of the sheet.
    fn take_line(&mut self, flat: &mut [u64], held: &[u8])
        requires { LineRoom self.old held.now flat.old }
        ensures { LineTaken self.old held.now flat.old self.new flat.new }
    {
        let l = self.number + 1;
        let x = line_says(self.over, held);
        self.add_line(flat, l, x);
        self.number = l;
        self.fill = 0;
        self.over = false;
    }

    // One byte of the sheet.
    fn take_byte(&mut self, flat: &mut [u64], line: &mut [u8], b: u8)
        requires { SheetRoom self.old line.old flat.old 1 }
        ensures { BytesTaken (b ∷ []) self.old line.old flat.old self.new line.new flat.new }
    {
        let fill = self.fill;
        if b == b'\n' {
            self.take_line(flat, &line[..fill]);
        } else if fill < line.len() {
            line[fill] = b;
            self.fill = fill + 1;
        } else {
            self.over = true;
        }
    }

    // A piece of the sheet.
    pub fn take_piece(&mut self, flat: &mut [u64], line: &mut [u8], piece: &[u8])
        requires { SheetRoom self.old line.old flat.old (length piece.now) }
        ensures { BytesTaken piece.now self.old line.old flat.old self.new line.new flat.new }
    {
        for b in piece {
            self.take_byte(flat, line, *b);
        }
    }

    // The end of the file: what stands behind the last line feed is a line too.
    pub fn last_line(&mut self, flat: &mut [u64], line: &[u8])
        requires { SheetRoom self.old line.now flat.old 1 }
        ensures { (bs : List ℕ) → BytesRead bs self.old line.now flat.old → LinesRead (input_lines bs) self.new flat.new }
    {
        let fill = self.fill;
        self.take_line(flat, &line[..fill]);
    }
}
