// The lines of an input, byte by byte, and the text of a line: its words with one blank between.
#![tactic(auto)]

ghost use Rattle.std.specs.Prelude.{◌≡◌, List, [], ℕ, ◌≤◌, length};
ghost use Rattle.text_lines.specs.Reading.{ByteRead, gap_before, ReadSoFar, TextFrom, WordByte};

use commands::is_blank;

// A line as far as it is read: how many bytes of the buffer it has, whether it is too long, and whether a word of it has ended.
#[derive(Clone, Copy)]
pub struct LineRead {
    pub fill: usize,
    // Stays: two bools and no enum of three states, since Reading:ReadSoFar says of over and of blank each by itself.
    pub over: bool,
    pub blank: bool,
}

impl LineRead {
    // A line before its first byte.
    pub fn fresh() -> LineRead
        ensures { (p : List ℕ) → ReadSoFar p result [] }
    {
        LineRead {
            fill: 0,
            over: false,
            blank: true,
        }
    }

    // How many blanks go before the next byte of a word.
    fn gap_before(self) -> usize
        ensures { result ≡ gap_before self.blank self.fill }
    {
        usize::from(self.blank && self.fill != 0)
    }

    // One byte of a word, behind a blank where a word has ended.
    fn push(self, buf: &mut [u8], b: u8) -> LineRead
        requires { WordByte buf.old self b }
        ensures { ByteRead buf.old self b buf.new result }
    {
        let at = self.fill + self.gap_before();
        if at < buf.len() {
            buf[self.fill] = b' ';
            buf[at] = b;
            return LineRead {
                fill: at + 1,
                over: false,
                blank: false,
            };
        }
        LineRead {
            over: true,
            blank: false,
            ..self
        }
    }

    // One byte more of a line; no line feed.
    pub fn read_byte(self, buf: &mut [u8], b: u8) -> LineRead
        requires { self.fill ≤ length buf.old }
        ensures { ByteRead buf.old self b buf.new result }
    {
        if self.over {
            return self;
        }
        if is_blank(b) {
            return LineRead {
                blank: true,
                ..self
            };
        }
        self.push(buf, b)
    }
}

// Where the text of a line begins whose words stand in the buffer: behind a byte-order mark, and behind a blank after that.
pub fn text_start(words: &[u8]) -> usize
    ensures { TextFrom words.now result }
{
    // Stays: tried as a match on [0xEF, 0xBB, 0xBF, ..]; the proof did not close, it leaves ten goals at which the failed test has no name.
    let n = words.len();
    if n < 3 {
        return 0;
    }
    if words[0] != 0xEF {
        return 0;
    }
    if words[1] != 0xBB {
        return 0;
    }
    if words[2] != 0xBF {
        return 0;
    }
    if n > 3 {
        if words[3] == b' ' {
            return 4;
        }
    }
    3
}
