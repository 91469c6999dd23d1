// The text of a report. Methods append bytes line by line; the finished text is copied to the caller's buffer.
#![tactic(auto)]

ghost use Rattle.std.specs.Prelude.{◌≡◌, ◌≤◌, SomeIff, length, unwrap_or};
ghost use Rattle.constraint.specs.Report.{decimal, refused_text};
ghost use Rattle.text.specs.Content.{Spells, empty_text, with_byte, extended, content, Copied};
ghost use Rattle.text.specs.Lines.{closed_line, row_line};

use constraint::Verdict;

// How many bytes a text holds at most, which no report exceeds.
pub const TEXT_LIMIT: usize = 1024;
// One blank stands between the parts of a line.
const BLANK: u8 = b' ';
// Lines end in this byte.
const LINE_END: u8 = b'\n';

// The text is the first len bytes. A full text takes no more.
// Stays an array with its length: `HoldsText` (Content.antt) speaks of the bytes behind the text, which a kit's ArrayVec does not tell.
#[derive(Drop)]
pub struct Text {
    pub bytes: [u8; 1024],
    pub len: usize,
}

// The decimal digits of a number: the bytes from the place start on, with blanks before them.
// Stays an array with a place: `aligned` of `Spells` (Content.antt) speaks of all 20 bytes, which a page prints.
#[derive(Drop)]
pub struct Digits {
    pub bytes: [u8; 20],
    pub start: usize,
}

// The decimal digits of a number, without leading zeros: right-aligned in 20.
pub fn digits_of(x: u64) -> Digits
    ensures { Spells result x }
{
    let mut bytes = [BLANK; 20];
    let mut start: usize = 20;
    let mut left = x;
    // Stays a `while`, which ends with the digits: a `for` over the 20 places would be no plainer, with an answer behind it that is never given.
    while 10 <= left {
        start -= 1;
        bytes[start] = b'0' + (left % 10) as u8;
        left /= 10;
    }
    start -= 1;
    bytes[start] = b'0' + left as u8;
    Digits { bytes, start }
}

// The lines stay put by hand: `write!` promises its text on Ok alone, and these clauses, which `ReportsUpTo` of Report.antt needs, hold always.
impl Text {
    // The text that holds nothing.
    pub fn new() -> Self
        ensures { result ≡ empty_text }
    {
        Text {
            bytes: [0u8; 1024],
            len: 0,
        }
    }

    // Appends the bytes of a word, as many as the text takes.
    pub fn word(&mut self, word: &[u8])
        ensures { self.new ≡ extended word.now self.old }
    {
        for byte in word {
            self.push(*byte);
        }
    }

    // Appends one byte, if the text takes one more.
    pub fn push(&mut self, byte: u8)
        ensures { self.new ≡ with_byte byte self.old }
    {
        let len = self.len;
        if len < TEXT_LIMIT {
            self.bytes[len] = byte;
            self.len = len + 1;
        }
    }

    // §7.7
    // Appends a number: decimal, without leading zeros.
    pub fn decimal(&mut self, x: u64)
        ensures { self.new ≡ extended (decimal x) self.old }
    {
        let digits = digits_of(x);
        self.word(&digits.bytes[digits.start..]);
    }

    // §7.4
    // Appends the line "closed N".
    pub fn closed_line(&mut self, count: u64)
        ensures { self.new ≡ extended (closed_line count) self.old }
    {
        self.word(b"closed ");
        self.decimal(count);
        self.push(LINE_END);
    }

    // §7.4
    // Appends a row's line: the row's number and its verdict.
    pub fn row_line(&mut self, row: usize, verdict: Verdict)
        ensures { self.new ≡ extended (row_line row verdict) self.old }
    {
        self.decimal(row as u64);
        self.push(BLANK);
        match verdict {
            Verdict::Open => {}
            Verdict::Kept => self.word(b"kept"),
            Verdict::Broken(step) => {
                self.word(b"broken ");
                self.decimal(step);
            }
        }
        self.push(LINE_END);
    }

    // §7.5
    // Appends the line "refused N P".
    pub fn refused_line(&mut self, number: u8, place: usize)
        ensures { self.new ≡ extended (refused_text number place) self.old }
    {
        self.word(b"refused ");
        self.decimal(u64::from(number));
        self.push(BLANK);
        self.decimal(place as u64);
        self.push(LINE_END);
    }

    // Copies the text to the front of a buffer and answers its length; where the buffer is too short, answers none and leaves it as it was.
    pub fn copy_to(self, buffer: &mut [u8]) -> Option<usize>
        ensures copied { Copied (content self) buffer.old (unwrap_or result 0) buffer.new }
        ensures fits { SomeIff result (length (content self) ≤ length buffer.old) (length (content self)) }
    {
        let len = self.len.min(TEXT_LIMIT);
        if buffer.len() < len {
            return None;
        }
        big_endian::put(buffer, 0, &self.bytes[..len]);
        Some(len)
    }
}
