// The edges of loading (01, "Figures to hold it to" and its readings), a table on standard input: each text with the number and place that
// it is to be refused with, 0 at 0 where it is to be accepted. Writes each edge that is missed, how many there are, and how long the longest
// text is that is accepted.
//
// A line of the table is `number place text`, or `#` and a comment. In a text `\t`, `\n`, `\r` are the bytes 9, 10 and 13, `\0` is 0 and `\x`
// is 255; `\(..\)62;` is what stands between the brackets, 62 times.
#![tactic(auto)]

use std::{fmt, io};

// The longest table that is read, and room for a text that is too long: what is beyond either is left out.
const MOST_TABLE: usize = 8192;

const ROOM: usize = 4200;

// Why a text is refused: 0 at 0 where it is accepted.
#[derive(Clone, Copy, PartialEq, Eq)]
struct Refused {
    number: u64,
    place: u64,
}

// What the table writes for a text that is accepted.
const ACCEPTED: Refused = Refused {
    number: 0,
    place: 0,
};

impl fmt::Display for Refused {
    fn fmt<W: fmt::Write>(&self, f: &mut fmt::Formatter<W>) -> fmt::Result {
        let number = self.number;
        let place = self.place;
        write!(f, "{number} at {place}")
    }
}

// A text as far as it is written. What is past the room is left out.
#[derive(Drop)]
struct Text {
    bytes: [u8; ROOM],
    len: usize,
}

impl Text {
    fn push(&mut self, b: u8) {
        if let Some(place) = self.bytes.get_mut(self.len) {
            *place = b;
            self.len += 1;
        }
    }

    // What stands from `mark` on, so many times in all.
    fn repeat(&mut self, mark: usize, times: u64) {
        let end = self.len;
        for _ in 1..times {
            for i in mark..end {
                let b = self.bytes.get(i).copied();
                if let Some(b) = b {
                    self.push(b);
                }
            }
        }
    }
}

// A number with one digit more, as far as the table has them.
fn with_digit(n: u64, b: u8) -> u64 {
    if n < 100_000 && b'0' <= b {
        n * 10 + u64::from(b - b'0')
    } else {
        n
    }
}

// The byte that is written so after a backslash.
fn escaped(b: u8) -> u8 {
    match b {
        b't' => b'\t',
        b'n' => b'\n',
        b'r' => b'\r',
        b'0' => 0,
        b'x' => 255,
        _ => b,
    }
}

// What the next byte of a line belongs to: its number, its place, its text, what follows a backslash, a count after a bracket, a comment.
#[derive(Clone, Copy)]
enum Mode {
    Number,
    Place,
    Plain,
    Escape,
    Times(u64),
    Comment,
}

// What is read of a line beside its text.
#[derive(Clone, Copy)]
struct Line {
    mode: Mode,
    wanted: Refused,
    mark: usize,
}

const START: Line = Line {
    mode: Mode::Number,
    wanted: ACCEPTED,
    mark: 0,
};

impl Line {
    // One byte more.
    fn take(&mut self, text: &mut Text, b: u8) {
        self.mode = match (self.mode, b) {
            (Mode::Comment, _) | (Mode::Number | Mode::Place, b'#') => Mode::Comment,
            (Mode::Number, b' ') => Mode::Place,
            (Mode::Number, _) => {
                self.wanted.number = with_digit(self.wanted.number, b);
                Mode::Number
            }
            (Mode::Place, b' ') => Mode::Plain,
            (Mode::Place, _) => {
                self.wanted.place = with_digit(self.wanted.place, b);
                Mode::Place
            }
            (Mode::Plain, b'\\') => Mode::Escape,
            (Mode::Plain, _) => {
                text.push(b);
                Mode::Plain
            }
            (Mode::Escape, b'(') => {
                self.mark = text.len;
                Mode::Plain
            }
            (Mode::Escape, b')') => Mode::Times(0),
            (Mode::Escape, _) => {
                text.push(escaped(b));
                Mode::Plain
            }
            (Mode::Times(n), b';') => {
                text.repeat(self.mark, n);
                Mode::Plain
            }
            (Mode::Times(n), _) => Mode::Times(with_digit(n, b)),
        };
    }
}

// How many edges were tried, how many were missed, and the length of the longest text that was accepted.
#[derive(Clone, Copy)]
struct Tally {
    tried: u64,
    missed: u64,
    longest: usize,
}

impl Tally {
    // The text is refused as it is to be, and the codelist of one that is accepted can be rated.
    fn take(&mut self, out: &impl Print, text: &[u8], wanted: Refused) -> io::Result<()> {
        let (found, kept) = match codelist::load(text) {
            Ok(c) => (ACCEPTED, codelist::is_ratable(c)),
            Err(why) => {
                let found = Refused {
                    number: u64::from(why.number()),
                    place: why.place(),
                };
                (found, false)
            }
        };
        let accepted = wanted.number == 0;
        self.tried = self.tried.saturating_add(1);
        if found != wanted || kept != accepted {
            self.missed = self.missed.saturating_add(1);
            println!(out; "missed: {wanted}, found {found}, for")?;
            out.write_all(text)?;
            return out.write_all(b"\n");
        }
        if accepted {
            self.longest = self.longest.max(text.len());
        }
        Ok(())
    }
}

// Tries the edges of a table. A line that does not end with byte 10, or ends before its text or inside what is escaped, has none.
fn try_all(out: &impl Print, table: &[u8]) -> io::Result<Tally> {
    let mut tally = Tally {
        tried: 0,
        missed: 0,
        longest: 0,
    };
    let mut text = Text {
        bytes: [0; ROOM],
        len: 0,
    };
    let mut line = START;
    for b in table {
        if *b != b'\n' {
            line.take(&mut text, *b);
            continue;
        }
        if let Mode::Plain = line.mode {
            let n = text.len.min(ROOM);
            tally.take(out, &text.bytes[..n], line.wanted)?;
        }
        line = START;
        text.len = 0;
    }
    Ok(tally)
}

fn main(rt: HostRuntime) -> io::Result<()> {
    let mut table = [0u8; MOST_TABLE];
    let n = streams::read_full(&mut rt.stdin(), &mut table)?;
    let tally = try_all(&rt, &table[..n])?;
    println!(rt;
        "{} edges, missed {}, longest accepted {}",
        tally.tried, tally.missed, tally.longest
    )
}
