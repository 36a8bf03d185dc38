// A reader that hands out a file's lines one after another.
ghost use Rattle.std.specs.Prelude.{◌≡◌, ◌-◌, ◌<◌, ◌≤◌, length, take, slice_index};
ghost use Rattle.std.specs.Iterator.{at_most};
ghost use Rattle.lines.specs.Lines.{Unbroken};
ghost use Rattle.lines.specs.Handed.{NextLine};

// A place in a file: a line, counted from 1, and a byte of the file, counted from 0.
#[derive(Clone, Copy, Debug, PartialEq, Eq)]
pub struct Place {
    pub line: usize,
    pub offset: usize,
}

// A line: the place of its first byte, and its bytes without the end.
#[derive(Clone, Copy)]
pub struct Line<'a> {
    pub place: Place,
    pub bytes: &'a [u8],
}

// Stands in the caller's bytes at the next unread line, which starts at `at`; `read` lines lie before it. The whole file is kept beside the position, since
// the offset that a line is told with counts from its start.
#[derive(Drop)]
pub struct Reader<'a> {
    file: &'a [u8],
    at: usize,
    read: usize,
    ghost within: { at ≤ length file.now },
    ghost counted: { read ≤ at },
}

impl<'a> Reader<'a> {
    // A reader at the first line.
    pub fn new(file: &'a [u8]) -> Reader<'a>
        ensures file { result.file ≡ file.entry }
        ensures at { result.at ≡ 0 }
        ensures read { result.read ≡ 0 }
    {
        Reader {
            file,
            at: 0,
            read: 0,
        }
    }

    // The next unread line, or none at the end of the file.
    pub fn next_line(&mut self) -> Option<Line<'a>>
        ensures same { self.new.file ≡ self.old.file }
        ensures next { NextLine self.old.file self.old.read self.old.at result self.new.read self.new.at }
    {
        let file = self.file;
        let at = self.at;
        if at >= file.len() {
            return None;
        }
        let rest = &file[at..];
        let len = line_len(rest);
        let place = Place {
            line: self.read + 1,
            offset: at,
        };
        self.read = place.line;
        self.at = if len < rest.len() {
            at + len + 1
        } else {
            file.len()
        };
        Some(Line {
            place,
            bytes: &rest[0..len],
        })
    }
}

impl<'a> Iterator for Reader<'a> {
    type Item = Line<'a>;

    // The file stays the same, and the line is the next unread one.
    ghost next_gives = { λ s r t. (t.file ≡ s.file) × NextLine s.file s.read s.at r t.read t.at };

    // A line takes at least one byte.
    ghost remaining = { λ s. at_most (length s.file.now - s.at) };

    fn next(&mut self) -> Option<Line<'a>> {
        self.next_line()
    }
}

// How many bytes come before the first byte 10, or all of them.
fn line_len(bytes: &[u8]) -> usize
    ensures within { result ≤ length bytes.now }
    ensures unbroken { Unbroken (take result bytes.now) }
    ensures end { result < length bytes.now → slice_index bytes.now result ≡ 10 }
{
    bytes
        .iter()
        .position(|b| *b == b'\n')
        .unwrap_or(bytes.len())
}
