// The lines of a file of rules, in the caller's own bytes. A line ends at byte 10; the last one counts with or without
// it, and an ending byte 10 starts no further line: an empty file has no line, and a file of one byte 10 has one, empty.
#![tactic(auto)]

ghost use Rattle.std.specs.Prelude.{◌≡◌, List, length};
ghost use Rattle.lines.specs.Handed.{Handed, OneSplit};
ghost use Rattle.lines.specs.Lines.{Span, Lines};

mod reader;

pub use reader::{Line, Place, Reader};

// Line k, counted from 1, without its byte 10, or none where k is 0 or past the last line.
pub fn line(file: &[u8], k: usize) -> Option<&[u8]>
    ensures handed { (ls : List Span) × Lines 1 0 file.now ls × Handed file.entry ls k result }
    ensures split { OneSplit file.now }
{
    Reader::new(file)
        .find(|line| line.place.line == k)
        .map(|line| line.bytes)
}

// How many lines the file has.
pub fn line_count(file: &[u8]) -> usize
    ensures { (ls : List Span) × Lines 1 0 file.now ls × (result ≡ length ls) }
{
    Reader::new(file).count()
}

#[cfg(test)]
mod tests {
    use super::*;
    use std::test::Fail;

    // A file, the number of a line, and what that line is.
    const LINES: [(&[u8], usize, Option<&[u8]>); 17] = [
        (b"", 0, None),
        (b"", 1, None),
        (b"\n", 0, None),
        (b"\n", 1, Some(b"")),
        (b"\n", 2, None),
        (b"\n\n", 2, Some(b"")),
        (b"\n\n", 3, None),
        (b"G 1\n\n+ a", 1, Some(b"G 1")),
        (b"G 1\n\n+ a", 2, Some(b"")),
        (b"G 1\n\n+ a", 3, Some(b"+ a")),
        (b"G 1\n\n+ a", 4, None),
        (b"G 1\n\n+ a\n", 3, Some(b"+ a")),
        (b"G 1\n\n+ a\n", 4, None),
        (b"G 1\n\n+ a\n", 18446744073709551615, None),
        (b"\0a\r\n\xffb\r", 1, Some(b"\0a\r")),
        (b"\0a\r\n\xffb\r", 2, Some(b"\xffb\r")),
        (b"\0a\r\n\xffb\r", 3, None),
    ];

    // A file, and how many lines it has.
    const COUNTS: [(&[u8], usize); 6] = [
        (b"", 0),
        (b"\n", 1),
        (b"\n\n", 2),
        (b"G 1\n\n+ a", 3),
        (b"G 1\n\n+ a\n", 3),
        (b"\0a\r\n\xffb\r", 2),
    ];

    #[test]
    fn lines_and_counts(rt: HostRuntime) {
        for (file, k, found) in LINES {
            assert_eq!(rt; line(file, k), found);
        }
        for (file, count) in COUNTS {
            assert_eq!(rt; line_count(file), count);
        }
    }

    #[test]
    fn places(rt: HostRuntime) -> Result<(), Fail> {
        let mut reader = Reader::new(b"G 1\n\n+ a");
        for (line, offset) in [(1, 0), (2, 4), (3, 5)] {
            let found = reader.next_line().ok_or("a line is missing")?;
            assert_eq!(rt; found.place, Place { line, offset });
        }
        assert!(rt; reader.next_line().is_none());
        Ok(())
    }
}
