// Random files, read by the reader and by the machine.
use crate::machine::{SLOTS, run};
use crate::support::{OLD_RULE, read_into};
use std::alloc::AllocError;
use std::test::Fail;

const FILES: usize = 4096;

const HEADS: [&[u8]; 8] = [
    b"G 2\n+",
    b"G 9\n+ a",
    b"G 3",
    b"G 2\n",
    b"A 2\n-",
    b"B 9\n+",
    b"C 3\n\n#",
    b"D 2\n- 1",
];

// The pieces that follow. Most are whole items or begin a line, so that many files are lawful, or nearly so.
const PIECES: [&[u8]; 32] = [
    b"\n+", b"\n+", b"\n+", b"\n-", b"\n- b", b"\n+ c", b"\n#", b"\n# x", b"\n\n+", b"\n", b" ",
    b"!", b"a", b"x", b" a", b" a", b" a", b" b", b" b", b" c", b" c", b" !a", b" !b", b" !i",
    b" 0", b" 0", b" 1", b" 1", b" !1", b" 3", b" !0", b" !2",
];

// A linear congruential generator, of which the high bits are used.
fn next(state: u64) -> u64 {
    state
        .wrapping_mul(6364136223846793005)
        .wrapping_add(1442695040888963407)
}

// A number below 32.
fn pick(state: u64) -> usize {
    (state >> 59) as usize
}

// Writes a random file, and answers the state for the next.
fn write_file(state: u64, file: &mut Vec<u8>) -> Result<u64, AllocError> {
    file.clear();
    let mut state = next(state);
    file.extend_from_slice(HEADS[pick(state) % 8])?;
    state = next(state);
    for _ in 0..pick(state) % 16 {
        state = next(state);
        file.extend_from_slice(PIECES[pick(state) % 32])?;
    }
    Ok(state)
}

// The answers and all the slots are compared. Of the files, 256 at least are granted, and 256 at least have each of the faults.
#[test]
fn reader_and_machine_agree(rt: HostRuntime) -> Result<(), Fail> {
    let mut file = Vec::new(rt.alloc());
    let mut state = 1;
    let mut met = [0usize; 8];
    for i in 0..FILES {
        state = write_file(state, &mut file)?;
        let posts = 1 + i % 8;
        let room = i / 8 % 5;
        let mut slots = [OLD_RULE; SLOTS];
        let found = read_into(posts, room, &file, &mut slots);
        assert_eq!(rt; (found, slots), run(posts, room, &file), "file {file:?}");
        let kind = match found {
            Ok(_) => 0,
            Err((number, _, _)) => usize::from(number),
        };
        assert!(rt; kind < 8);
        met[kind] = met[kind].wrapping_add(1);
    }
    for times in met {
        assert!(rt; times >= 256, "{met:?}");
    }
    Ok(())
}
