// Reads a rule file from standard input, and prints it as lists are written, or why it is refused.
#![tactic(auto)]

use report::{LONGEST, tidy};
use rules::{Effect, MOST_REQUESTS, Rule};
use std::io::{Read, Write};

// One byte more than an input may have, so that a longer one is seen to be.
const MOST: u64 = LONGEST as u64 + 1;

// How many rules a list may have: as many as there are requests.
const SLOTS: usize = MOST_REQUESTS;

// How many bytes a text may have.
const ROOM: usize = 65536;

fn run(rt: &HostRuntime) -> anyhow::Result<()> {
    let heap = rt.alloc();
    let mut input = Vec::new(heap);
    rt.stdin().take(MOST).read_to_end(&mut input)?;
    let empty = Rule {
        effect: Effect::Deny,
        needed: 0,
        barred: 0,
        floor: 0,
        barred_posts: 0,
    };
    let mut slots = vec![in heap; empty; SLOTS]?;
    let mut text = vec![in heap; 0u8; ROOM]?;
    match tidy(&input, &mut slots, &mut text) {
        Ok(count) => rt.stdout().write_all(&text[0..count])?,
        Err(refusal) => println!(rt; "refused {refusal}")?,
    }
    Ok(())
}

fn main(rt: HostRuntime) -> anyhow::Result<()> {
    run(&rt)
}
