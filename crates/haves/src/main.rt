// Plays the calls of a recorded walk on standard input, and prints what each of them gave back.
#![tactic(auto)]

use session::transcript::transcript;
use std::io;
use std::io::Read;

// One byte more than an input may have, so that a longer one is told.
const READ_AT_MOST: u64 = 65_537;

fn main(rt: HostRuntime) -> io::Result<()> {
    let mut bytes = Vec::new(rt.alloc());
    rt.stdin().take(READ_AT_MOST).read_to_end(&mut bytes)?;
    let text = transcript(rt.alloc(), bytes.as_slice())?;
    print!(rt; "{text}")
}
