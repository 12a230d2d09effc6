// Prints what `haves` prints for each of many inputs, which stand one after another behind their lengths.
#![tactic(auto)]

ghost use Rattle.std.specs.Prelude.{length};
ghost use Rattle.std.specs.Iterator.{at_most};

use session::transcript::transcript;
use std::io;
use std::io::Read;

// The inputs of a buffer, up to the first whose length or bytes are cut short.
#[derive(Drop)]
struct Inputs<'a>(&'a [u8]);

impl<'a> Iterator for Inputs<'a> {
    type Item = &'a [u8];

    ghost remaining = { λ s. at_most (length s.0.now) };

    fn next(&mut self) -> Option<&'a [u8]> {
        let [high, middle, low, rest @ ..] = self.0 else {
            return None;
        };
        let len = u32::from_be_bytes([0, *high, *middle, *low]);
        let (input, tail) = rest.split_at_checked(len as usize)?;
        self.0 = tail;
        Some(input)
    }
}

fn main(rt: HostRuntime) -> io::Result<()> {
    let mut bytes = Vec::new(rt.alloc());
    rt.stdin().read_to_end(&mut bytes)?;
    for (number, input) in (1..u16::MAX).zip(Inputs(bytes.as_slice())) {
        let text = transcript(rt.alloc(), input)?;
        print!(rt; "run {number}\n{text}")?;
    }
    Ok(())
}
