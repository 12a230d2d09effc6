// The bytes of a buffer from a place on.
ghost use Rattle.std.specs.Prelude.{◌≡◌, ◌+◌, ◌-◌, ◌^◌, ◌<◌, min, length, drop};

// The bytes of a buffer from the place `at` on.
#[derive(Clone, Copy, Debug)]
pub struct Tail<'a> {
    pub bytes: &'a [u8],
    pub at: usize,
    ghost fits: { at + length bytes.now < 2 ^ 64 },
}

impl<'a> Tail<'a> {
    // What follows a place of a buffer; nothing behind its end.
    pub fn of(buffer: &'a [u8], at: usize) -> Tail<'a>
        ensures bytes { result.bytes.now ≡ drop at buffer.now }
        ensures place { result.at ≡ at }
    {
        Tail {
            bytes: buffer.get(at..).unwrap_or_default(),
            at,
        }
    }
}
