// How many haves go into a round.
ghost use Rattle.std.specs.Prelude.{◌≡◌};
ghost use Rattle.negotiate.specs.Windows.{window_of};

use book::types::Denial;

const INITIAL_FLUSH: usize = 16;

const PIPESAFE_FLUSH: usize = 32;

const LARGE_FLUSH: usize = 16_384;

// A round above this is denied, so that its growth fits every machine's numbers.
const LARGEST_WINDOW: usize = 1_000_000_000;

// The size of the next round, from that of the round before, where there was one. The flag is gix-negotiate's own, and
// no plainer as an enum of two.
pub fn window_size(
    transport_is_stateless: bool,
    window_size: Option<usize>,
) -> Result<usize, Denial>
    ensures { result ≡ window_of transport_is_stateless window_size }
{
    let Some(current) = window_size else {
        return Ok(INITIAL_FLUSH);
    };
    if current > LARGEST_WINDOW {
        return Err(Denial::WindowTooLarge);
    }
    if transport_is_stateless {
        if current < LARGE_FLUSH {
            return Ok(current * 2);
        }
        return Ok(current * 11 / 10);
    }
    if current < PIPESAFE_FLUSH {
        return Ok(current * 2);
    }
    Ok(current + PIPESAFE_FLUSH)
}
