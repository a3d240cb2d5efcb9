// Boxes. A box that the caller keeps is four words, whatever they are; `skeprafter_ends` reads them.
ghost use Rattle.std.specs.Prelude.{◌≡◌};
ghost use Rattle.zero_skew.specs.Box.{across};
ghost use Rattle.skeprafter_c.specs.Kept.{held, ends_of, Boxes, Widens};

use crate::said;
use skeprafter::{Box, Sinks};

#[unsafe(no_mangle)]
pub extern "C" fn skeprafter_box_of(
    x: &[i32],
    y: &[i32],
    delays: &[u32],
    kept: &mut [u32; 4],
    said: &mut [u64; 6],
)
    ensures { Boxes x.now y.now delays.now kept.old kept.new said.new }
{
    match skeprafter::box_of(&Sinks {
        xs: x,
        ys: y,
        delays,
    }) {
        Ok(b) => {
            *kept = b.into();
            *said = [0; 6];
        }
        Err(r) => {
            *said = said::of_refusal(r);
        }
    }
}

#[unsafe(no_mangle)]
pub extern "C" fn skeprafter_widen(
    kept: &mut [u32; 4],
    x: i32,
    y: i32,
    delay: u32,
    said: &mut [u64; 6],
)
    ensures { Widens kept.old x y delay kept.new said.new }
{
    let mut held = Box::from(*kept);
    let verdict = skeprafter::widen(&mut held, x, y, delay);
    *kept = held.into();
    *said = said::of_answer(verdict);
}

#[unsafe(no_mangle)]
pub extern "C" fn skeprafter_ends(kept: &[u32; 4], ends: &mut [i64; 4])
    ensures { ends.new ≡ ends_of (held kept.now) }
{
    let e = skeprafter::ends(Box::from(*kept));
    *ends = [e.least_u, e.greatest_u, e.least_v, e.greatest_v];
}

#[unsafe(no_mangle)]
pub extern "C" fn skeprafter_diameter(kept: &[u32; 4]) -> u32
    ensures { result ≡ across (held kept.now) }
{
    skeprafter::diameter(Box::from(*kept))
}
