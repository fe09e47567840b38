// The table of tallies of a stored case: the caller's own is the case's, and each other holds numbers of its place, before the call and behind it.
ghost use Rattle.std.specs.Prelude.{◌<◌};

use crate::expected::word;
use tallies::{Tallies, Tally};

// The caller's tally of the case, before the call and behind it.
fn tally_before(case: &[u8]) -> Tally {
    Tally {
        answered: word(case, 4),
        refused: word(case, 5),
        rewrites: word(case, 6),
    }
}

fn tally_behind(case: &[u8]) -> Tally {
    Tally {
        answered: word(case, 12),
        refused: word(case, 13),
        rewrites: word(case, 14),
    }
}

fn other_tally(i: u32) -> Tally
    requires { i < 16 }
{
    Tally {
        answered: 3 * i + 1,
        refused: 3 * i + 2,
        rewrites: 3 * i + 3,
    }
}

// The table in which the caller has this tally.
fn table_with(caller: u32, own: Tally) -> Tallies {
    let mut callers = [own; 16];
    for i in 0..16 {
        if i != caller {
            callers[i as usize] = other_tally(i);
        }
    }
    Tallies { callers }
}

fn same_tallies(t: &Tallies, u: &Tallies) -> bool {
    t.callers.iter().zip(&u.callers).all(|(a, b)| *a == *b)
}

// Whether the table behind a call with that number and so many rewrites is the case's, all sixteen tallies.
pub fn same_table(case: &[u8], number: u32, rewrites: u32) -> bool {
    let caller = word(case, 3);
    let before = table_with(caller, tally_before(case));
    let behind = tallies::raised(before, caller, number, rewrites);
    same_tallies(&behind, &table_with(caller, tally_behind(case)))
}
