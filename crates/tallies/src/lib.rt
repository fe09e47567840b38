// A tally for each of sixteen callers, in a table that a tallied call is lent. All that changes the table is `count_call`, which is `raised`
// through a reference.
#![tactic(auto)]

ghost use Rattle.tallies.specs.Raises.{counted, TalliesCall, Raises};

// Calls answered, calls refused, rewrites made in the answered calls.
#[derive(Clone, Copy, Debug, PartialEq, Eq)]
#[repr(C)]
pub struct Tally {
    pub answered: u32,
    pub refused: u32,
    pub rewrites: u32,
}

#[derive(Clone, Copy)]
#[repr(C)]
pub struct Tallies {
    pub callers: [Tally; 16],
}

// The callers are 0 to 15.
pub const LAST_CALLER: u32 = 15;

// One call more: refused by a number, or, with number 0, answered with so many rewrites.
fn tallied(t: Tally, number: u32, rewrites: u32) -> Tally
    ensures { TalliesCall number rewrites t result }
{
    if number != 0 {
        return Tally {
            refused: edge_data::saturating_add(t.refused, 1),
            ..t
        };
    }
    Tally {
        answered: edge_data::saturating_add(t.answered, 1),
        rewrites: edge_data::saturating_add(t.rewrites, rewrites),
        ..t
    }
}

// As it was for a caller above 15.
pub fn raised(t: Tallies, caller: u32, number: u32, rewrites: u32) -> Tallies
    ensures { Raises (counted caller number rewrites) t result }
{
    if LAST_CALLER < caller {
        return t;
    }
    let mut table = t;
    let i = caller as usize;
    let new = tallied(table.callers[i], number, rewrites);
    table.callers[i] = new;
    table
}

pub fn count_call(table: &mut Tallies, caller: u32, number: u32, rewrites: u32)
    ensures { Raises (counted caller number rewrites) table.old table.new }
{
    *table = raised(*table, caller, number, rewrites);
}
