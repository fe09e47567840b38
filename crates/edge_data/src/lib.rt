// What an edge carries: its support, which stops at 2^32 - 1, and its flag, 1 for a reference edge and 2 more for a capped one. Only
// the functions here take a flag apart or put one together, and only `joined` adds supports.
#![tactic(auto)]

ghost use Rattle.std.specs.Prelude.{◌≡◌, ◌||◌, ◌+◌, ◌*◌};
ghost use Rattle.defs.specs.Lists.{bit};
ghost use Rattle.defs.specs.SeqGraph.{saturating_add, joined_data};
ghost use Rattle.defs.specs.Record.{flag_is_ref, flag_is_capped};
ghost use Rattle.edge_data.specs.EdgeData.{carried_data};

#[derive(Clone, Copy, Debug, PartialEq, Eq)]
pub struct Carried {
    pub support: u32,
    pub flag: u32,
}

pub fn flag_is_ref(flag: u32) -> bool
    ensures { result ≡ flag_is_ref flag }
{
    flag % 2 == 1
}

pub fn flag_is_capped(flag: u32) -> bool
    ensures { result ≡ flag_is_capped flag }
{
    1 < flag
}

// The flag of a new edge, which is not capped.
pub fn new_flag(reference: bool) -> u32
    ensures { result ≡ bit reference }
{
    u32::from(reference)
}

pub fn flag_of(reference: bool, capped: bool) -> u32
    ensures { result ≡ bit reference + 2 * bit capped }
{
    new_flag(reference) + 2 * new_flag(capped)
}

pub fn saturating_add(x: u32, y: u32) -> u32
    ensures { result ≡ saturating_add x y }
{
    x.saturating_add(y)
}

// Two edges joined.
pub fn joined(a: Carried, b: Carried) -> Carried
    ensures { carried_data result ≡ joined_data (carried_data a) (carried_data b) }
{
    let reference = flag_is_ref(a.flag) | flag_is_ref(b.flag);
    let past = u32::MAX - a.support < b.support;
    let capped = flag_is_capped(a.flag) | flag_is_capped(b.flag) | past;
    let flag = flag_of(reference, capped);
    Carried {
        support: saturating_add(a.support, b.support),
        flag,
    }
}
