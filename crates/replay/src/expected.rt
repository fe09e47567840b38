// The numbers of a stored case, and what an answer must have in common with them.

// Result fields behind the length that a call does not have are 0. The rewrites are those that the tally counts.
#[derive(Clone, Copy, Default)]
pub struct Got {
    pub number: u32,
    pub length: u32,
    pub field1: u32,
    pub field2: u32,
    pub field3: u32,
    pub rewrites: u32,
}

// The case's number i of 18; 0 where the case is too short.
pub fn word(case: &[u8], i: usize) -> u32 {
    if i < 18 && 72 <= case.len() {
        le::u32_at(case, 4 * i)
    } else {
        0
    }
}

pub fn same_answer(case: &[u8], got: Got) -> bool {
    got.number == word(case, 7)
        && got.length == word(case, 8)
        && got.field1 == word(case, 9)
        && got.field2 == word(case, 10)
        && got.field3 == word(case, 11)
}

// What each byte of the output holds before a call, so that one written behind the answer is seen.
pub const BEFORE: u8 = 165;

// Every byte is as it was before the call.
fn untouched(out: &[u8]) -> bool {
    out.iter().all(|x| *x == BEFORE)
}

pub fn same_output(out: &[u8], expected: &[u8]) -> bool {
    out.starts_with(expected) && untouched(&out[expected.len()..])
}
