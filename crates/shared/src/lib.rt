// How many bytes the sequences of some vertices share, at their start and at their end. The count stops at the first vertex that differs.
#![tactic(auto)]

ghost use Rattle.std.specs.Prelude.{◌≡◌, ◌&&◌, ℕ, ◌+◌, ◌-◌, ◌<◌, ◌≤◌, eqb, ltb, length, get_or};
ghost use Rattle.shared.specs.Shared.{Parts, len_at, Prefix, Suffix};

// Whether byte i of the sequence from `start` on, of `len` bytes, is b.
pub fn has_byte(p: &[u8], start: usize, len: usize, i: usize, b: u8) -> bool
    requires { start + len ≤ length p.now }
    ensures { result ≡ ltb i len && eqb (get_or p.now (start + i) 0) b }
{
    i < len && p[start + i] == b
}

// Whether byte i from the back of the sequence from `start` on, of `len` bytes, is b; the first `skip` bytes do not count.
pub fn has_last(p: &[u8], start: usize, len: usize, skip: usize, i: usize, b: u8) -> bool
    requires { (start + len ≤ length p.now) × (skip ≤ len) }
    ensures { result ≡ ltb i (len - skip) && eqb (get_or p.now (start + len - 1 - i) 0) b }
{
    i < len - skip && p[start + len - 1 - i] == b
}

// How many bytes the sequences of the first c of `nodes` share at their start.
pub fn shared_prefix(vs: &[u32], p: &[u8], n: usize, nodes: &[u32], c: usize) -> usize
    requires { Parts n vs.now p.now nodes.now c }
    ensures { Prefix vs.now p.now nodes.now c result }
{
    let start = store::vertex_start(vs, nodes[0]);
    let len = store::vertex_len(vs, nodes[0]);
    for i in 0..len {
        let b = p[start + i];
        for k in 1..c {
            let v = nodes[k];
            let s = store::vertex_start(vs, v);
            let l = store::vertex_len(vs, v);
            if !has_byte(p, s, l, i, b) {
                return i;
            }
        }
    }
    len
}

// How many bytes the sequences of the first c of `nodes` share at their end, behind the first `skip` bytes of each.
pub fn shared_suffix(vs: &[u32], p: &[u8], n: usize, nodes: &[u32], c: usize, skip: usize) -> usize
    requires parts { Parts n vs.now p.now nodes.now c }
    requires by_index { (k : ℕ) → k < c → skip ≤ len_at vs.now nodes.now k }
    ensures { Suffix vs.now p.now nodes.now skip c result }
{
    let len = store::vertex_len(vs, nodes[0]);
    let end = store::vertex_start(vs, nodes[0]) + len;
    let most = len - skip;
    for i in 0..most {
        let b = p[end - 1 - i];
        for k in 1..c {
            let v = nodes[k];
            let s = store::vertex_start(vs, v);
            let l = store::vertex_len(vs, v);
            if !has_last(p, s, l, skip, i, b) {
                return i;
            }
        }
    }
    most
}
