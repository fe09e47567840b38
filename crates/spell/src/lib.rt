// The bytes that a list of vertices spells: their sequences, whole, joined in order.
#![tactic(auto)]

ghost use Rattle.std.specs.Prelude.{◌≡◌, ◌≤◌, length};
ghost use Rattle.spell.specs.Spell.{Puttable, SequencePut, spelled_in, Listed, BytesWritten, Answered};
ghost use Rattle.store.specs.Store.{nodes_length};

// Writes the sequence of v to `at` on; where it ends.
fn put_sequence(vs: &[u32], p: &[u8], v: u32, out: &mut [u8], at: usize) -> usize
    requires { Puttable vs.now p.now v out.old at }
    ensures { SequencePut vs.now p.now v out.old at result out.new }
{
    let start = store::vertex_start(vs, v);
    let len = store::vertex_len(vs, v);
    copies::copy(&mut out[at..at + len], &p[start..start + len]);
    at + len
}

// How many bytes the first c of `nodes` spell.
fn spelled_len(vs: &[u32], p: &[u8], nodes: &[u32], c: usize) -> usize
    requires { Listed vs.now p.now nodes.now c }
    ensures { result ≡ nodes_length vs.now nodes.now c }
{
    let mut len = 0;
    for v in &nodes[..c] {
        len += store::vertex_len(vs, *v);
    }
    len
}

// Writes the bytes that the first c of `nodes` spell to the front of `out`; how many.
fn write_spelled(vs: &[u32], p: &[u8], nodes: &[u32], c: usize, out: &mut [u8]) -> usize
    requires { Listed vs.now p.now nodes.now c × (nodes_length vs.now nodes.now c ≤ length out.old) }
    ensures { BytesWritten (spelled_in vs.now p.now nodes.now c) out.old result out.new }
{
    let mut at = 0;
    for v in &nodes[..c] {
        at = put_sequence(vs, p, *v, out, at);
    }
    at
}

// How many bytes the first c of `nodes` spell; they are written to the front of `out` where they fit.
pub fn spell(vs: &[u32], p: &[u8], nodes: &[u32], c: usize, out: &mut [u8]) -> usize
    requires { Listed vs.now p.now nodes.now c }
    ensures { Answered (spelled_in vs.now p.now nodes.now c) out.old result out.new }
{
    let len = spelled_len(vs, p, nodes, c);
    if out.len() < len {
        return len;
    }
    write_spelled(vs, p, nodes, c, out)
}
