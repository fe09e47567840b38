// Rounds of simplification (`simplify_graph_full`).
#![tactic(auto)]

ghost use Rattle.std.specs.Prelude.{◌≡◌, ℕ, ◌+◌, ◌*◌, ◌<◌, ◌≤◌, length};
ghost use Rattle.memory.specs.Memory.{graph_of, signature_room, Room, Holds, Ready, Scratch, Countable, Simplifiable};
ghost use Rattle.rounds.specs.Rounds.{ended, Once, Whole, Full};

use memory::{Held, Work};
use until::{Diamonds, Merges, Tails, vertex_transform_until_complete};

// The least common suffix of tails that is split off (`Simplify.min_tail_suffix_len`).
pub const MIN_TAIL_SUFFIX_LEN: usize = 10;

// The simplified graph, the rewrites made, the rounds begun, and the end: 1 quiet, 2 repeated, 3 full.
#[derive(Clone, Copy)]
pub struct Simplified {
    pub held: Held,
    pub rewrites: u32,
    pub rounds: u32,
    pub end: u32,
}

fn end_with(w: Work, rounds: u32, end: u32) -> Simplified
    ensures { result ≡ ended w rounds end }
{
    Simplified {
        held: w.held,
        rewrites: w.rewrites,
        rounds,
        end,
    }
}

// A round: diamonds, tails, splits, merges, each until no vertex allows it; then one zip.
pub fn simplify_graph_once(
    work: Work,
    least: usize,
    es: &mut [u32],
    vs: &mut [u32],
    p: &mut [u8],
    heads: &mut [u32],
    nexts: &mut [u32],
    nodes: &mut [u32],
    map: &mut [u32],
    starts: &mut [u32],
    tried: &mut [u8],
) -> Work
    requires { Ready least work.held es.old vs.old p.old heads.old nexts.old nodes.old map.old
        × (Countable 5 work.rewrites heads.old × Scratch heads.old starts.old tried.old) }
    ensures { Once least work es.old vs.old p.old result es.new vs.new
        p.new heads.new nexts.new nodes.new map.new }
{
    let a = vertex_transform_until_complete::<Diamonds>(
        least, work, es, vs, p, heads, nexts, nodes, map,
    );
    let b = vertex_transform_until_complete::<Tails>(least, a, es, vs, p, heads, nexts, nodes, map);
    let c = splits::split_until_complete(b, es, vs, p, heads, nexts, nodes, map, tried);
    let d = vertex_transform_until_complete::<Merges>(
        least, c, es, vs, p, heads, nexts, nodes, map,
    );
    zip_linear_chains::zip_linear_chains(d, es, vs, p, heads, nexts, nodes, map, starts)
}

// Up to 100 rounds: until one makes no rewrite, or, from the seventh on, leaves the signature that the one before left.
pub fn simplify_rounds(
    work: Work,
    least: usize,
    es: &mut [u32],
    vs: &mut [u32],
    p: &mut [u8],
    heads: &mut [u32],
    nexts: &mut [u32],
    nodes: &mut [u32],
    map: &mut [u32],
    starts: &mut [u32],
    tried: &mut [u8],
    sig: &mut [u32],
) -> Simplified
    requires { Ready least work.held es.old vs.old p.old heads.old nexts.old nodes.old map.old
        × (Countable 500 work.rewrites heads.old × (Scratch heads.old starts.old tried.old
        × (signature_room heads.old nexts.old ≤ length sig.old))) }
    ensures { Whole least work es.old vs.old p.old heads.old nexts.old result
        es.new vs.new p.new }
{
    let mut w = work;
    let mut old = 0;
    for n in 0..100 {
        let before = w.rewrites;
        w = simplify_graph_once(w, least, es, vs, p, heads, nexts, nodes, map, starts, tried);
        if w.rewrites == before {
            return end_with(w, n + 1, 1);
        }
        if 6 <= n {
            let s = signature::replace_signature(sig, old, w.held, es, vs, p);
            if s.same {
                return end_with(w, n + 1, 2);
            }
            old = s.at;
        }
    }
    end_with(w, 100, 3)
}

// A zip, then the rounds.
pub fn simplify_graph_full(
    held: Held,
    least: usize,
    es: &mut [u32],
    vs: &mut [u32],
    p: &mut [u8],
    heads: &mut [u32],
    nexts: &mut [u32],
    nodes: &mut [u32],
    map: &mut [u32],
    starts: &mut [u32],
    tried: &mut [u8],
    sig: &mut [u32],
) -> Simplified
    requires { Simplifiable least held es.old vs.old p.old heads.old nexts.old nodes.old map.old starts.old tried.old sig.old }
    ensures { Full least held es.old vs.old p.old heads.old nexts.old result
        es.new vs.new p.new }
{
    index::build_index(es, held.m, held.n, heads, nexts);
    let work = Work { held, rewrites: 0 };
    let zipped = zip_linear_chains::zip_linear_chains(
        work, es, vs, p, heads, nexts, nodes, map, starts,
    );
    simplify_rounds(
        zipped, least, es, vs, p, heads, nexts, nodes, map, starts, tried, sig,
    )
}
