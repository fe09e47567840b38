// The calls that rewrite a graph: a record is read and held, and its graph simplified or cleaned, in slices. What the two calls have in common
// is said once, over which of them it is.
#![tactic(auto)]

ghost use Rattle.std.specs.Prelude.{◌≡◌};
ghost use Rattle.defs.specs.Cleanup.{status_number};
ghost use Rattle.arrays.specs.Sized.{LentGraph};
ghost use Rattle.choice.specs.Choice.{Cleanable};
ghost use Rattle.cleanup_steps.specs.CleanUp.{cleanup_status_of};
ghost use Rattle.rewriting.specs.Rewriting.{HeldAs, GraphRewritten};
ghost use Rattle.rewriting.specs.declared.RewritingCall.TheVariants as call;

use cleanup_steps::SeqGraphCleanupStatus;
use memory::Held;
use refusal::Refusal;

#[derive(Clone, Copy)]
pub enum RewritingCall {
    SimplifyGraph,
    CleanupSeqGraph,
}

// What became of a graph: it is rewritten, and the slices hold it; and what the call counted. A number that a call does not have is 0.
#[derive(Clone, Copy)]
pub struct Rewritten {
    pub held: Held,
    pub status: u32,
    pub rewrites: u32,
    pub rounds: u32,
    pub end: u32,
}

// The number of a status, as a record has it.
fn status_number(status: SeqGraphCleanupStatus) -> u32
    ensures { result ≡ status_number (cleanup_status_of status) }
{
    match status {
        SeqGraphCleanupStatus::JustAssembledReference => 1,
        SeqGraphCleanupStatus::AssembledSomeVariation => 2,
    }
}

fn simplify(
    held: Held,
    es: &mut [u32],
    vs: &mut [u32],
    p: &mut [u8],
    heads: &mut [u32],
    nexts: &mut [u32],
    nodes: &mut [u32],
    map: &mut [u32],
    starts: &mut [u32],
    tried: &mut [u8],
    sig: &mut [u32],
) -> Rewritten
    requires { Cleanable held es.old vs.old p.old heads.old nexts.old nodes.old map.old starts.old tried.old sig.old }
    ensures { GraphRewritten call.SimplifyGraph held es.old vs.old p.old heads.old
        nexts.old result es.new vs.new p.new }
{
    let s = rounds::simplify_graph_full(
        held,
        rounds::MIN_TAIL_SUFFIX_LEN,
        es,
        vs,
        p,
        heads,
        nexts,
        nodes,
        map,
        starts,
        tried,
        sig,
    );
    Rewritten {
        held: s.held,
        status: 0,
        rewrites: s.rewrites,
        rounds: s.rounds,
        end: s.end,
    }
}

fn clean_up(
    held: Held,
    es: &mut [u32],
    vs: &mut [u32],
    p: &mut [u8],
    heads: &mut [u32],
    nexts: &mut [u32],
    nodes: &mut [u32],
    map: &mut [u32],
    starts: &mut [u32],
    tried: &mut [u8],
    sig: &mut [u32],
) -> Rewritten
    requires { Cleanable held es.old vs.old p.old heads.old nexts.old nodes.old map.old starts.old tried.old sig.old }
    ensures { GraphRewritten call.CleanupSeqGraph held es.old vs.old p.old heads.old
        nexts.old result es.new vs.new p.new }
{
    let c = cleanup_steps::cleanup_seq_graph(
        held, es, vs, p, heads, nexts, nodes, map, starts, tried, sig,
    );
    Rewritten {
        held: c.held,
        status: status_number(c.status),
        rewrites: c.rewrites,
        rounds: 0,
        end: 0,
    }
}

pub fn rewrite(
    call: RewritingCall,
    held: Held,
    es: &mut [u32],
    vs: &mut [u32],
    p: &mut [u8],
    heads: &mut [u32],
    nexts: &mut [u32],
    nodes: &mut [u32],
    map: &mut [u32],
    starts: &mut [u32],
    tried: &mut [u8],
    sig: &mut [u32],
) -> Rewritten
    requires { Cleanable held es.old vs.old p.old heads.old nexts.old nodes.old map.old starts.old tried.old sig.old }
    ensures { GraphRewritten call held es.old vs.old p.old heads.old nexts.old result
        es.new vs.new p.new }
{
    match call {
        RewritingCall::SimplifyGraph => simplify(
            held, es, vs, p, heads, nexts, nodes, map, starts, tried, sig,
        ),
        RewritingCall::CleanupSeqGraph => clean_up(
            held, es, vs, p, heads, nexts, nodes, map, starts, tried, sig,
        ),
    }
}

// A record's graph, with its sequences in the pool, or its refusal.
pub fn read_and_hold(
    rec: &[u8],
    es: &mut [u32],
    vs: &mut [u32],
    p: &mut [u8],
    heads: &mut [u32],
    nexts: &mut [u32],
    nodes: &mut [u32],
    map: &mut [u32],
) -> Result<Held, Refusal>
    requires { LentGraph rec.now es.old vs.old p.old heads.old nexts.old nodes.old map.old }
    ensures { HeldAs rec.now heads.new nexts.new result es.new vs.new p.new }
{
    let held = accept::read_sequence_graph(rec, es, vs, heads, nexts, nodes, map)?;
    Ok(load::load_pool(rec, held, vs, p))
}
