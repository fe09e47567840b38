// The calls that rewrite a graph, from record to record: what both do is said once, over which of them it is. First in slices, then in arrays
// of one of five classes, which a call has on its stack.
#![tactic(auto)]

ghost use Rattle.std.specs.Prelude.{◌≡◌, ◌+◌, ◌*◌};
ghost use Rattle.defs.specs.Forms.{form_of};
ghost use Rattle.form.specs.Coded.{form_is};
ghost use Rattle.refusal.specs.Refusals.{number_of_refusal};
ghost use Rattle.arrays.specs.Sized.{ClassToRewrite, Lent};
ghost use Rattle.rewriting_calls.specs.Answered.{HeldAnswerable, HeldAnswered, RewritingAnswered, RewritingAnsweredTo};

use arrays::{
    HUGE_EDGES, HUGE_RECORD, HUGE_SIGNATURE, HUGE_VERTICES, LARGE_EDGES, LARGE_SIGNATURE,
    LARGE_VERTICES, MEDIUM_EDGES, MEDIUM_SIGNATURE, MEDIUM_VERTICES, SMALL_EDGES, SMALL_RECORD,
    SMALL_SIGNATURE, SMALL_VERTICES, VAST_EDGES, VAST_SIGNATURE, VAST_VERTICES,
};
use calls::Answer;
use form::Form;
use memory::Held;
use refusal::Refusal;
use rewriting::RewritingCall;
use tallies::LAST_CALLER;

// What a call answers. Of a refused call only what was sent counts.
#[derive(Clone, Copy)]
pub struct RewritingAnswer {
    pub sent: Answer,
    pub status: u32,
    pub rewrites: u32,
    pub rounds: u32,
    pub end: u32,
}

// The graph that is held, rewritten, and its record sent, in this form.
fn answer_held(
    call: RewritingCall,
    form: Form,
    held: Held,
    out: &mut [u8],
    es: &mut [u32],
    vs: &mut [u32],
    p: &mut [u8],
    heads: &mut [u32],
    nexts: &mut [u32],
    nodes: &mut [u32],
    map: &mut [u32],
    starts: &mut [u32],
    tried: &mut [u8],
    sig: &mut [u32],
) -> RewritingAnswer
    requires { HeldAnswerable (form_is form) held es.old vs.old p.old heads.old nexts.old nodes.old map.old starts.old tried.old sig.old }
    ensures { HeldAnswered call (form_is form) held es.old vs.old p.old out.old result out.new }
{
    let made = rewriting::rewrite(
        call, held, es, vs, p, heads, nexts, nodes, map, starts, tried, sig,
    );
    let sent = calls::send_record(out, form, made.status, made.held, es, vs, p);
    RewritingAnswer {
        sent,
        status: made.status,
        rewrites: made.rewrites,
        rounds: made.rounds,
        end: made.end,
    }
}

fn refused(refusal: Refusal) -> RewritingAnswer
    ensures { result.sent ≡ record { number = number_of_refusal refusal; length = 0 } }
{
    RewritingAnswer {
        sent: Answer::from(refusal),
        status: 0,
        rewrites: 0,
        rounds: 0,
        end: 0,
    }
}

// The record read into slices that have room for it, and answered.
// Laid into the function that has the arrays: a frame of its own would be on the stack with all that is below.
#[inline(always)]
fn answer_lent(
    call: RewritingCall,
    rec: &[u8],
    out: &mut [u8],
    es: &mut [u32],
    vs: &mut [u32],
    p: &mut [u8],
    heads: &mut [u32],
    nexts: &mut [u32],
    nodes: &mut [u32],
    map: &mut [u32],
    starts: &mut [u32],
    tried: &mut [u8],
    sig: &mut [u32],
) -> RewritingAnswer
    requires { Lent rec.now es.old vs.old p.old heads.old nexts.old nodes.old map.old starts.old tried.old sig.old }
    ensures { RewritingAnswered call rec.now out.old result out.new }
{
    let form = form::form_of(rec);
    let held = match rewriting::read_and_hold(rec, es, vs, p, heads, nexts, nodes, map) {
        Ok(held) => held,
        Err(refusal) => return refused(refusal),
    };
    answer_held(
        call, form, held, out, es, vs, p, heads, nexts, nodes, map, starts, tried, sig,
    )
}

// In the arrays of the class of V vertices and E edges, with a signature's length as S: a few long rows each, since many short ones are cleared twice,
// and rows that are copied, since a row written out would be on the stack beside them. Never laid into the caller: its frame would have the arrays of all
// classes, and every record would take them.
#[inline(never)]
fn answer_in<const V: usize, const E: usize, const S: usize>(
    call: RewritingCall,
    rec: &[u8],
    out: &mut [u8],
) -> RewritingAnswer
    requires { ClassToRewrite V E rec.now × (S ≡ 2 + 2 * V + 3 * E) }
    ensures { RewritingAnswered call rec.now out.old result out.new }
{
    let mut nodes = [0u32; E];
    let mut starts = [0u32; V];
    let mut tried = [0u8; V];
    let mut es = [nodes; 8];
    let mut vs = [starts; 4];
    let mut p = [tried; 3];
    let mut heads = [starts; 2];
    let mut nexts = [nodes; 2];
    let mut map = [starts; 2];
    let mut sig = [0u32; S];
    answer_lent(
        call,
        rec,
        out,
        es.as_flattened_mut(),
        vs.as_flattened_mut(),
        p.as_flattened_mut(),
        heads.as_flattened_mut(),
        nexts.as_flattened_mut(),
        &mut nodes,
        map.as_flattened_mut(),
        &mut starts,
        &mut tried,
        &mut sig,
    )
}

// In the arrays of the record's class: the smallest that its counts allow, but for a short record, whose counts are not asked. One that does not
// begin SGR2 is refused, if it is, by the limits of SGR1, for which the large arrays are enough.
fn by_class(call: RewritingCall, rec: &[u8], out: &mut [u8]) -> RewritingAnswer
    ensures { RewritingAnswered call rec.now out.old result out.new }
{
    if rec.len() <= SMALL_RECORD {
        return answer_in::<SMALL_VERTICES, SMALL_EDGES, SMALL_SIGNATURE>(call, rec, out);
    }
    let form = form::form_of(rec);
    let bytes = record::byte_count(rec, form);
    let weight = record::vertex_count(rec, form) + bytes;
    let surplus = record::edge_count(rec, form) + bytes / 4;
    if weight < SMALL_VERTICES && surplus <= SMALL_EDGES - SMALL_VERTICES {
        return answer_in::<SMALL_VERTICES, SMALL_EDGES, SMALL_SIGNATURE>(call, rec, out);
    }
    if weight < MEDIUM_VERTICES && surplus <= MEDIUM_EDGES - MEDIUM_VERTICES {
        return answer_in::<MEDIUM_VERTICES, MEDIUM_EDGES, MEDIUM_SIGNATURE>(call, rec, out);
    }
    if weight < LARGE_VERTICES && surplus <= LARGE_EDGES - LARGE_VERTICES {
        return answer_in::<LARGE_VERTICES, LARGE_EDGES, LARGE_SIGNATURE>(call, rec, out);
    }
    match form {
        Form::Sgr1 => answer_in::<LARGE_VERTICES, LARGE_EDGES, LARGE_SIGNATURE>(call, rec, out),
        Form::Sgr2
            if rec.len() <= HUGE_RECORD
                || (weight < HUGE_VERTICES && surplus <= HUGE_EDGES - HUGE_VERTICES) => {
            answer_in::<HUGE_VERTICES, HUGE_EDGES, HUGE_SIGNATURE>(call, rec, out)
        }
        Form::Sgr2 => answer_in::<VAST_VERTICES, VAST_EDGES, VAST_SIGNATURE>(call, rec, out),
    }
}

// A caller above 15 is refused before the record is looked at.
pub fn answer(call: RewritingCall, rec: &[u8], out: &mut [u8], caller: u32) -> RewritingAnswer
    ensures { RewritingAnsweredTo call rec.now out.old caller result out.new }
{
    if LAST_CALLER < caller {
        return refused(Refusal::NoSuchCaller);
    }
    by_class(call, rec, out)
}
