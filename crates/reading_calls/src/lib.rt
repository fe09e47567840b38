// The calls that read a graph and do not rewrite it, from record to record or to bytes: what they have in common is said once, over which of
// them it is. First in slices, then in arrays of one of three classes, which a call has on its stack. The sequences are read in the record itself.
#![tactic(auto)]

ghost use Rattle.std.specs.Prelude.{◌≡◌, ℕ, ◌<◌, length};
ghost use Rattle.accept.specs.Accept.{RoomToMark};
ghost use Rattle.arrays.specs.Sized.{ClassToRead};
ghost use Rattle.refusal.specs.Refusals.{number_of_refusal};
ghost use Rattle.calls.specs.Sending.{Responds};
ghost use Rattle.reading_calls.specs.Reading.{cleaning_response, reference_response, path_response, reading_response, reading_response_to};
ghost use Rattle.reading_calls.specs.Reading.{Answerable, Tellable, Tells, GraphAnswered};

use arrays::{
    FEW_EDGES, FEW_VERTICES, MANY_EDGES, MANY_VERTICES, MOST_EDGES, MOST_VERTICES, ReadingClass,
};
use calls::Answer;
use memory::Held;
use refusal::Refusal;
use tallies::LAST_CALLER;

// A path has its start vertex here, and its edges in a list beside it.
#[derive(Clone, Copy)]
pub enum ReadingCall {
    CleanNonRefPaths,
    ReferencePathBytes,
    PathBasesBytes(u32),
}

// Of bytes that are told, or none, what is sent; `missing` refuses where there are none.
fn tell(told: Option<usize>, room: usize, missing: Refusal) -> Answer
    requires { (n : ℕ) → told ≡ Some n → n < 4294967296 }
    ensures { Tells told room (number_of_refusal missing) result }
{
    let Some(len) = told else {
        return Answer::from(missing);
    };
    if room < len {
        return Answer::from(Refusal::NoRoom);
    }
    Answer {
        number: 0,
        length: len as u32,
    }
}

fn clean_in(
    held: Held,
    out: &mut [u8],
    es: &mut [u32],
    vs: &mut [u32],
    p: &[u8],
    heads: &mut [u32],
    nexts: &mut [u32],
    nodes: &mut [u32],
    map: &mut [u32],
    tried: &mut [u8],
) -> Answer
    requires { Answerable held es.old vs.old p.now heads.old nexts.old nodes.old map.old tried.old }
    ensures { GraphAnswered cleaning_response held es.old vs.old p.now out.old result
        out.new }
{
    let cleaned = non_ref_paths::clean_non_ref_paths(held, es, vs, heads, nexts, nodes, map, tried);
    calls::send_record(out, form::form_of(p), 0, cleaned, es, vs, p)
}

// 10 where there is no reference path.
fn reference_in(
    held: Held,
    out: &mut [u8],
    es: &[u32],
    vs: &[u32],
    p: &[u8],
    heads: &mut [u32],
    nexts: &mut [u32],
    nodes: &mut [u32],
) -> Answer
    requires { Tellable held es.now vs.now p.now heads.old nexts.old nodes.old }
    ensures { GraphAnswered reference_response held es.now vs.now p.now out.old result
        out.new }
{
    index::build_index(es, held.m, held.n, heads, nexts);
    let told = reference::reference_path_bytes(held, es, vs, p, heads, nexts, nodes, out);
    tell(told, out.len(), Refusal::NoReferencePath)
}

// 9 where the start or the list of edges is no path.
fn path_in(
    held: Held,
    start: u32,
    list: &[u32],
    out: &mut [u8],
    es: &[u32],
    vs: &[u32],
    p: &[u8],
    heads: &mut [u32],
    nexts: &mut [u32],
    nodes: &mut [u32],
) -> Answer
    requires { Tellable held es.now vs.now p.now heads.old nexts.old nodes.old }
    ensures { GraphAnswered (path_response start list.now) held es.now vs.now p.now
        out.old result out.new }
{
    index::build_index(es, held.m, held.n, heads, nexts);
    let told = paths::path_bases_bytes(held, es, vs, p, heads, nexts, start, list, nodes, out);
    tell(told, out.len(), Refusal::NotInGraph)
}

fn answer_graph(
    call: ReadingCall,
    list: &[u32],
    rec: &[u8],
    held: Held,
    out: &mut [u8],
    es: &mut [u32],
    vs: &mut [u32],
    heads: &mut [u32],
    nexts: &mut [u32],
    nodes: &mut [u32],
    map: &mut [u32],
    tried: &mut [u8],
) -> Answer
    requires { Answerable held es.old vs.old rec.now heads.old nexts.old nodes.old map.old tried.old }
    ensures { GraphAnswered (reading_response call list.now) held es.old vs.old rec.now
        out.old result out.new }
{
    match call {
        ReadingCall::CleanNonRefPaths => {
            clean_in(held, out, es, vs, rec, heads, nexts, nodes, map, tried)
        }
        ReadingCall::ReferencePathBytes => {
            reference_in(held, out, es, vs, rec, heads, nexts, nodes)
        }
        ReadingCall::PathBasesBytes(start) => {
            path_in(held, start, list, out, es, vs, rec, heads, nexts, nodes)
        }
    }
}

// The record read into slices that have room for it, and answered.
// Laid into the function that has the arrays: a frame of its own would be on the stack with all that is below.
#[inline(always)]
fn answer_lent(
    call: ReadingCall,
    list: &[u32],
    rec: &[u8],
    out: &mut [u8],
    es: &mut [u32],
    vs: &mut [u32],
    heads: &mut [u32],
    nexts: &mut [u32],
    nodes: &mut [u32],
    map: &mut [u32],
    tried: &mut [u8],
) -> Answer
    requires { RoomToMark rec.now es.old vs.old heads.old nexts.old nodes.old map.old tried.old }
    ensures { Responds (reading_response call list.now rec.now (length out.old)) out.old result
        out.new }
{
    let held = match accept::read_sequence_graph(rec, es, vs, heads, nexts, nodes, map) {
        Ok(held) => held,
        Err(refusal) => return Answer::from(refusal),
    };
    answer_graph(
        call, list, rec, held, out, es, vs, heads, nexts, nodes, map, tried,
    )
}

// In the arrays of the class of V vertices and E edges: a few long rows each, since many short ones are cleared twice. Never laid into the caller: its
// frame would have the arrays of all classes, and every record would take them.
#[inline(never)]
fn answer_in<const V: usize, const E: usize>(
    call: ReadingCall,
    list: &[u32],
    rec: &[u8],
    out: &mut [u8],
) -> Answer
    requires { ClassToRead V E rec.now }
    ensures { Responds (reading_response call list.now rec.now (length out.old)) out.old result
        out.new }
{
    let mut es = [[0u32; E]; 4];
    let mut vs = [[0u32; V]; 2];
    let mut heads = [[0u32; V]; 2];
    let mut nexts = [[0u32; E]; 2];
    let mut nodes = [0u32; V];
    let mut map = [0u32; V];
    let mut tried = [0u8; V];
    answer_lent(
        call,
        list,
        rec,
        out,
        es.as_flattened_mut(),
        vs.as_flattened_mut(),
        heads.as_flattened_mut(),
        nexts.as_flattened_mut(),
        &mut nodes,
        &mut map,
        &mut tried,
    )
}

fn by_class(call: ReadingCall, list: &[u32], rec: &[u8], out: &mut [u8]) -> Answer
    ensures { Responds (reading_response call list.now rec.now (length out.old)) out.old result
        out.new }
{
    match arrays::class_to_read(rec) {
        ReadingClass::Small => answer_in::<FEW_VERTICES, FEW_EDGES>(call, list, rec, out),
        ReadingClass::Large => answer_in::<MANY_VERTICES, MANY_EDGES>(call, list, rec, out),
        ReadingClass::Vast => answer_in::<MOST_VERTICES, MOST_EDGES>(call, list, rec, out),
    }
}

// A caller above 15 is refused before the record is looked at. Of a call without a list of edges the list is not read.
pub fn answer(call: ReadingCall, list: &[u32], rec: &[u8], out: &mut [u8], caller: u32) -> Answer
    ensures { Responds (reading_response_to call list.now rec.now (length out.old) caller) out.old result
        out.new }
{
    if LAST_CALLER < caller {
        return Answer::from(Refusal::NoSuchCaller);
    }
    by_class(call, list, rec, out)
}
