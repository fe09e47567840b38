// The public call `from_assembly_graph`: a k-mer record's graph as a sequence graph's record of the same form. Nothing is asked of the caller.
#![tactic(auto)]

ghost use Rattle.std.specs.Prelude.{length};
ghost use Rattle.calls.specs.Sending.{Responds};
ghost use Rattle.arrays.specs.Sized.{ClassToRead};
ghost use Rattle.from_kmers.specs.Conversion.{RoomToConvert};
ghost use Rattle.from_assembly_graph.specs.Converts.{conversion_response, HeldToConvert, Converts};

use arrays::{
    FEW_EDGES, FEW_VERTICES, MANY_EDGES, MANY_VERTICES, MOST_EDGES, MOST_VERTICES, ReadingClass,
};
use calls::Answer;
use memory::Held;
use refusal::Refusal;
use tallies::LAST_CALLER;

// The graph that was read of the record, converted, and its record sent, in the form of the one handed in.
fn convert_held(
    rec: &[u8],
    out: &mut [u8],
    held: Held,
    es: &[u32],
    vs: &mut [u32],
    heads: &[u32],
    nexts: &[u32],
    order: &mut [u32],
    scratch: &mut [u32],
    place: &mut [u32],
    sorted: &mut [u32],
) -> Answer
    requires { HeldToConvert rec.now held es.now vs.old heads.now nexts.now order.old scratch.old place.old sorted.old }
    ensures { Responds (conversion_response rec.now (length out.old)) out.old result out.new }
{
    let form = form::form_of(rec);
    let converted = from_kmers::convert(
        form, held, es, vs, heads, nexts, order, scratch, place, sorted,
    );
    let made = converted.map_err(Refusal::number);
    calls::send(made, form, 0, out, sorted, vs, rec)
}

// The record read into slices that have room for it, and its graph converted. `order` and `scratch` hold numbers of vertices, then of edges.
// Laid into the function that has the arrays: a frame of its own would be on the stack with all that is below.
#[inline(always)]
fn convert_lent(
    rec: &[u8],
    out: &mut [u8],
    es: &mut [u32],
    vs: &mut [u32],
    heads: &mut [u32],
    nexts: &mut [u32],
    order: &mut [u32],
    scratch: &mut [u32],
    place: &mut [u32],
    sorted: &mut [u32],
) -> Answer
    requires { RoomToConvert rec.now es.old vs.old heads.old nexts.old order.old scratch.old place.old sorted.old }
    ensures { Responds (conversion_response rec.now (length out.old)) out.old result out.new }
{
    let held = match read_kmers::read_overlapping_kmer_graph(
        rec, es, vs, heads, nexts, order, scratch, place,
    ) {
        Ok(held) => held,
        Err(refusal) => return Answer::from(refusal),
    };
    convert_held(
        rec, out, held, es, vs, heads, nexts, order, scratch, place, sorted,
    )
}

// In the arrays of the class of V vertices and E edges: a few long rows each, since many short ones are cleared twice. Never laid into the caller: its
// frame would have the arrays of all classes, and every record would take them.
#[inline(never)]
fn convert_in<const V: usize, const E: usize>(rec: &[u8], out: &mut [u8]) -> Answer
    requires { ClassToRead V E rec.now }
    ensures { Responds (conversion_response rec.now (length out.old)) out.old result out.new }
{
    let mut es = [[0u32; E]; 4];
    let mut vs = [[0u32; V]; 2];
    let mut heads = [[0u32; V]; 2];
    let mut nexts = [[0u32; E]; 2];
    let mut order = [0u32; E];
    let mut scratch = [0u32; E];
    let mut place = [0u32; V];
    let mut sorted = [[0u32; E]; 4];
    convert_lent(
        rec,
        out,
        es.as_flattened_mut(),
        vs.as_flattened_mut(),
        heads.as_flattened_mut(),
        nexts.as_flattened_mut(),
        &mut order,
        &mut scratch,
        &mut place,
        sorted.as_flattened_mut(),
    )
}

fn convert(rec: &[u8], out: &mut [u8]) -> Answer
    ensures { Responds (conversion_response rec.now (length out.old)) out.old result out.new }
{
    match arrays::class_to_read(rec) {
        ReadingClass::Small => convert_in::<FEW_VERTICES, FEW_EDGES>(rec, out),
        ReadingClass::Large => convert_in::<MANY_VERTICES, MANY_EDGES>(rec, out),
        ReadingClass::Vast => convert_in::<MOST_VERTICES, MOST_EDGES>(rec, out),
    }
}

// A caller above 15 is refused before the record is looked at.
pub fn from_assembly_graph(rec: &[u8], out: &mut [u8], caller: u32) -> Answer
    ensures { Converts rec.now out.old caller result out.new }
{
    if LAST_CALLER < caller {
        return Answer::from(Refusal::NoSuchCaller);
    }
    convert(rec, out)
}
