// A vertex's sequence of a record of either kind, as the part of the record's bytes that holds it. Nothing is asked of the caller.
#![tactic(auto)]

ghost use Rattle.std.specs.Prelude.{◌≡◌, ◌&&◌, ◌||◌};
ghost use Rattle.defs.specs.Refusals.{both_kinds, record_refusal, doubled_edge, equal_kmers};
ghost use Rattle.defs.specs.Calls.{vertex_sequence_number};
ghost use Rattle.refusal.specs.Refusals.{refused_by};
ghost use Rattle.store.specs.Store.{edges_in, seqs_in};
ghost use Rattle.index.specs.Index.{Indexed};
ghost use Rattle.doubled.specs.Doubled.{Markable};
ghost use Rattle.accept.specs.Accept.{RoomToMark};
ghost use Rattle.sort.specs.Sort.{Sortable};
ghost use Rattle.kmer_order.specs.Order.{ReadableSequence};
ghost use Rattle.arrays.specs.Sized.{ClassToRead};
ghost use Rattle.vertex_sequence.specs.Checks.{Checkable, Checks, LoadedToCheck};
ghost use Rattle.vertex_sequence.specs.Handed.{Handed, Placed};

use arrays::{
    FEW_EDGES, FEW_VERTICES, MANY_EDGES, MANY_VERTICES, MOST_EDGES, MOST_VERTICES, ReadingClass,
};
use memory::Held;
use record::Takes;
use refusal::Refusal;

// Where a vertex's sequence stands in the record, and how long it is.
#[derive(Clone, Copy)]
#[repr(C)]
pub struct SequencePlace {
    pub offset: u32,
    pub length: u32,
}

// Whether two edges have the same ends or, in a graph of k-mers, two vertices the same k-mer.
fn is_doubled(
    kmers: bool,
    es: &[u32],
    m: usize,
    n: usize,
    vs: &[u32],
    p: &[u8],
    heads: &[u32],
    nexts: &[u32],
    order: &mut [u32],
    scratch: &mut [u32],
) -> bool
    requires { Indexed m n es.now heads.now nexts.now
        × (Markable n scratch.old × Sortable (ReadableSequence vs.now p.now) n order.old scratch.old) }
    ensures { result ≡ (doubled_edge (edges_in m es.now) || (kmers && equal_kmers (seqs_in n vs.now p.now))) }
{
    if kmers {
        return read_kmers::is_doubled(es, m, n, vs, p, heads, nexts, order, scratch);
    }
    doubled::doubled_edge(es, m, n, heads, nexts, scratch)
}

// 6 and 7, of a graph in slices.
fn check_graph(
    kmers: bool,
    es: &[u32],
    m: usize,
    n: usize,
    vs: &[u32],
    p: &[u8],
    heads: &[u32],
    nexts: &[u32],
    order: &mut [u32],
    scratch: &mut [u32],
    place: &mut [u32],
) -> Result<(), Refusal>
    requires { Checkable m n es.now vs.now p.now heads.now nexts.now order.old scratch.old place.old }
    ensures { Checks kmers m n es.now vs.now p.now (refused_by result) }
{
    if is_doubled(kmers, es, m, n, vs, p, heads, nexts, order, scratch) {
        return Err(Refusal::Doubled);
    }
    if cycle::has_cycle(es, m, n, heads, nexts, scratch, place) {
        return Err(Refusal::HasCycle);
    }
    Ok(())
}

// The same of the graph that was read of a record.
fn check_loaded(
    rec: &[u8],
    held: Held,
    es: &[u32],
    vs: &[u32],
    heads: &mut [u32],
    nexts: &mut [u32],
    order: &mut [u32],
    scratch: &mut [u32],
    place: &mut [u32],
) -> Result<(), Refusal>
    requires { LoadedToCheck rec.now held es.now vs.now heads.old nexts.old order.old scratch.old place.old }
    ensures { refused_by result ≡ record_refusal both_kinds rec.now }
{
    index::build_index(es, held.m, held.n, heads, nexts);
    check_graph(
        rec[4] == 0,
        es,
        held.m,
        held.n,
        vs,
        rec,
        heads,
        nexts,
        order,
        scratch,
        place,
    )
}

// 1 to 7, of a record that is read into slices that have room for it.
// Laid into the function that has the arrays: a frame of its own would be on the stack with all that is below.
#[inline(always)]
fn check_lent(
    rec: &[u8],
    es: &mut [u32],
    vs: &mut [u32],
    heads: &mut [u32],
    nexts: &mut [u32],
    order: &mut [u32],
    scratch: &mut [u32],
    place: &mut [u32],
) -> Result<(), Refusal>
    requires { RoomToMark rec.now es.old vs.old heads.old nexts.old order.old scratch.old place.old }
    ensures { refused_by result ≡ record_refusal both_kinds rec.now }
{
    let k = record::check_layout(rec, Takes::BothKinds)?;
    let held = load::load_graph(rec, k, es, vs);
    check_loaded(rec, held, es, vs, heads, nexts, order, scratch, place)
}

// In the arrays of the class of V vertices and E edges: a few long rows each, since many short ones are cleared twice. Never laid into the caller: its
// frame would have the arrays of all classes, and every record would take them.
#[inline(never)]
fn check_in<const V: usize, const E: usize>(rec: &[u8]) -> Result<(), Refusal>
    requires { ClassToRead V E rec.now }
    ensures { refused_by result ≡ record_refusal both_kinds rec.now }
{
    let mut es = [[0u32; E]; 4];
    let mut vs = [[0u32; V]; 2];
    let mut heads = [[0u32; V]; 2];
    let mut nexts = [[0u32; E]; 2];
    let mut order = [0u32; V];
    let mut scratch = [0u32; V];
    let mut place = [0u32; V];
    check_lent(
        rec,
        es.as_flattened_mut(),
        vs.as_flattened_mut(),
        heads.as_flattened_mut(),
        nexts.as_flattened_mut(),
        &mut order,
        &mut scratch,
        &mut place,
    )
}

fn check_record(rec: &[u8]) -> Result<(), Refusal>
    ensures { refused_by result ≡ record_refusal both_kinds rec.now }
{
    match arrays::class_to_read(rec) {
        ReadingClass::Small => check_in::<FEW_VERTICES, FEW_EDGES>(rec),
        ReadingClass::Large => check_in::<MANY_VERTICES, MANY_EDGES>(rec),
        ReadingClass::Vast => check_in::<MOST_VERTICES, MOST_EDGES>(rec),
    }
}

// 1 to 7, and 9 where v is no vertex.
fn check_vertex(rec: &[u8], v: u32) -> Result<(), Refusal>
    ensures { refused_by result ≡ vertex_sequence_number rec.now v }
{
    check_record(rec)?;
    if record::vertex_count(rec, form::form_of(rec)) <= v as usize {
        return Err(Refusal::NotInGraph);
    }
    Ok(())
}

pub fn vertex_sequence<'a>(rec: &'a [u8], v: u32, number: &mut u32) -> &'a [u8]
    ensures { Handed rec.now v number.new result.now }
{
    if let Err(refusal) = check_vertex(rec, v) {
        *number = refusal.number();
        return &rec[0..0];
    }
    *number = 0;
    sequence::sequence_part(rec, v as usize)
}

// The same as a place in the record.
pub fn vertex_sequence_place(rec: &[u8], v: u32, number: &mut u32) -> SequencePlace
    ensures { Placed rec.now v number.new result }
{
    if let Err(refusal) = check_vertex(rec, v) {
        *number = refusal.number();
        return SequencePlace {
            offset: 0,
            length: 0,
        };
    }
    *number = 0;
    let at = sequence::sequence_start(rec, v as usize);
    let len = record::length_at(rec, form::form_of(rec), v as usize);
    SequencePlace {
        offset: at as u32,
        length: len as u32,
    }
}
