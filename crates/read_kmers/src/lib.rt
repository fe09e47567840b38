// Reading a record of kind 0, a k-mer graph: its refusal, or the graph in the slices, its k-mers in the record itself, indexed, with
// the vertices in the order of their k-mers. What is asked behind 6 depends on the call: conversion asks 15, whether the k-mers overlap, and then 7.
#![tactic(auto)]

ghost use Rattle.index.specs.Index.{Indexed};
ghost use Rattle.doubled.specs.Doubled.{Markable};
ghost use Rattle.accept.specs.Accept.{RoomToRead, RoomToMark};
ghost use Rattle.sort.specs.Sort.{Sortable};
ghost use Rattle.kmer_order.specs.Order.{ReadableSequence};
ghost use Rattle.read_kmers.specs.Kmers.{kmer_causes, overlapping_causes, Doubles, KmersRead};

use memory::Held;
use record::Takes;
use refusal::Refusal;

// Whether two edges have the same ends, or two vertices the same k-mer: the cause of 6.
pub fn is_doubled(
    es: &[u32],
    m: usize,
    n: usize,
    vs: &[u32],
    p: &[u8],
    heads: &[u32],
    nexts: &[u32],
    order: &mut [u32],
    scratch: &mut [u32],
) -> bool
    requires { Indexed m n es.now heads.now nexts.now
        × (Markable n scratch.old × Sortable (ReadableSequence vs.now p.now) n order.old scratch.old) }
    ensures { Doubles m n es.now vs.now p.now result order.new }
{
    if doubled::doubled_edge(es, m, n, heads, nexts, scratch) {
        return true;
    }
    kmer_order::kmer_order(order, scratch, n, vs, p);
    kmer_order::equal_kmers(order, n, vs, p)
}

// 1 to 6.
pub fn read_kmer_graph(
    rec: &[u8],
    es: &mut [u32],
    vs: &mut [u32],
    heads: &mut [u32],
    nexts: &mut [u32],
    order: &mut [u32],
    scratch: &mut [u32],
) -> Result<Held, Refusal>
    requires { RoomToRead rec.now es.old vs.old heads.old nexts.old order.old scratch.old }
    ensures { KmersRead (kmer_causes rec.now) rec.now result es.new vs.new heads.new
        nexts.new order.new }
{
    let k = record::check_layout(rec, Takes::KmerOnly)?;
    let held = load::load_graph(rec, k, es, vs);
    let Held { n, m, .. } = held;
    index::build_index(es, m, n, heads, nexts);
    if is_doubled(es, m, n, vs, rec, heads, nexts, order, scratch) {
        return Err(Refusal::Doubled);
    }
    Ok(held)
}

// 1 to 6, 15, 7.
pub fn read_overlapping_kmer_graph(
    rec: &[u8],
    es: &mut [u32],
    vs: &mut [u32],
    heads: &mut [u32],
    nexts: &mut [u32],
    order: &mut [u32],
    scratch: &mut [u32],
    place: &mut [u32],
) -> Result<Held, Refusal>
    requires { RoomToMark rec.now es.old vs.old heads.old nexts.old order.old scratch.old place.old }
    ensures { KmersRead (overlapping_causes rec.now) rec.now result es.new vs.new
        heads.new nexts.new order.new }
{
    let held = read_kmer_graph(rec, es, vs, heads, nexts, order, scratch)?;
    let Held { k, n, m, .. } = held;
    if overlap::edge_without_overlap(rec, k) {
        return Err(Refusal::NoOverlap);
    }
    if cycle::has_cycle(es, m, n, heads, nexts, scratch, place) {
        return Err(Refusal::HasCycle);
    }
    Ok(held)
}
