// The lines of a printed graph, from the slices.
#![tactic(auto)]

ghost use Rattle.std.specs.Prelude.{cond, ◌++◌, ◌+◌, ◌*◌, ◌<◌, ◌≤◌, length};
ghost use Rattle.defs.specs.Lists.{concat, tab};
ghost use Rattle.store.specs.Store.{edge_in, seq_in};
ghost use Rattle.text.specs.Printed.{ascii, first_line, end_name, second_line, vertex_line, edge_line, printed_refusal};
ghost use Rattle.text.specs.Put.{TextPut};
ghost use Rattle.graph_text.specs.GraphText.{end_with_number, size_in, VertexFits, vertices_most, VerticesFit, EdgeLinesFit, HeadFits, Printable, LinesPut};

use kmer::KmerSize;
use memory::Held;

// k, the counts, and edges minus vertices.
fn put_first_line(text: &mut [u8], k: KmerSize, n: usize, m: usize, b: usize) -> usize
    requires { (87 ≤ length text.old) × ((n < 65536) × ((m < 65536) × (b < 4294967296))) }
    ensures { TextPut 87 (first_line k.0 n m b) text.old 0 result text.new }
{
    let mut to = text::put_field(text, 0, b"k ", kmer::value(k) as u32);
    to = text::put_field(text, to, b" vertices ", n as u32);
    to = text::put_field(text, to, b" edges ", m as u32);
    to = text::put_field(text, to, b" bytes ", b as u32);
    to = text::put_bytes(text, to, b" surplus ");
    to = text::put_signed(text, to, text::surplus(m, n));
    text::put_bytes(text, to, b"\n")
}

// The name of an end: 1 quiet, 2 repeated, 3 full.
fn put_end(text: &mut [u8], at: usize, end: u32) -> usize
    requires { at + 8 ≤ length text.old }
    ensures { TextPut 8 (ascii (end_name (end_with_number end))) text.old at result text.new }
{
    match end {
        1 => text::put_bytes(text, at, b"quiet"),
        2 => text::put_bytes(text, at, b"repeated"),
        _ => text::put_bytes(text, at, b"full"),
    }
}

fn put_second_line(text: &mut [u8], at: usize, rewrites: u32, rounds: u32, end: u32) -> usize
    requires { at + 51 ≤ length text.old }
    ensures { TextPut 51 (second_line rewrites rounds (end_with_number end)) text.old at result text.new }
{
    let mut to = text::put_field(text, at, b"rewrites ", rewrites);
    to = text::put_field(text, to, b" rounds ", rounds);
    to = text::put_bytes(text, to, b" end ");
    to = put_end(text, to, end);
    text::put_bytes(text, to, b"\n")
}

fn put_vertex(text: &mut [u8], at: usize, vs: &[u32], p: &[u8], v: u32) -> usize
    requires { VertexFits vs.now p.now v text.old at }
    ensures { TextPut (15 + 4 * size_in vs.now v) (vertex_line v (seq_in vs.now p.now v))
        text.old at result text.new }
{
    let start = store::vertex_start(vs, v);
    let len = store::vertex_len(vs, v);
    let mut to = text::put_field(text, at, b"v ", v);
    to = text::put_bytes(text, to, b" ");
    to = text::put_sequence(text, to, &p[start..start + len]);
    text::put_bytes(text, to, b"\n")
}

fn put_vertices(text: &mut [u8], at: usize, vs: &[u32], p: &[u8], n: usize) -> usize
    requires { VerticesFit n vs.now p.now text.old at }
    ensures { TextPut (vertices_most n vs.now)
        (concat (tab n (λ v. vertex_line v (seq_in vs.now p.now v)))) text.old at result text.new }
{
    let mut to = at;
    for v in 0..n {
        to = put_vertex(text, to, vs, p, v as u32);
    }
    to
}

// r for a reference edge, else -.
fn put_ref(text: &mut [u8], at: usize, reference: bool) -> usize
    requires { at + 2 ≤ length text.old }
    ensures { TextPut 2 (cond reference (ascii " r") (ascii " -")) text.old at result text.new }
{
    if reference {
        text::put_bytes(text, at, b" r")
    } else {
        text::put_bytes(text, at, b" -")
    }
}

// c for a capped edge, and the line's end.
fn put_capped(text: &mut [u8], at: usize, capped: bool) -> usize
    requires { at + 2 ≤ length text.old }
    ensures { TextPut 2 (cond capped (ascii "c\n") (ascii "\n")) text.old at result text.new }
{
    if capped {
        text::put_bytes(text, at, b"c\n")
    } else {
        text::put_bytes(text, at, b"\n")
    }
}

fn put_edge(text: &mut [u8], at: usize, es: &[u32], i: usize) -> usize
    requires { (at + 38 ≤ length text.old) × (4 * i + 4 ≤ length es.now) }
    ensures { TextPut 38 (edge_line (edge_in es.now i)) text.old at result text.new }
{
    let mut to = text::put_field(text, at, b"e ", store::edge_from(es, i));
    to = text::put_field(text, to, b" ", store::edge_to(es, i));
    to = text::put_field(text, to, b" ", store::edge_support(es, i));
    to = put_ref(text, to, store::edge_is_ref(es, i));
    put_capped(text, to, store::edge_is_capped(es, i))
}

fn put_edges(text: &mut [u8], at: usize, es: &[u32], m: usize) -> usize
    requires { EdgeLinesFit m es.now text.old at }
    ensures { TextPut (38 * m) (concat (tab m (λ i. edge_line (edge_in es.now i)))) text.old at result text.new }
{
    let mut to = at;
    for i in 0..m {
        to = put_edge(text, to, es, i);
    }
    to
}

// The first two lines, of a held graph with b bytes and what was counted when it was made.
pub fn put_head(
    text: &mut [u8],
    held: Held,
    b: usize,
    rewrites: u32,
    rounds: u32,
    end: u32,
) -> usize
    requires { HeadFits held b text.old }
    ensures { TextPut 138 (first_line held.k.0 held.n held.m b ++ second_line rewrites rounds (end_with_number end)) text.old 0 result
        text.new }
{
    let to = put_first_line(text, held.k, held.n, held.m, b);
    put_second_line(text, to, rewrites, rounds, end)
}

// The lines of its vertices and edges, behind those.
pub fn put_lines(text: &mut [u8], at: usize, held: Held, es: &[u32], vs: &[u32], p: &[u8]) -> usize
    requires { Printable held es.now vs.now p.now text.old × (at ≤ 138) }
    ensures { LinesPut held es.now vs.now p.now text.old at result text.new }
{
    let to = put_vertices(text, at, vs, p, held.n);
    put_edges(text, to, es, held.m)
}

pub fn put_refusal(text: &mut [u8], number: u32) -> usize
    requires { 19 ≤ length text.old }
    ensures { TextPut 19 (printed_refusal number) text.old 0 result text.new }
{
    let to = text::put_field(text, 0, b"refused ", number);
    text::put_bytes(text, to, b"\n")
}
