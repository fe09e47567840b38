// The text of what simplification makes of a record. Nothing is asked of the caller.
#![tactic(auto)]

ghost use Rattle.std.specs.Prelude.{◌≡◌, ◌<◌, ◌≤◌, length};
ghost use Rattle.show.specs.Show.{Recorded, FewShown, GraphPut, Printing, AnswerPut, Shown};

use arrays::{FEW_EDGES, FEW_VERTICES};
use calls::SimplifyAnswer;

// The longest record that is read, and the longest answer that is printed.
pub const RECORD_MOST: usize = 65536;

// Room for the text of every answer whose record is that short.
pub const TEXT_MOST: usize = 344000;

// What so short a record can hold: in SGR1 as many vertices as an answer has, 10,240, in SGR2 four bytes for each behind the 36 of the head; nine bytes an
// edge in SGR1 behind the 32 of the head.
const SHOWN_VERTICES: usize = 16375;

const SHOWN_EDGES: usize = 7278;

// The text of the graph that a record holds, which may be past the limits of input, and of what was counted when it was made, in the arrays of
// the class of V vertices and E edges. Never laid into the caller: its arrays would be in the frame that is there while the graph is simplified,
// and would not fit beside it on a stack of 8 MiB.
#[inline(never)]
fn put_in<const V: usize, const E: usize>(
    text: &mut [u8],
    made: SimplifyAnswer,
    rec: &[u8],
) -> usize
    requires { Recorded rec.now × ((344000 ≤ length text.old) × (FewShown V E rec.now × ((V < 65536) × (E < 65536)))) }
    ensures { GraphPut made rec.now text.old result text.new }
{
    // The record that a call wrote has a k of 2 to 128, so the other arm is never taken.
    let Some(k) = record::kmer_size_of(rec) else {
        return 0;
    };
    let mut edges = [[0u32; E]; 4];
    let mut vertices = [[0u32; V]; 2];
    let es = edges.as_flattened_mut();
    let vs = vertices.as_flattened_mut();
    let held = load::load_graph(rec, k, es, vs);
    let b = write_record::sequence_bytes(vs, held.n);
    let to = graph_text::put_head(text, held, b, made.rewrites, made.rounds, made.end);
    graph_text::put_lines(text, to, held, es, vs, rec)
}

// In arrays of the class that the counts ask for.
fn put_record(text: &mut [u8], made: SimplifyAnswer, rec: &[u8]) -> usize
    requires { Recorded rec.now × (344000 ≤ length text.old) }
    ensures { GraphPut made rec.now text.old result text.new }
{
    let form = form::form_of(rec);
    if FEW_VERTICES < record::vertex_count(rec, form) || FEW_EDGES < record::edge_count(rec, form) {
        put_in::<SHOWN_VERTICES, SHOWN_EDGES>(text, made, rec)
    } else {
        put_in::<FEW_VERTICES, FEW_EDGES>(text, made, rec)
    }
}

// The text of an answer, whose record stands at the front of `out`, or of a refusal.
fn put_answer(text: &mut [u8], made: SimplifyAnswer, out: &[u8]) -> usize
    requires { Printing made out.now × (344000 ≤ length text.old) }
    ensures { AnswerPut made out.now text.old result text.new }
{
    if made.number != 0 {
        return graph_text::put_refusal(text, made.number);
    }
    put_record(text, made, &out[..made.length as usize])
}

// Input of more than 65,536 bytes counts as 1, whatever it is. An answer record over 65,536 bytes does not fit `out`, and is told as 11.
fn show_in(rec: &[u8], text: &mut [u8], out: &mut [u8]) -> usize
    requires { (length out.old ≡ 65536) × (344000 ≤ length text.old) }
    ensures { Shown rec.now text.old result text.new }
{
    if RECORD_MOST < rec.len() {
        return graph_text::put_refusal(text, 1);
    }
    let made = simplify_graph::simplify_graph(rec, out, 0);
    put_answer(text, made, out)
}

// Whole arrays, whose lengths are known.
fn show_with(rec: &[u8], text: &mut [u8; TEXT_MOST], out: &mut [u8; RECORD_MOST]) -> usize
    ensures { Shown rec.now text.old result text.new }
{
    show_in(rec, text, out)
}

// Writes the text to the front of `text`; how long it is.
pub fn show(rec: &[u8], text: &mut [u8; TEXT_MOST]) -> usize
    ensures { Shown rec.now text.old result text.new }
{
    let mut out = [0u8; RECORD_MOST];
    show_with(rec, text, &mut out)
}
