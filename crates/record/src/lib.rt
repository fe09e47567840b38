// The graph record: its fields, and the refusals 1 to 5, which lie in its layout. Each function goes by the record's form.
#![tactic(auto)]

ghost use Rattle.std.specs.Prelude.{◌≡◌, ◌<◌, ◌≤◌, length, take};
ghost use Rattle.defs.specs.Lists.{any_of, up_from, tab, sum, same_list};
ghost use Rattle.defs.specs.Forms.{mark, form_of};
ghost use Rattle.defs.specs.Record.{k_of, vertices_of, edges_of, bytes_of, length_at, edge_start, edge_at, flag_at};
ghost use Rattle.defs.specs.Refusals.{refusal_of, layout_causes, takes_kind, other_length, wrong_mark, layout_disagrees, bad_edge, any_bad_edge};
ghost use Rattle.form.specs.Coded.{form_is};
ghost use Rattle.kmer.specs.Size.{size_of};
ghost use Rattle.record.specs.Headed.{Headed, LengthInside, LengthsInside, EdgeInside, EdgesInside};
ghost use Rattle.record.specs.Kinds.{takes_of};
ghost use Rattle.record.specs.Layout.{count_past_limit, other_kmer_length, offsets_disagree, LayoutOf};

use form::Form;
use kmer::KmerSize;
use refusal::Refusal;

// Which kinds a call takes.
#[derive(Clone, Copy)]
pub enum Takes {
    KmerOnly,
    SequenceOnly,
    BothKinds,
}

// The size k that the header tells, if it is one.
pub fn kmer_size_of(rec: &[u8]) -> Option<KmerSize>
    requires { 32 ≤ length rec.now }
    ensures { result ≡ size_of (k_of rec.now) }
{
    kmer::kmer_size(le::u16_at(rec, 6))
}

pub fn vertex_count(rec: &[u8], form: Form) -> usize
    requires { Headed form rec.now }
    ensures { (result ≡ vertices_of rec.now) × (result < 4294967296) }
{
    form::word_at(rec, 8, form) as usize
}

pub fn edge_count(rec: &[u8], form: Form) -> usize
    requires { Headed form rec.now }
    ensures { (result ≡ edges_of rec.now) × (result < 4294967296) }
{
    form::word_at(rec, 8 + form::word_size(form), form) as usize
}

pub fn byte_count(rec: &[u8], form: Form) -> usize
    requires { Headed form rec.now }
    ensures { (result ≡ bytes_of rec.now) × (result < 4294967296) }
{
    le::u32_at(rec, form::lengths_at(form) - 20) as usize
}

pub fn length_at(rec: &[u8], form: Form, i: usize) -> usize
    requires { LengthInside form rec.now i }
    ensures { (result ≡ length_at rec.now i) × (result < 4294967296) }
{
    form::word_at(rec, form::edges_at(form, i), form) as usize
}

fn edge_start(rec: &[u8], form: Form, i: usize) -> usize
    requires { Headed form rec.now × (i < 4294967296) }
    ensures { result ≡ edge_start rec.now i }
{
    form::bytes_at(form, vertex_count(rec, form), i)
}

pub fn edge_from_at(rec: &[u8], form: Form, i: usize) -> u32
    requires { EdgeInside form rec.now i }
    ensures { result ≡ (edge_at rec.now i).from }
{
    form::word_at(rec, edge_start(rec, form, i), form)
}

pub fn edge_to_at(rec: &[u8], form: Form, i: usize) -> u32
    requires { EdgeInside form rec.now i }
    ensures { result ≡ (edge_at rec.now i).to }
{
    form::word_at(rec, edge_start(rec, form, i) + form::word_size(form), form)
}

pub fn edge_support_at(rec: &[u8], form: Form, i: usize) -> u32
    requires { EdgeInside form rec.now i }
    ensures { result ≡ (edge_at rec.now i).support }
{
    le::u32_at(rec, edge_start(rec, form, i) + 2 * form::word_size(form))
}

// The flag as it stands in the record.
pub fn edge_flag_at(rec: &[u8], form: Form, i: usize) -> u32
    requires { EdgeInside form rec.now i }
    ensures { result ≡ flag_at rec.now i }
{
    u32::from(rec[edge_start(rec, form, i) + 2 * form::word_size(form) + 4])
}

// 1: shorter than its header, or not the length it states.
fn other_length(rec: &[u8], form: Form) -> bool
    requires { form_is form ≡ form_of rec.now }
    ensures { result ≡ other_length rec.now }
{
    let header = form::lengths_at(form);
    if rec.len() < header {
        return true;
    }
    le::u32_at(rec, header - 4) as usize != rec.len()
}

// The four letters that a record begins with. One that begins SGR2 is of that form.
fn has_mark(rec: &[u8], form: Form) -> bool
    requires { Headed form rec.now }
    ensures { result ≡ same_list (take 4 rec.now) (mark (form_of rec.now)) }
{
    match form {
        Form::Sgr1 => form::begins_with(rec, b"SGR1"),
        Form::Sgr2 => true,
    }
}

fn takes_kind(takes: Takes, kind: u8) -> bool
    ensures { result ≡ takes_kind (takes_of takes) kind }
{
    match takes {
        Takes::KmerOnly => kind == 0,
        Takes::SequenceOnly => kind == 1,
        Takes::BothKinds => kind <= 1,
    }
}

// 2: mark, kind for this call, or status.
fn wrong_mark(rec: &[u8], form: Form, takes: Takes) -> bool
    requires { Headed form rec.now }
    ensures { result ≡ wrong_mark (takes_of takes) rec.now }
{
    if !has_mark(rec, form) {
        return true;
    }
    if !takes_kind(takes, rec[4]) {
        return true;
    }
    if 2 < rec[5] {
        return true;
    }
    if rec[4] == 0 {
        return rec[5] != 0;
    }
    false
}

// 3: a count past a limit. That of k is `kmer_size_of`.
fn count_past_limit(rec: &[u8], form: Form) -> bool
    requires { Headed form rec.now }
    ensures { result ≡ count_past_limit rec.now }
{
    if form::most_vertices(form) < vertex_count(rec, form) {
        return true;
    }
    if form::most_edges(form) < edge_count(rec, form) {
        return true;
    }
    if rec[4] == 1 {
        return form::most_bytes(form) < byte_count(rec, form);
    }
    false
}

// The sum of the first v lengths.
fn total_length(rec: &[u8], form: Form, v: usize) -> usize
    requires { LengthsInside form rec.now v }
    ensures { result ≡ sum (tab v (length_at rec.now)) }
{
    let mut total = 0;
    for i in 0..v {
        total += length_at(rec, form, i);
    }
    total
}

// Whether one of the first v lengths is not k.
fn other_kmer_length(rec: &[u8], form: Form, k: KmerSize, v: usize) -> bool
    requires { (k.0 ≡ k_of rec.now) × LengthsInside form rec.now v }
    ensures { result ≡ any_of (other_kmer_length rec.now) (up_from 0 v) }
{
    let size = kmer::value(k) as usize;
    for i in 0..v {
        if length_at(rec, form, i) != size {
            return true;
        }
    }
    false
}

// Whether an offset or the whole length is not what the counts say. The counts may be as large as a word.
fn offsets_disagree(rec: &[u8], form: Form) -> bool
    requires { Headed form rec.now }
    ensures { result ≡ offsets_disagree rec.now }
{
    let header = form::lengths_at(form);
    let vertices = vertex_count(rec, form);
    let bytes = form::bytes_at(form, vertices, edge_count(rec, form));
    if le::u32_at(rec, header - 16) as usize != header {
        return true;
    }
    if le::u32_at(rec, header - 12) as usize != form::edges_at(form, vertices) {
        return true;
    }
    if le::u32_at(rec, header - 8) as usize != bytes {
        return true;
    }
    rec.len() != bytes + byte_count(rec, form)
}

// 4: offsets, whole length, lengths or byte count disagree. The lengths are read once they are known to lie in the record.
fn layout_disagrees(rec: &[u8], form: Form, k: KmerSize) -> bool
    requires { (k.0 ≡ k_of rec.now) × Headed form rec.now }
    ensures { result ≡ layout_disagrees rec.now }
{
    if offsets_disagree(rec, form) {
        return true;
    }
    let v = vertex_count(rec, form);
    if total_length(rec, form, v) != byte_count(rec, form) {
        return true;
    }
    if rec[4] == 0 {
        return other_kmer_length(rec, form, k, v);
    }
    false
}

fn bad_edge(rec: &[u8], form: Form, i: usize) -> bool
    requires { EdgeInside form rec.now i }
    ensures { result ≡ bad_edge rec.now i }
{
    let v = vertex_count(rec, form) as u32;
    if v <= edge_from_at(rec, form, i) {
        return true;
    }
    if v <= edge_to_at(rec, form, i) {
        return true;
    }
    3 < edge_flag_at(rec, form, i)
}

// 5: an edge end not below V, or a flag above 3.
fn any_bad_edge(rec: &[u8], form: Form) -> bool
    requires { EdgesInside form rec.now }
    ensures { result ≡ any_bad_edge rec.now }
{
    let e = edge_count(rec, form);
    for i in 0..e {
        if bad_edge(rec, form, i) {
            return true;
        }
    }
    false
}

// The first of the refusals 1 to 5 whose cause the record has; where there is none, its k-mer size.
pub fn check_layout(rec: &[u8], takes: Takes) -> Result<KmerSize, Refusal>
    ensures { LayoutOf (refusal_of (layout_causes (takes_of takes) rec.now)) (k_of rec.now) result }
{
    let form = form::form_of(rec);
    if other_length(rec, form) {
        return Err(Refusal::OtherLength);
    }
    if wrong_mark(rec, form, takes) {
        return Err(Refusal::WrongMark);
    }
    let Some(k) = kmer_size_of(rec) else {
        return Err(Refusal::PastLimit);
    };
    if count_past_limit(rec, form) {
        return Err(Refusal::PastLimit);
    }
    if layout_disagrees(rec, form, k) {
        return Err(Refusal::LayoutDisagrees);
    }
    if any_bad_edge(rec, form) {
        return Err(Refusal::BadEdge);
    }
    Ok(k)
}
