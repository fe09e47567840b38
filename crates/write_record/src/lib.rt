// The record of a sequence graph, written from the slices, in the form that is asked for.
#![tactic(auto)]

ghost use Rattle.std.specs.Prelude.{◌≡◌, [], ◌∷◌, ◌++◌, ◌+◌, ◌-◌, ◌*◌, ◌<◌, ◌≤◌, length};
ghost use Rattle.std.proofs.lemmas.List.Edits.{sets};
ghost use Rattle.defs.specs.Lists.{concat, tab};
ghost use Rattle.defs.specs.Forms.{mark, lengths_at};
ghost use Rattle.defs.specs.Record.{le16, le32, word_bytes, edges_at, bytes_at, whole_length, encode_edge, encode_header};
ghost use Rattle.form.specs.Coded.{form_is};
ghost use Rattle.store.specs.Store.{edge_in, part, seq_in};
ghost use Rattle.pool.specs.Pool.{bytes_in};
ghost use Rattle.write_record.specs.Written.{length_bytes, HeaderCountable, EdgeFits, EdgesFit, LengthsFit, SequencesFit, Measured, RecordWritable, RecordWritten};

use form::Form;
use kmer::KmerSize;
use memory::Held;

fn put_letters(out: &mut [u8], letters: &[u8])
    requires { (4 ≤ length out.old) × (length letters.now ≡ 4) }
    ensures { out.new ≡ sets out.old 0 letters.now }
{
    out[..4].copy_from_slice(letters);
}

// The four letters that a record begins with.
fn put_mark(out: &mut [u8], form: Form)
    requires { 4 ≤ length out.old }
    ensures { out.new ≡ sets out.old 0 (mark (form_is form)) }
{
    match form {
        Form::Sgr1 => {
            put_letters(out, b"SGR1");
        }
        Form::Sgr2 => {
            put_letters(out, b"SGR2");
        }
    }
}

// The mark, the kind and the status.
fn put_kind(out: &mut [u8], form: Form, status: u32)
    requires { (6 ≤ length out.old) × (status < 256) }
    ensures { out.new ≡ sets out.old 0 (mark (form_is form) ++ (1 ∷ status ∷ [])) }
{
    put_mark(out, form);
    out[4] = 1;
    out[5] = status as u8;
}

fn put_counts(out: &mut [u8], form: Form, k: KmerSize, n: usize, m: usize, b: usize)
    requires { (lengths_at (form_is form) ≤ length out.old) × HeaderCountable (form_is form) n m b }
    ensures { out.new ≡ sets out.old 6 (le16 k.0 ++ word_bytes (form_is form) n ++ word_bytes (form_is form) m ++ le32 b) }
{
    let word = form::word_size(form);
    le::put_u16(out, 6, kmer::value(k));
    form::put_word(out, 8, form, n as u32);
    form::put_word(out, 8 + word, form, m as u32);
    le::put_u32(out, 8 + 2 * word, b as u32);
}

// They end where the lengths begin.
fn put_offsets(out: &mut [u8], form: Form, edges: u32, bytes: u32, whole: u32)
    requires { lengths_at (form_is form) ≤ length out.old }
    ensures { out.new ≡ sets out.old (lengths_at (form_is form) - 16)
        (le32 (lengths_at (form_is form)) ++ le32 edges ++ le32 bytes ++ le32 whole) }
{
    let header = form::lengths_at(form);
    le::put_u32(out, header - 16, header as u32);
    le::put_u32(out, header - 12, edges);
    le::put_u32(out, header - 8, bytes);
    le::put_u32(out, header - 4, whole);
}

fn put_header(out: &mut [u8], form: Form, status: u32, k: KmerSize, n: usize, m: usize, b: usize)
    requires { (lengths_at (form_is form) ≤ length out.old) × ((status < 256) × HeaderCountable (form_is form) n m b) }
    ensures { out.new ≡ sets out.old 0 (encode_header (form_is form) 1 status k.0 n m b) }
{
    put_kind(out, form, status);
    put_counts(out, form, k, n, m, b);
    let edges = form::edges_at(form, n);
    let bytes = form::bytes_at(form, n, m);
    let whole = bytes + b;
    put_offsets(out, form, edges as u32, bytes as u32, whole as u32);
}

fn put_lengths(out: &mut [u8], form: Form, vs: &[u32], n: usize)
    requires { LengthsFit (form_is form) n vs.now out.old }
    ensures { out.new ≡ sets out.old (lengths_at (form_is form)) (concat (tab n (length_bytes (form_is form) vs.now))) }
{
    for i in 0..n {
        form::put_word(out, form::edges_at(form, i), form, store::len_number(vs, i));
    }
}

fn put_edge(out: &mut [u8], form: Form, at: usize, es: &[u32], i: usize)
    requires { EdgeFits (form_is form) es.now i at out.old }
    ensures { out.new ≡ sets out.old at (encode_edge (form_is form) (edge_in es.now i)) }
{
    let word = form::word_size(form);
    form::put_word(out, at, form, store::edge_from(es, i));
    form::put_word(out, at + word, form, store::edge_to(es, i));
    le::put_u32(out, at + 2 * word, store::edge_support(es, i));
    let flag = edge_data::flag_of(store::edge_is_ref(es, i), store::edge_is_capped(es, i));
    out[at + 2 * word + 4] = flag as u8;
}

// Behind the lengths of n vertices.
fn put_edges(out: &mut [u8], form: Form, n: usize, es: &[u32], m: usize)
    requires { EdgesFit (form_is form) n m es.now out.old }
    ensures { out.new ≡ sets out.old (edges_at (form_is form) n)
        (concat (tab m (λ i. encode_edge (form_is form) (edge_in es.now i)))) }
{
    for i in 0..m {
        put_edge(out, form, form::bytes_at(form, n, i), es, i);
    }
}

fn put_sequence(out: &mut [u8], at: usize, p: &[u8], start: usize, len: usize)
    requires { (at + len ≤ length out.old) × (start + len ≤ length p.now) }
    ensures { out.new ≡ sets out.old at (part p.now start len) }
{
    copies::copy(&mut out[at..at + len], &p[start..start + len]);
}

fn put_sequences(out: &mut [u8], at: usize, vs: &[u32], n: usize, p: &[u8])
    requires { SequencesFit n vs.now p.now at out.old }
    ensures { out.new ≡ sets out.old at (concat (tab n (seq_in vs.now p.now))) }
{
    let mut to = at;
    for v in 0..n {
        let start = store::start_number(vs, v) as usize;
        let len = store::len_number(vs, v) as usize;
        put_sequence(out, to, p, start, len);
        to += len;
    }
}

// The lengths of the first n vertices together.
pub fn sequence_bytes(vs: &[u32], n: usize) -> usize
    requires { (2 * n ≤ length vs.now) × (bytes_in n vs.now < 4294967296) }
    ensures { result ≡ bytes_in n vs.now }
{
    let mut total = 0;
    for v in 0..n {
        total += store::len_number(vs, v) as usize;
    }
    total
}

// The record's length, before it is written.
pub fn record_length(form: Form, held: Held, vs: &[u32]) -> usize
    requires { Measured (form_is form) held vs.now }
    ensures { result ≡ whole_length (form_is form) held.n held.m (bytes_in held.n vs.now) }
{
    let n = held.n;
    form::bytes_at(form, n, held.m) + sequence_bytes(vs, n)
}

// The record's length.
pub fn write_record(
    out: &mut [u8],
    form: Form,
    status: u32,
    held: Held,
    es: &[u32],
    vs: &[u32],
    p: &[u8],
) -> usize
    requires { RecordWritable (form_is form) status held es.now vs.now p.now out.old }
    ensures { RecordWritten (form_is form) status held es.now vs.now p.now out.old result out.new }
{
    let n = held.n;
    let m = held.m;
    let b = sequence_bytes(vs, n);
    put_header(out, form, status, held.k, n, m, b);
    put_lengths(out, form, vs, n);
    put_edges(out, form, n, es, m);
    let bytes = form::bytes_at(form, n, m);
    put_sequences(out, bytes, vs, n, p);
    bytes + b
}
