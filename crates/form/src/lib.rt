// The two forms of a record, SGR1 and SGR2: which one a record has, how long a word is, and where each part stands. Places are made here alone, so
// that everything above is one text for both.
#![tactic(auto)]

ghost use Rattle.std.specs.Prelude.{◌≡◌, ◌+◌, ◌<◌, ◌≤◌, length, take};
ghost use Rattle.std.proofs.lemmas.List.Edits.{sets};
ghost use Rattle.defs.specs.Lists.{same_list};
ghost use Rattle.defs.specs.Forms.{form_of, word_size, lengths_at, limits};
ghost use Rattle.defs.specs.Record.{word_bytes, word_at, edges_at, bytes_at};
ghost use Rattle.form.specs.Coded.{form_is, word_limit};

#[derive(Clone, Copy, Debug, PartialEq, Eq)]
pub enum Form {
    Sgr1,
    Sgr2,
}

// How many bytes a word has: a count, a length or an end of an edge.
pub fn word_size(form: Form) -> usize
    ensures { result ≡ word_size (form_is form) }
{
    match form {
        Form::Sgr1 => 2,
        Form::Sgr2 => 4,
    }
}

// Where the lengths stand: behind the header.
pub fn lengths_at(form: Form) -> usize
    ensures { result ≡ lengths_at (form_is form) }
{
    match form {
        Form::Sgr1 => 32,
        Form::Sgr2 => 36,
    }
}

// Where the edges stand, with v vertices. Length i stands where the edges would with i vertices.
pub fn edges_at(form: Form, v: usize) -> usize
    requires { v < 4294967296 }
    ensures { result ≡ edges_at (form_is form) v }
{
    match form {
        Form::Sgr1 => 32 + 2 * v,
        Form::Sgr2 => 36 + 4 * v,
    }
}

// Where the sequence bytes stand, with v vertices and e edges. Edge i stands where the bytes would with i edges.
pub fn bytes_at(form: Form, v: usize, e: usize) -> usize
    requires { (v < 4294967296) × (e < 4294967296) }
    ensures { result ≡ bytes_at (form_is form) v e }
{
    match form {
        Form::Sgr1 => 32 + 2 * v + 9 * e,
        Form::Sgr2 => 36 + 4 * v + 13 * e,
    }
}

// The limits of input. The bytes are limited in a sequence graph, and in what conversion makes.
pub fn most_vertices(form: Form) -> usize
    ensures { result ≡ (limits (form_is form)).vertices }
{
    match form {
        Form::Sgr1 => 2048,
        Form::Sgr2 => 32768,
    }
}

pub fn most_edges(form: Form) -> usize
    ensures { result ≡ (limits (form_is form)).edges }
{
    match form {
        Form::Sgr1 => 4096,
        Form::Sgr2 => 65536,
    }
}

pub fn most_bytes(form: Form) -> usize
    ensures { result ≡ (limits (form_is form)).bytes }
{
    match form {
        Form::Sgr1 => 8192,
        Form::Sgr2 => 131072,
    }
}

// Whether a record begins with these four letters.
pub fn begins_with(rec: &[u8], mark: &[u8]) -> bool
    requires { (4 ≤ length rec.now) × (length mark.now ≡ 4) }
    ensures { result ≡ same_list (take 4 rec.now) mark.now }
{
    &rec[..4] == mark
}

// A record's form, by its first four bytes.
pub fn form_of(rec: &[u8]) -> Form
    ensures { form_is result ≡ form_of rec.now }
{
    if 4 <= rec.len() && begins_with(rec, b"SGR2") {
        return Form::Sgr2;
    }
    Form::Sgr1
}

pub fn word_at(rec: &[u8], at: usize, form: Form) -> u32
    requires { at + word_size (form_is form) ≤ length rec.now }
    ensures { result ≡ word_at (form_is form) rec.now at }
{
    match form {
        Form::Sgr1 => u32::from(le::u16_at(rec, at)),
        Form::Sgr2 => le::u32_at(rec, at),
    }
}

pub fn put_word(dst: &mut [u8], at: usize, form: Form, v: u32)
    requires { (at + word_size (form_is form) ≤ length dst.old) × (v < word_limit (form_is form)) }
    ensures { dst.new ≡ sets dst.old at (word_bytes (form_is form) v) }
{
    match form {
        Form::Sgr1 => {
            le::put_u16(dst, at, v as u16);
        }
        Form::Sgr2 => {
            le::put_u32(dst, at, v);
        }
    }
}
