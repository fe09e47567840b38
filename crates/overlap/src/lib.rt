// Whether the k-mers of each edge follow one another, which conversion asks: refusal 15. The record's bytes are compared where they stand.
#![tactic(auto)]

ghost use Rattle.std.specs.Prelude.{◌≡◌, ◌<◌};
ghost use Rattle.defs.specs.Forms.{form_of};
ghost use Rattle.defs.specs.Record.{edges_of, bytes_at, vertices_of, edge_at, decode};
ghost use Rattle.defs.specs.Assembly.{overlaps};
ghost use Rattle.defs.specs.Refusals.{edge_without_overlap};
ghost use Rattle.form.specs.Coded.{form_is};
ghost use Rattle.overlap.specs.Overlap.{KmerRecord};

use form::Form;
use kmer::KmerSize;

// Whether the last k - 1 bytes of edge i's from are the first k - 1 bytes of its to. The k-mers stand from `at` on, k bytes each.
fn edge_overlaps(rec: &[u8], form: Form, k: KmerSize, at: usize, i: usize) -> bool
    requires { KmerRecord rec.now k × ((form_is form ≡ form_of rec.now)
        × ((at ≡ bytes_at (form_of rec.now) (vertices_of rec.now) (edges_of rec.now)) × (i < edges_of rec.now))) }
    ensures { result ≡ overlaps (decode rec.now) (edge_at rec.now i) }
{
    let size = kmer::value(k) as usize;
    let from = record::edge_from_at(rec, form, i) as usize;
    let to = record::edge_to_at(rec, form, i) as usize;
    pool::same_part(rec, at + size * from + 1, at + size * to, size - 1)
}

// 15: an edge between k-mers that do not follow one another.
pub fn edge_without_overlap(rec: &[u8], k: KmerSize) -> bool
    requires { KmerRecord rec.now k }
    ensures { result ≡ edge_without_overlap (decode rec.now) }
{
    let form = form::form_of(rec);
    let e = record::edge_count(rec, form);
    let at = form::bytes_at(form, record::vertex_count(rec, form), e);
    for i in 0..e {
        if !edge_overlaps(rec, form, k, at, i) {
            return true;
        }
    }
    false
}
