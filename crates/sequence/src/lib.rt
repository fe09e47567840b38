// A vertex's sequence, as the part of the record's bytes that holds it.
#![tactic(auto)]

ghost use Rattle.std.specs.Prelude.{◌≡◌, ◌<◌};
ghost use Rattle.defs.specs.Record.{vertices_of, sequence_start};
ghost use Rattle.record.specs.Layout.{WellFormed};
ghost use Rattle.sequence.specs.Part.{Part};

// Where the sequence of vertex v starts: behind those of the vertices before it.
pub fn sequence_start(rec: &[u8], v: usize) -> usize
    requires { WellFormed rec.now × (v < vertices_of rec.now) }
    ensures { result ≡ sequence_start rec.now v }
{
    let form = form::form_of(rec);
    let mut at = form::bytes_at(
        form,
        record::vertex_count(rec, form),
        record::edge_count(rec, form),
    );
    for i in 0..v {
        at += record::length_at(rec, form, i);
    }
    at
}

pub fn sequence_part<'a>(rec: &'a [u8], v: usize) -> &'a [u8]
    requires { WellFormed rec.now × (v < vertices_of rec.now) }
    ensures { Part rec.now v result.now }
{
    let start = sequence_start(rec, v);
    let end = start + record::length_at(rec, form::form_of(rec), v);
    &rec[start..end]
}
