// The conversion of a k-mer graph that was read of a record (`from_assembly_graph`): 8, or the sequence graph in the slices.
#![tactic(auto)]

ghost use Rattle.form.specs.Coded.{form_is};
ghost use Rattle.from_kmers.specs.Conversion.{ConvertibleKmers, KmersConverted};

use form::Form;
use memory::Held;
use refusal::Refusal;

// The edges of the sequence graph are in `sorted`, its sequences in the record, whose form says how many bytes they may have.
pub fn convert(
    form: Form,
    held: Held,
    es: &[u32],
    vs: &mut [u32],
    heads: &[u32],
    nexts: &[u32],
    order: &mut [u32],
    scratch: &mut [u32],
    place: &mut [u32],
    sorted: &mut [u32],
) -> Result<Held, Refusal>
    requires { ConvertibleKmers held es.now vs.old heads.now nexts.now order.old scratch.old place.old sorted.old }
    ensures { KmersConverted (form_is form) held es.now vs.old heads.now nexts.now order.old result
        sorted.new vs.new }
{
    convert::edges_sorted(es, held.m, held.n, order, scratch, place, sorted);
    convert::additional_sequences(es, held.m, held.n, heads, nexts, vs);
    if form::most_bytes(form) < write_record::sequence_bytes(vs, held.n) {
        return Err(Refusal::PastBytes);
    }
    Ok(held)
}
