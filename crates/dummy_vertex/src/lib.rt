// A single vertex gains an empty second one.
#![tactic(auto)]

ghost use Rattle.std.specs.Prelude.{◌≤◌, length};
ghost use Rattle.dummy_vertex.specs.Dummy.{DummyAdded};

use memory::Held;

// Where there is one vertex, an empty second one comes behind it, by a reference edge of support 0.
pub fn add_dummy_vertex(held: Held, es: &mut [u32], vs: &mut [u32]) -> Held
    requires { (4 ≤ length es.old) × (4 ≤ length vs.old) }
    ensures { DummyAdded held es.old vs.old result es.new vs.new }
{
    if held.n != 1 {
        return held;
    }
    store::put_vertex(vs, 1, 0, 0);
    store::put_edge(es, 0, 0, 1, 0, 1);
    Held { n: 2, m: 1, ..held }
}
