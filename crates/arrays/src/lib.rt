// How long the arrays are that a call has on its stack, by the class of its record, and that this is enough: sizes, laws and the choice. A record
// is small if it is short, or if its counts are; the vast arrays are enough for every record. A call has one function for all classes, generic over
// these sizes; each class is an instance with a frame of its own, so that a record takes the stack of its own class alone. No record that begins
// otherwise than SGR2 takes more than the large arrays, whatever its counts say.
#![tactic(auto)]

ghost use Rattle.arrays.specs.Sized.{ClassToRead};
ghost use Rattle.arrays.specs.Classes.{vertices_to_read, edges_to_read};

use form::Form;

// Of a record this short every array of the small class is long enough, whatever its counts say: 32 bytes at least are its head, two at least stand for
// each vertex and nine for each edge.
pub const SMALL_RECORD: usize = 1024;

// To read a graph: `SizedToRead` in specs/ has each array. A record of at most 1,024 bytes has at most 496 vertices and 110 edges.
pub const FEW_VERTICES: usize = 512;

pub const FEW_EDGES: usize = 512;

// The limits of SGR1.
pub const MANY_VERTICES: usize = 2048;

pub const MANY_EDGES: usize = 4096;

// The limits of SGR2.
pub const MOST_VERTICES: usize = 32768;

pub const MOST_EDGES: usize = 65536;

// The class of a record whose graph is read: FEW, MANY or MOST vertices and edges.
#[derive(Clone, Copy)]
pub enum ReadingClass {
    Small,
    Large,
    Vast,
}

// The smallest class that the record's counts allow, but for a short record, whose counts are not asked. One that does not begin SGR2 is refused, if it
// is, by the limits of SGR1, for which the large arrays are enough.
pub fn class_to_read(rec: &[u8]) -> ReadingClass
    ensures { ClassToRead (vertices_to_read result) (edges_to_read result) rec.now }
{
    if rec.len() <= SMALL_RECORD {
        return ReadingClass::Small;
    }
    let form = form::form_of(rec);
    let v = record::vertex_count(rec, form);
    let e = record::edge_count(rec, form);
    if v <= FEW_VERTICES && e <= FEW_EDGES {
        return ReadingClass::Small;
    }
    match form {
        Form::Sgr1 => ReadingClass::Large,
        Form::Sgr2 if v <= MANY_VERTICES && e <= MANY_EDGES => ReadingClass::Large,
        Form::Sgr2 => ReadingClass::Vast,
    }
}

// To rewrite a graph: `Sized` in specs/ has each array, eight numbers for an edge, since there may be twice as many edges inside a rewrite as
// between two; four for a vertex, for the same reason; and so on. A record has room in a class if its vertices and bytes together are fewer than the
// class's vertices, and its edges and a quarter of its bytes at most the class's edges less its vertices. One of at most 1,024 bytes has 992 at most,
// and 248. A signature's length has a name of its own, since an array of a generic function is as long as one of its parameters.
pub const SMALL_VERTICES: usize = 1024;

pub const SMALL_EDGES: usize = 1280;

pub const SMALL_SIGNATURE: usize = 2 + 2 * SMALL_VERTICES + 3 * SMALL_EDGES;

// A region of some hundred k-mers: clearing the large arrays would take longer than simplifying it.
pub const MEDIUM_VERTICES: usize = 2048;

pub const MEDIUM_EDGES: usize = 3072;

pub const MEDIUM_SIGNATURE: usize = 2 + 2 * MEDIUM_VERTICES + 3 * MEDIUM_EDGES;

// Every record of SGR1, and those of SGR2 that are as small: at most 2,048 + 8,192 vertices and bytes, at most 4,096 + 8,192 / 4 edges and quarters.
pub const LARGE_VERTICES: usize = 10241;

pub const LARGE_EDGES: usize = 16385;

pub const LARGE_SIGNATURE: usize = 2 + 2 * LARGE_VERTICES + 3 * LARGE_EDGES;

// Every record of at most 65,536 bytes.
pub const HUGE_RECORD: usize = 65536;

pub const HUGE_VERTICES: usize = 65536;

pub const HUGE_EDGES: usize = 81920;

pub const HUGE_SIGNATURE: usize = 2 + 2 * HUGE_VERTICES + 3 * HUGE_EDGES;

// Every record: at most 32,768 + 131,072, and 65,536 + 131,072 / 4.
pub const VAST_VERTICES: usize = 163840;

pub const VAST_EDGES: usize = 262144;

pub const VAST_SIGNATURE: usize = 2 + 2 * VAST_VERTICES + 3 * VAST_EDGES;
