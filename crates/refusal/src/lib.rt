// Why a record, or a call on it, is refused. A call answers with the cause's number, which `refusal as u32` is.
#![tactic(auto)]

ghost use Rattle.std.specs.Prelude.{◌≡◌};
ghost use Rattle.refusal.specs.Refusals.{number_of_refusal};

// In the order of their numbers; a number that is missing here belongs to a call that the library does not have.
#[derive(Clone, Copy, Debug, PartialEq, Eq)]
pub enum Refusal {
    OtherLength = 1,
    WrongMark = 2,
    PastLimit = 3,
    LayoutDisagrees = 4,
    BadEdge = 5,
    Doubled = 6,
    HasCycle = 7,
    PastBytes = 8,
    NotInGraph = 9,
    NoReferencePath = 10,
    NoRoom = 11,
    NoOverlap = 15,
    NoSuchCaller = 18,
}

impl Refusal {
    pub fn number(self) -> u32
        ensures { result ≡ number_of_refusal self }
    {
        self as u32
    }
}
