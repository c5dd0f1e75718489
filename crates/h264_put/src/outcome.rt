// What became of a unit and of the pair that may stand before it, and how many of each were dropped for the mtu.
ghost use Rattle.std.specs.Prelude.{◌≡◌, ◌≤◌};
ghost use Rattle.h264_put.specs.Outcomes.{counted};

#[derive(Clone, Copy, PartialEq, Eq)]
pub enum UnitOutcome {
    // it has no byte
    Empty,
    // an access unit delimiter or filler data
    DroppedByType,
    // a parameter set
    Saved,
    // alone or in fragments
    Sent,
    // it does not fit, and no fragment of it would
    DroppedForMtu,
}

#[derive(Clone, Copy, PartialEq, Eq)]
pub enum PairOutcome {
    // no unit came that is to be sent, or one that has not both sets before it
    NotDue,
    // in a STAP-A before the unit
    Sent,
    // its STAP-A does not fit
    DroppedForMtu,
}

// What became of one unit, and of the pair at it.
#[derive(Clone, Copy)]
pub struct Outcome {
    // of the unit
    pub unit: UnitOutcome,
    // of the pair, which goes out before the unit or not at all
    pub pair: PairOutcome,
}

// How many were dropped for the mtu.
#[derive(Clone, Copy)]
pub struct Drops {
    // units, no more than the frame has bytes
    pub units: usize,
    // pairs of parameter sets, no more than the frame has units
    pub pairs: usize,
}

impl Drops {
    // One unit more, and the pair at it.
    pub fn and(self, outcome: Outcome) -> Drops
        requires { (self.units ≤ 16777216) × (self.pairs ≤ 16777216) }
        ensures { result ≡ counted self outcome }
    {
        Drops {
            units: self.units + usize::from(outcome.unit == UnitOutcome::DroppedForMtu),
            pairs: self.pairs + usize::from(outcome.pair == PairOutcome::DroppedForMtu),
        }
    }
}
