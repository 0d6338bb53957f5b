// Why a request is refused (01's table, Outcomes).
ghost use Rattle.std.specs.Prelude.{◌≡◌};
ghost use Rattle.expression.specs.Refusals.{number_of};
ghost use Rattle.expression.specs.declared.refusals.Refusal.{Refusal};

// In the order of the numbers that a host gets.
#[derive(Clone, Copy, PartialEq, Eq)]
pub enum Reason {
    Overlong = 1,
    Limits,
    Cramped,
    Clash,
    Unknown,
    Cut,
    Group,
    Same,
    Crowded,
    Deep,
    Bare,
    Unjoined,
    Absent,
    Offset,
    SubsetsFull,
    PlansFull,
    ReportShort,
    BadRecord,
}

impl Reason {
    // Its number in the table.
    pub fn number(self) -> u64
        ensures { result ≡ number_of self }
    {
        self as u64
    }

    // The refusal for it at a place.
    pub fn at(self, place: usize) -> Refusal
        ensures { result ≡ record { reason = self; place = place } }
    {
        Refusal {
            reason: self,
            place,
        }
    }
}

// A refusal: its reason and its place.
#[derive(Clone, Copy, PartialEq, Eq)]
pub struct Refusal {
    pub reason: Reason,
    pub place: usize,
}
