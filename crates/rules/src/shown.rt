// How the replies are written: a word, and behind blanks the numbers that come with it, in the order of their fields.
ghost use Rattle.std.specs.Prelude.{◌++◌, Some, codes};
ghost use Rattle.std.specs.Fmt.{decimal};

use crate::{Refusal, ScheduleReply, Verdict};
use std::fmt;

impl fmt::Display for Refusal {
    ghost output = { λ f. Some (codes "refused " ++ decimal f.number ++ codes " " ++ decimal f.place) };

    fn fmt<W: fmt::Write>(&self, f: &mut fmt::Formatter<W>) -> fmt::Result {
        write!(f, "refused {} {}", self.number, self.place)
    }
}

impl fmt::Display for Verdict {
    ghost use Rattle.rules.specs.declared.Verdict.TheVariants.{Accepted, Missed, Undecided, Refused};

    ghost output = { λ v. Some (elim v [
      | Accepted needed ↦ codes "accepted " ++ decimal needed
      | Missed time id ↦ codes "missed " ++ decimal time ++ codes " " ++ decimal id
      | Undecided ↦ codes "undecided"
      | Refused number place ↦ codes "refused " ++ decimal number ++ codes " " ++ decimal place
    ]) };

    fn fmt<W: fmt::Write>(&self, f: &mut fmt::Formatter<W>) -> fmt::Result {
        match *self {
            Verdict::Accepted(needed) => write!(f, "accepted {needed}"),
            Verdict::Missed { time, id } => write!(f, "missed {time} {id}"),
            Verdict::Undecided => write!(f, "undecided"),
            Verdict::Refused { number, place } => write!(f, "{}", Refusal { number, place }),
        }
    }
}

impl fmt::Display for ScheduleReply {
    ghost use Rattle.rules.specs.declared.ScheduleReply.TheVariants.{Filled, Missed, Refused};

    ghost output = { λ r. Some (elim r [
      | Filled ↦ codes "filled"
      | Missed time id ↦ codes "missed " ++ decimal time ++ codes " " ++ decimal id
      | Refused number place ↦ codes "refused " ++ decimal number ++ codes " " ++ decimal place
    ]) };

    fn fmt<W: fmt::Write>(&self, f: &mut fmt::Formatter<W>) -> fmt::Result {
        match *self {
            ScheduleReply::Filled => write!(f, "filled"),
            ScheduleReply::Missed { time, id } => write!(f, "missed {time} {id}"),
            ScheduleReply::Refused { number, place } => write!(f, "{}", Refusal { number, place }),
        }
    }
}
