// What an alphabet refuses.
ghost use Rattle.std.specs.Prelude.{◌≡◌};
ghost use Rattle.faults.specs.Reports.{alphabet_report};

use crate::report::{Layer, Report};

#[derive(Clone, Copy, PartialEq, Eq, Debug)]
pub enum AlphabetFault {
    // a PAM of a size other than 2, 4, 8 and 16
    PamSize,
    // a table with no point, or with more than its kind of point allows
    TableSize,
    // a table's point with a part outside -15 to 15
    Part { index: usize },
    // a table's point that equals an earlier one
    Repeated { index: usize },
    // a question about rank with a target's part outside -1,048,576 to 1,048,576, or a gain above 2047
    TargetOrGain,
    // a question about an index that is not below the alphabet's size
    Index,
}

impl From<AlphabetFault> for Report {
    ghost from_gives = { λ fault report. report ≡ alphabet_report fault };

    fn from(fault: AlphabetFault) -> Report {
        let (number, place) = match fault {
            AlphabetFault::PamSize => (10, 0),
            AlphabetFault::TableSize => (11, 0),
            AlphabetFault::Part { index } => (12, index),
            AlphabetFault::Repeated { index } => (13, index),
            AlphabetFault::TargetOrGain => (14, 0),
            AlphabetFault::Index => (15, 0),
        };
        Report {
            number,
            place,
            layer: Layer::Alphabet,
        }
    }
}
