// What the loading of a block refuses.
ghost use Rattle.std.specs.Prelude.{◌≡◌};
ghost use Rattle.faults.specs.Reports.{load_report};

use crate::report::{Layer, Report};

// A word is named by its number within its own list, from 0.
#[derive(Clone, Copy, PartialEq, Eq, Debug)]
pub enum LoadFault {
    // more than 8 extra bits
    ExtraBits,
    // the channel list has not the number of words that the kind of point asks for
    ChannelCount,
    // the received list has not 8 words
    ReceivedCount,
    // a diagonal entry outside 0 to 2047
    Diagonal { word: usize },
    // another part of the channel outside -2048 to 2047
    Part { word: usize },
    // a received part outside -32768 to 32767
    Received { word: usize },
}

impl From<LoadFault> for Report {
    ghost from_gives = { λ fault report. report ≡ load_report fault };

    fn from(fault: LoadFault) -> Report {
        let (number, place) = match fault {
            LoadFault::ExtraBits => (1, 0),
            LoadFault::ChannelCount => (21, 0),
            LoadFault::ReceivedCount => (22, 0),
            LoadFault::Diagonal { word } => (23, word),
            LoadFault::Part { word } => (24, word),
            LoadFault::Received { word } => (26, word),
        };
        Report {
            number,
            place,
            layer: Layer::Decoder,
        }
    }
}
