// What a block holds: rounded words within their limits.
ghost use Rattle.std.specs.Prelude.{◌≡◌, ◌≤◌, true};
ghost use Rattle.blocks.specs.Words.{all_within};

pub mod entries;
pub mod load;

// One row of the channel: its diagonal entry, and the words of the entries to the right.
#[derive(Clone, Copy)]
pub struct ChannelRow {
    gain: u32,
    words: [i32; 8],
    ghost mild: { gain ≤ 2047 },
    ghost near: { all_within 2048 words ≡ true },
}

// Level 1 first. Arrays in place, here and in a row, since nothing allocates; how many places count follows from the kind of
// point, and what lies past them is never looked at.
#[derive(Clone, Copy)]
pub struct BlockWords {
    rows: [ChannelRow; 8],
    received: [i32; 8],
    ghost near: { all_within 32768 received ≡ true },
}
