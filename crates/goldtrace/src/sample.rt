// A block that a random channel gave, with symbols of 16-QAM: `tools/sample.py --words` prints these words.
pub const EXTRA_BITS: u8 = 4;

// How many points the side of the grid has.
pub const SIDE: usize = 4;

// Row by row from the diagonal to the right.
pub const CHANNEL: [i32; 16] = [
    6084, 4641, 0, 1590, 1590, -167, 1756, 6611, 500, -1269, -1346, -2696, 5486, 4185, 0, 5962,
];

// z_1 first.
pub const RECEIVED: [i32; 8] = [-18533, 3451, -27752, -12883, 7195, -9688, 18083, -5645];
