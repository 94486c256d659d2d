// What the loading of a block refuses, and which refusal comes first.
use blocks::block::Block;
use faults::report::{Layer, Report};
use points::kind::Kind;
use points::pair::Pair;
use points::whole::Whole;
use std::process::Abort;

// With so many extra bits, a raw word at any place of its sort, and the number of its refusal.
type Case = (u8, i32, Option<u8>);

const DIAGONAL: [Case; 12] = [
    (0, 0, None),
    (0, 2047, None),
    (0, -1, Some(23)),
    (0, 2048, Some(23)),
    // rounded to 0, 2047, -1 and 2048
    (1, -1, None),
    (1, 4094, None),
    (1, -2, Some(23)),
    (1, 4095, Some(23)),
    (8, -128, None),
    (8, 524_159, None),
    (8, -129, Some(23)),
    (8, 524_160, Some(23)),
];

const PART: [Case; 8] = [
    (0, -2048, None),
    (0, 2047, None),
    (0, -2049, Some(24)),
    (0, 2048, Some(24)),
    (1, -4097, None),
    (1, 4094, None),
    (1, -4098, Some(24)),
    (1, 4095, Some(24)),
];

const RECEIVED: [Case; 8] = [
    (0, -32768, None),
    (0, 32767, None),
    (0, -32769, Some(26)),
    (0, 32768, Some(26)),
    (1, -65537, None),
    (1, 65534, None),
    (1, -65538, Some(26)),
    (1, 65535, Some(26)),
];

// The places of the diagonal words.
const PAIR_DIAGONALS: [usize; 4] = [0, 7, 12, 15];

const WHOLE_DIAGONALS: [usize; 8] = [0, 8, 15, 21, 26, 30, 33, 35];

// What a load refuses, if anything, and at which place.
fn check_load<K: Kind>(
    rt: &impl Abort,
    extra_bits: u8,
    channel: &[i32],
    received: &[i32],
    number: Option<u8>,
    place: usize,
) {
    let told = Block::<K>::load(extra_bits, channel, received)
        .err()
        .map(Report::from);
    let layer = Layer::Decoder;
    let expected = number.map(|number| Report {
        number,
        place,
        layer,
    });
    assert_eq!(rt; told, expected);
}

// Each case at each place of its list, where all other words are 0. Places are counted, here and below: each turn changes
// one word and hands on the whole list, so no word can stay borrowed.
fn check_limits<K: Kind>(
    rt: &impl Abort,
    channel: &mut [i32],
    received: &mut [i32],
    diagonals: &[usize],
) {
    for place in 0..channel.len() {
        let cases: &[Case] = if diagonals.contains(&place) {
            &DIAGONAL
        } else {
            &PART
        };
        for (extra_bits, raw, number) in cases {
            channel[place] = *raw;
            check_load::<K>(rt, *extra_bits, channel, received, *number, place);
        }
        channel[place] = 0;
    }
    for place in 0..received.len() {
        for (extra_bits, raw, number) in &RECEIVED {
            received[place] = *raw;
            check_load::<K>(rt, *extra_bits, channel, received, *number, place);
        }
        received[place] = 0;
    }
}

#[test]
fn words_have_limits(rt: HostRuntime) {
    check_limits::<Pair>(&rt, &mut [0; 16], &mut [0; 8], &PAIR_DIAGONALS);
    check_limits::<Whole>(&rt, &mut [0; 36], &mut [0; 8], &WHOLE_DIAGONALS);
}

// Every word is refused, so that a refusal of counts comes before those of words.
fn check_counts<K: Kind>(rt: &impl Abort, cases: &[(u8, usize, usize, u8)]) {
    let words = [-40_000; 40];
    for (extra_bits, channel, received, number) in cases {
        assert!(rt; *channel <= 40 && *received <= 40);
        check_load::<K>(
            rt,
            *extra_bits,
            &words[0..*channel],
            &words[0..*received],
            Some(*number),
            0,
        );
    }
}

#[test]
fn counts_come_first(rt: HostRuntime) {
    check_counts::<Pair>(
        &rt,
        &[
            (9, 15, 7, 1),
            (9, 16, 8, 1),
            (255, 16, 9, 1),
            (0, 0, 0, 21),
            (0, 15, 7, 21),
            (8, 17, 8, 21),
            (0, 36, 8, 21),
            (0, 16, 0, 22),
            (8, 16, 7, 22),
            (0, 16, 9, 22),
            (0, 16, 8, 23),
        ],
    );
    check_counts::<Whole>(
        &rt,
        &[
            (9, 36, 8, 1),
            (0, 16, 8, 21),
            (0, 35, 8, 21),
            (0, 37, 9, 21),
            (0, 36, 7, 22),
            (0, 36, 16, 22),
            (0, 36, 8, 23),
        ],
    );
}

// Word by word from the last, until every word is refused.
fn check_order<K: Kind>(
    rt: &impl Abort,
    channel: &mut [i32],
    received: &mut [i32],
    diagonals: &[usize],
) {
    for place in (0..received.len()).rev() {
        received[place] = 40_000;
        check_load::<K>(rt, 0, channel, received, Some(26), place);
    }
    for place in (0..channel.len()).rev() {
        channel[place] = -40_000;
        let number = if diagonals.contains(&place) { 23 } else { 24 };
        check_load::<K>(rt, 0, channel, received, Some(number), place);
    }
}

#[test]
fn the_first_word_is_told(rt: HostRuntime) {
    check_order::<Pair>(&rt, &mut [0; 16], &mut [0; 8], &PAIR_DIAGONALS);
    check_order::<Whole>(&rt, &mut [0; 36], &mut [0; 8], &WHOLE_DIAGONALS);
}
