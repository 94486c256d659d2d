// Raw words lose their extra bits: to the nearest number, halves up.
use blocks::rounding::ExtraBits;
use std::test::Fail;

// The number of extra bits, a raw word, and the word after rounding.
const CASES: [(u8, i32, i32); 16] = [
    (0, 3, 3),
    (0, -3, -3),
    (0, i32::MAX, i32::MAX),
    (0, i32::MIN, i32::MIN),
    (1, 3, 2),
    (1, 2, 1),
    (1, -3, -1),
    (1, -2, -1),
    (4, 7, 0),
    (4, 8, 1),
    (8, 127, 0),
    (8, 128, 1),
    (8, -128, 0),
    (8, -129, -1),
    (8, i32::MAX, 8_388_608),
    (8, i32::MIN, -8_388_608),
];

#[test]
fn words_round(rt: HostRuntime) -> Result<(), Fail> {
    for (extra_bits, raw, rounded) in &CASES {
        assert_eq!(rt; ExtraBits::try_from(*extra_bits)?.round(*raw), *rounded);
    }
    assert!(rt; ExtraBits::try_from(9).is_err());
    Ok(())
}
