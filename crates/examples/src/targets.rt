// A target, of a block and of its plain words. What is expected was computed by hand.
use blocks::block::Block;
use codewords::codebook::Codebook;
use codewords::target::target;
use grids::grid::Grid;
use pams::pam::{Pam, PamSize};
use points::pair::Pair;
use std::test::Fail;

const CHANNEL: [i32; 16] = [9, 3, -2, 1, 4, -5, 2, 8, 2, 2, -3, 1, 7, -4, 3, 6];

const RECEIVED: [i32; 8] = [0, 0, 0, 0, 20, -5, 11, 2];

// z_4 itself; and z_3 less r_34·s_4, that is 20-5i less (-4+3i)(1-1i), where s_4 has index 2.
#[test]
fn targets(rt: HostRuntime) -> Result<(), Fail> {
    let block = Block::<Pair>::load(0, &CHANNEL, &RECEIVED)?;
    let alphabet = Grid::new(Pam::new(PamSize::Two));
    let last = target(&alphabet, block.words(), 3, &[]);
    assert_eq!(rt; last, Pair { re: 11, im: 2 });
    let third = target(&alphabet, block.words(), 2, &[2]);
    assert_eq!(rt; third, Pair { re: 21, im: -12 });
    assert_eq!(rt; Codebook::new(&alphabet, &block).target(2, &[2]), third);
    Ok(())
}
