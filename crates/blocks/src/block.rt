// A block of points of one kind.
ghost use Rattle.std.specs.Prelude.{◌≡◌};
ghost use Rattle.std.specs.Result.{result_map_both};
ghost use Rattle.blocks.specs.Layouts.{Layout};
ghost use Rattle.blocks.specs.Refusals.{load_answer};
ghost use Rattle.blocks.specs.Blocks.{block_of};

use crate::words::BlockWords;
use faults::load::LoadFault;
use points::kind::Kind;
use std::marker::PhantomData;

// The words of a block, with the kind of point that they were loaded for.
#[derive(Clone, Copy)]
pub struct Block<K> {
    words: BlockWords,
    kind: PhantomData<K>,
}

impl<K: Kind> Block<K> {
    // The block of these raw words, each with so many extra bits: three arguments, as the rules name them.
    pub fn load(extra_bits: u8, channel: &[i32], received: &[i32]) -> Result<Block<K>, LoadFault>
        ensures answer { result_map_both (λ b. block_of K.shape b.words) (λ f. f) result
            ≡ load_answer K.shape extra_bits channel.now received.now }
        ensures layout { Layout }
    {
        let words = BlockWords::load::<K>(extra_bits, channel, received)?;
        Ok(Block {
            words,
            kind: PhantomData,
        })
    }

    pub fn words(&self) -> &BlockWords
        ensures { result.now ≡ self.now.words }
    {
        &self.words
    }
}
