// Reading a block from raw words.
ghost use Rattle.std.specs.Prelude.{◌≡◌, ◌+◌, ◌≤◌, ◌||◌, int_lt, int_le, true, List, ◌∷◌, ℤ, map, length, take, pos, IfOk, slice_index_or, slice_range};
ghost use Rattle.std.specs.Result.{result_map_both};
ghost use Rattle.blocks.specs.Rounding.{rounded};
ghost use Rattle.blocks.specs.Words.{first_outside, all_within};
ghost use Rattle.points.specs.Points.{levels};
ghost use Rattle.blocks.specs.Systems.{rows as rows_of};
ghost use Rattle.blocks.specs.Layouts.{Layout};
ghost use Rattle.faults.specs.Refusals.{answer};
ghost use Rattle.blocks.specs.Refusals.{row_fault, channel_word_count, channel_fault, load_answer};
ghost use Rattle.blocks.specs.Blocks.{matrix_of, block_of};

use super::{BlockWords, ChannelRow};
use crate::rounding::ExtraBits;
use faults::load::LoadFault;
use points::kind::Kind;
use std::marker::Model;
use std::ops::Range;

// A diagonal entry lies here.
const GAINS: Range<i32> = 0..2048;

// Another part of the channel, and a received part, lies in -limit to limit - 1.
const PART_LIMIT: u16 = 2048;

const RECEIVED_LIMIT: u16 = 32768;

// How many words the received list has, for either kind of point.
const RECEIVED_COUNT: usize = 8;

// The number of a word that is out of its limits.
struct Outside {
    word: usize,
}

// A list of raw words. In a clause it is the list of the rounded ones.
#[derive(Drop)]
struct RawWords<'a> {
    words: &'a [i32],
    bits: ExtraBits,
}

impl<'a> Model for RawWords<'a> {
    ghost Value = { List ℤ };

    ghost view = { λ raw. map (rounded raw.bits.count) raw.words.now };
}

impl RawWords<'_> {
    // The words of `count` places from `place` on, or the first place whose word is outside -limit to limit - 1.
    fn read(&self, place: usize, count: usize, limit: u16) -> Result<[i32; 8], Outside>
        requires few { count ≤ 8 }
        requires there { place + count ≤ length self.now }
        ensures read { result_map_both (take count) (λ o. o.word) result
            ≡ answer (first_outside limit count place self.now)
            (slice_range self.now place (place + count)) }
        ensures near { IfOk result (λ read. all_within limit read ≡ true) }
    {
        let mut read = [0; 8];
        let bound = i32::from(limit);
        for (k, word) in self.words[place..place + count].iter().enumerate() {
            let word = self.bits.round(*word);
            if is_outside(word, -bound..bound) {
                return Err(Outside { word: place + k });
            }
            // by its index: no proof knows an array after a `zip` of its `iter_mut`
            read[k] = word;
        }
        Ok(read)
    }

    // The row whose diagonal word is at `place`, with `others` words right of it.
    fn row(&self, place: usize, others: usize) -> Result<ChannelRow, LoadFault>
        requires few { others ≤ 8 }
        requires there { place + 1 + others ≤ length self.now }
        ensures { result_map_both (λ row. pos row.gain ∷ take others row.words) (λ f. f) result
            ≡ answer (row_fault others place self.now)
            (slice_index_or self.now place (pos 0)
            ∷ slice_range self.now (place + 1) (place + 1 + others)) }
    {
        let gain = self.bits.round(self.words[place]);
        if is_outside(gain, GAINS) {
            return Err(LoadFault::Diagonal { word: place });
        }
        let words = self
            .read(place + 1, others, PART_LIMIT)
            .map_err(|Outside { word }| LoadFault::Part { word })?;
        Ok(ChannelRow {
            gain: gain as u32,
            words,
        })
    }

    // The rows of the channel, level 1 first.
    fn rows<K: Kind>(&self) -> Result<[ChannelRow; 8], LoadFault>
        requires { length self.now ≡ channel_word_count K.shape }
        ensures { result_map_both (matrix_of K.shape (levels K.shape)) (λ f. f) result
            ≡ answer (channel_fault K.shape (levels K.shape) 0 self.now)
            (rows_of K.shape (levels K.shape) 0 self.now) }
    {
        let mut rows = [ChannelRow {
            gain: 0,
            words: [0; 8],
        }; 8];
        let mut place = 0;
        for (level, row) in rows[..K::LEVELS].iter_mut().enumerate() {
            let others = K::PARTS * (K::LEVELS - 1 - level);
            *row = self.row(place, others)?;
            // rows differ in length
            place += 1 + others;
        }
        Ok(rows)
    }
}

fn is_outside(word: i32, limits: Range<i32>) -> bool
    ensures { result ≡ (int_lt word limits.start || int_le limits.end word) }
{
    !limits.contains(&word)
}

impl BlockWords {
    // The words of a block of points of the kind K, from raw words with so many extra bits: three arguments, as the rules
    // name them.
    pub fn load<K: Kind>(
        extra_bits: u8,
        channel: &[i32],
        received: &[i32],
    ) -> Result<BlockWords, LoadFault>
        ensures answer { result_map_both (block_of K.shape) (λ f. f) result
            ≡ load_answer K.shape extra_bits channel.now received.now }
        ensures layout { Layout }
    {
        let bits = ExtraBits::try_from(extra_bits)?;
        if channel.len() != channel_count::<K>() {
            return Err(LoadFault::ChannelCount);
        }
        if received.len() != RECEIVED_COUNT {
            return Err(LoadFault::ReceivedCount);
        }
        let channel = RawWords {
            words: channel,
            bits,
        };
        let rows = channel.rows::<K>()?;
        let received = RawWords {
            words: received,
            bits,
        };
        let received = received
            .read(0, RECEIVED_COUNT, RECEIVED_LIMIT)
            .map_err(|Outside { word }| LoadFault::Received { word })?;
        Ok(BlockWords { rows, received })
    }
}

// How many words the channel list has: n levels have n diagonal entries and n(n − 1)/2 others.
fn channel_count<K: Kind>() -> usize
    ensures { result ≡ channel_word_count K.shape }
{
    K::LEVELS + K::PARTS * (K::LEVELS * (K::LEVELS - 1) / 2)
}
