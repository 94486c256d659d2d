// Rank as one number: the smaller key comes before.
ghost use Rattle.std.specs.Prelude.{◌≡◌, ◌^◌, ◌<◌};
ghost use Rattle.ranks.specs.Keys.{key as key_of, lesser as lesser_of, index_of as index_in_key, KeyOrder, KeyIndex};

// Above every key. As an `Option<u64>` the running least takes the next of 16 whole points to 417 instructions: C takes 404,
// this 320.
pub const NO_KEY: u64 = u64::MAX;

// The amount, and below it the index: numbers to whoever asks, each with its limit here.
pub fn rank_key(amount: u64, index: usize) -> u64
    requires amount { amount < 2 ^ 42 }
    requires index { index < 256 }
    ensures value { result ≡ key_of amount index }
    ensures order { KeyOrder }
{
    amount * 256 + index as u64
}

// The lesser of two keys, of which the first counts only if it is not below the floor. Three numbers and no struct: the floor
// stays as the keys change.
pub fn lesser(floor: u64, key: u64, least: u64) -> u64
    ensures { result ≡ lesser_of floor key least }
{
    if floor <= key && key < least {
        key
    } else {
        least
    }
}

pub fn index_of(key: u64) -> Option<usize>
    ensures value { result ≡ index_in_key key }
    ensures index { KeyIndex }
{
    if key == NO_KEY {
        None
    } else {
        Some((key % 256) as usize)
    }
}
