//! Bits of one word.
ghost use Rattle.std.specs.Prelude.{◌<◌, ◌≤◌, length};
ghost use Rattle.bmp_field.specs.Runs.{AreBelow};
ghost use Rattle.bmp_packed.specs.Words.{IsBitSet, HasBits, AreBitsAdded};

/// The word with the bit `k` made 1.
pub(crate) fn with_bit(word: u64, k: u32) -> u64
    requires { k < 64 }
    ensures { IsBitSet word k result }
{
    word | 1 << k
}

/// The word whose lowest bits are the numbers, of which there are at most 64.
pub(crate) fn word_of(numbers: &[u8]) -> u64
    requires sized { length numbers.now ≤ 64 }
    requires bits { AreBelow 2 numbers.now }
    ensures { HasBits numbers.now result }
{
    let mut word = 0;
    for (j, number) in numbers.iter().enumerate() {
        if *number != 0 {
            word = with_bit(word, j as u32);
        }
    }
    word
}

/// Adds the lowest bits of a word to numbers modulo 2, of which there are at most 64.
pub(crate) fn add_bits(word: u64, numbers: &mut [u8])
    requires sized { length numbers.old ≤ 64 }
    requires bits { AreBelow 2 numbers.old }
    ensures { AreBitsAdded word numbers.old numbers.new }
{
    for (j, number) in numbers.iter_mut().enumerate() {
        *number = (*number + (word >> j & 1) as u8) % 2;
    }
}
