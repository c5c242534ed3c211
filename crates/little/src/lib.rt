// Little-endian numbers at a place of a slice, and words in two's complement.
#![tactic(auto)]

ghost use Rattle.std.specs.Prelude.{◌≡◌, ◌+◌, ◌≤◌, length};
ghost use Rattle.little.specs.LittleEndian.{little_endian, twos_complement};

// The signed number whose two's complement a word is: from 2^31 on it lies 2^32 lower.
pub fn signed_word(word: u32) -> i32
    ensures { result ≡ twos_complement word }
{
    word.cast_signed()
}

// The number of `width` bytes from `at` on: read from the last, each goes below those before it. Shifts alone put them in their
// places, since the compiler then reads a width that it knows in one step.
pub fn number_at(bytes: &[u8], at: usize, width: usize) -> u64
    requires width_in_bounds { at + width ≤ length bytes.now }
    requires width_bound { width ≤ 8 }
    ensures { result ≡ little_endian bytes.now at width }
{
    bytes[at..at + width]
        .iter()
        .rev()
        .fold(0, |number, &byte| number << 8 | u64::from(byte))
}
