//! The levels of a row of bits: how a bit is written in all three, and how the lowest is found by them.
ghost use Rattle.std.specs.Prelude.{◌≡◌, ◌≢◌, ℕ, ◌<◌, ◌≤◌, ◌*◌, ◌/◌, ◌%◌, ◌^◌, if◌then◌else◌, slice_index, length, IfSome, IsNone, true, false};
ghost use Rattle.std.specs.Int.{bit_at};
ghost use Rattle.pages.specs.Bits.{bit_in, word_bit, IsSummary, IsLowest, IsLowestBut};

/// How many bits a word has.
pub const WORD_BITS: usize = 64;

/// Returns a word with one bit set or cleared.
#[inline(always)]
fn with_bit(word: u64, k: u32, on: bool) -> u64
    requires { k < WORD_BITS }
    ensures here { bit_at result k ≡ (if on then 1 else 0) }
    ensures others { (i : ℕ) → i < WORD_BITS → i ≢ k → bit_at result i ≡ bit_at word i }
{
    if on {
        word | (1 << k)
    } else {
        word & !(1 << k)
    }
}

/// Returns the lowest bit that is set in a word.
#[inline(always)]
fn lowest(word: u64) -> usize
    requires { 0 < word }
    ensures within { result < WORD_BITS }
    ensures here { bit_at word result ≡ 1 }
    ensures first { (i : ℕ) → i < result → bit_at word i ≡ 0 }
{
    word.trailing_zeros() as usize
}

/// Sets a bit of one level or clears it. Returns whether the bit of its word in the level above must become the same.
#[inline(always)]
fn put(words: &mut [u64], k: usize, on: bool) -> bool
    requires { k < WORD_BITS * length words.old }
    ensures len { length words.new ≡ length words.old }
    ensures here { bit_in words.new k ≡ (if on then 1 else 0) }
    ensures others { (i : ℕ) → i ≢ k → bit_in words.new i ≡ bit_in words.old i }
    ensures words { (w : ℕ) → w ≢ k / WORD_BITS → slice_index words.new w ≡ slice_index words.old w }
    ensures changed { result ≡ true → word_bit (slice_index words.new (k / WORD_BITS)) ≡ (if on then 1 else 0) }
    ensures kept { result ≡ false
        → word_bit (slice_index words.new (k / WORD_BITS)) ≡ word_bit (slice_index words.old (k / WORD_BITS)) }
{
    let at = k / WORD_BITS;
    let old = words[at];
    let word = with_bit(old, (k % WORD_BITS) as u32, on);
    words[at] = word;
    if on { old == 0 } else { word == 0 }
}

/// Sets a bit of the groups or clears it, and has the tops say so.
#[inline(always)]
fn put_group_bit(groups: &mut [u64], tops: &mut [u64], k: usize, on: bool)
    requires within { k < WORD_BITS * length groups.old }
    requires tops { IsSummary groups.old tops.old }
    ensures len { (length groups.new ≡ length groups.old) × (length tops.new ≡ length tops.old) }
    ensures here { bit_in groups.new k ≡ (if on then 1 else 0) }
    ensures others { (i : ℕ) → i ≢ k → bit_in groups.new i ≡ bit_in groups.old i }
    ensures tops { IsSummary groups.new tops.new }
{
    if put(groups, k, on) {
        put(tops, k / WORD_BITS, on);
    }
}

/// Sets a bit of the words or clears it, and has the groups and the tops say so.
#[inline(always)]
pub fn put_bit(words: &mut [u64], groups: &mut [u64], tops: &mut [u64], k: usize, on: bool)
    requires within { k < WORD_BITS * length words.old }
    requires groups { IsSummary words.old groups.old }
    requires tops { IsSummary groups.old tops.old }
    ensures len { (length words.new ≡ length words.old) × (length groups.new ≡ length groups.old)
        × (length tops.new ≡ length tops.old) }
    ensures here { bit_in words.new k ≡ (if on then 1 else 0) }
    ensures others { (i : ℕ) → i ≢ k → bit_in words.new i ≡ bit_in words.old i }
    ensures groups { IsSummary words.new groups.new }
    ensures tops { IsSummary groups.new tops.new }
{
    if put(words, k, on) {
        put_group_bit(groups, tops, k / WORD_BITS, on);
    }
}

/// Returns the first word that isn't 0.
fn first_word(words: &[u64]) -> Option<usize>
    ensures within { IfSome result (λ w. w < length words.now) }
    ensures here { IfSome result (λ w. 0 < slice_index words.now w) }
    ensures first { IfSome result (λ w. (v : ℕ) → v < w → slice_index words.now v ≡ 0) }
    ensures none { IsNone result → (v : ℕ) → slice_index words.now v ≡ 0 }
{
    for at in 0..words.len() {
        if words[at] != 0 {
            return Some(at);
        }
    }
    None
}

/// Returns the lowest bit of the groups that is set, if none is up to bit k.
#[inline(always)]
fn lowest_group_bit(groups: &[u64], tops: &[u64], k: usize) -> Option<usize>
    requires within { k < WORD_BITS * length groups.now }
    requires small { length groups.now < 2 ^ 32 }
    requires tops { IsSummary groups.now tops.now }
    requires none { (i : ℕ) → i ≤ k → bit_in groups.now i ≡ 0 }
    ensures { IsLowest groups.now result }
{
    let at = k / WORD_BITS;
    let group = groups[at];
    if group != 0 {
        return Some(WORD_BITS * at + lowest(group));
    }
    let top = first_word(tops)?;
    let at = WORD_BITS * top + lowest(tops[top]);
    Some(WORD_BITS * at + lowest(groups[at]))
}

/// Returns the lowest bit of the words that is set, if none is up to bit k.
#[inline(always)]
fn lowest_bit(words: &[u64], groups: &[u64], tops: &[u64], k: usize) -> Option<usize>
    requires within { k < WORD_BITS * length words.now }
    requires small { (length words.now < 2 ^ 32) × (length groups.now < 2 ^ 32) }
    requires groups { IsSummary words.now groups.now }
    requires tops { IsSummary groups.now tops.now }
    requires none { (i : ℕ) → i ≤ k → bit_in words.now i ≡ 0 }
    ensures { IsLowest words.now result }
{
    let at = k / WORD_BITS;
    let word = words[at];
    if word != 0 {
        return Some(WORD_BITS * at + lowest(word));
    }
    let at = lowest_group_bit(groups, tops, at)?;
    Some(WORD_BITS * at + lowest(words[at]))
}

/// Returns the lowest bit of the words that is set, after bit k was written, from the lowest before.
#[inline(always)]
pub fn lowest_once_put(
    words: &[u64],
    groups: &[u64],
    tops: &[u64],
    was: Option<usize>,
    k: usize,
    on: bool,
) -> Option<usize>
    requires groups { IsSummary words.now groups.now }
    requires tops { IsSummary groups.now tops.now }
    requires within { k < WORD_BITS * length words.now }
    requires small { (length words.now < 2 ^ 32) × (length groups.now < 2 ^ 32) }
    requires here { bit_in words.now k ≡ (if on then 1 else 0) }
    requires was { IsLowestBut words.now k was }
    ensures { IsLowest words.now result }
{
    let Some(first) = was else {
        return if on { Some(k) } else { None };
    };
    if on {
        return if first < k { Some(first) } else { Some(k) };
    }
    if k == first {
        return lowest_bit(words, groups, tops, k);
    }
    Some(first)
}
