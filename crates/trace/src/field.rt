//! Numbers in decimal, separated by blanks.
ghost use Rattle.std.specs.Prelude.{◌≡◌, ℕ, Option, ◌<◌, ◌≤◌, ◌^◌, ◌==◌, List, ◌++◌, Some, IfSome, IsNone, decimal, get_or, length, option_map, position};
ghost use Rattle.trace.specs.Numbers.{DigitAt, DigitsSpell, NoDigitAt, Fronts};
ghost use Rattle.trace.specs.Reading.{number_in, lead_then, cut_at, after_in, field_in};

/// The most digits with which every number fits in 64 bits.
const LONG: usize = 19;

/// Returns the digit at a place, as a number, if there is one.
#[inline(always)]
fn digit_at(bytes: &[u8], i: usize) -> Option<u64>
    ensures some { IfSome result (DigitAt bytes.now i) }
    ensures none { IsNone result → NoDigitAt bytes.now i }
{
    if i < bytes.len() && bytes[i].is_ascii_digit() {
        Some(u64::from(bytes[i] - b'0'))
    } else {
        None
    }
}

/// Reads the digits at the front, at most `most` of them: returns the number that they write, and how many they are.
#[inline(always)]
fn front_digits(bytes: &[u8], most: usize) -> (u64, usize)
    requires { most ≤ 19 }
    ensures row { DigitsSpell bytes.now result.0 result.1 }
    ensures most { result.1 ≤ most }
    ensures end { result.1 < most → NoDigitAt bytes.now result.1 }
    ensures small { result.1 ≤ 9 → result.0 < 2 ^ 32 }
{
    let mut n = 0u64;
    let mut at = 0;
    while at < most {
        let Some(digit) = digit_at(bytes, at) else {
            return (n, at);
        };
        n = n * 10 + digit;
        at += 1;
    }
    (n, at)
}

/// Returns the number that the first `count` digits write, if they are the spelling of a number.
#[inline(always)]
fn few_digits(bytes: &[u8], count: usize) -> Option<u32>
    requires some { 0 < count }
    requires few { count ≤ 9 }
    ensures fronts { IfSome result (λ n. Fronts bytes.now n count) }
    ensures narrow { IfSome result (λ n. n < 2 ^ 32) }
{
    let (n, found) = front_digits(bytes, count);
    if found < count {
        return None;
    }
    if bytes[0] == b'0' && count > 1 {
        return None;
    }
    Some(n as u32)
}

/// Reads a number of `count` digits before a blank. Returns the number, and the bytes after the blank.
#[inline(always)]
fn digits_before_blank(bytes: &[u8], count: usize) -> Option<(u32, &[u8])>
    requires some { 0 < count }
    requires few { count ≤ 9 }
    requires inside { count < length bytes.now }
    requires blank { get_or bytes.now count 0 ≡ 32 }
    ensures { IfSome result (λ f. Some (f.0, f.1.now) ≡ field_in 32 bytes.now) }
{
    let n = few_digits(bytes, count)?;
    Some((n, &bytes[count + 1..]))
}

/// Reads the field before the first blank, if it is a number of `count` digits. Returns the number, and the bytes
/// after the blank.
#[inline(always)]
fn short_lead(bytes: &[u8], count: usize) -> Option<(u32, &[u8])>
    requires some { 0 < count }
    requires few { count ≤ 9 }
    ensures { IfSome result (λ f. Some (f.0, f.1.now) ≡ field_in 32 bytes.now) }
{
    if count < bytes.len() && bytes[count] == b' ' {
        digits_before_blank(bytes, count)
    } else {
        None
    }
}

/// Reads the field before the first blank, if it is a number of up to three digits, as most numbers are.
#[inline(always)]
fn few_lead(bytes: &[u8]) -> Option<(u32, &[u8])>
    ensures { IfSome result (λ f. Some (f.0, f.1.now) ≡ field_in 32 bytes.now) }
{
    if let Some(found) = short_lead(bytes, 1) {
        return Some(found);
    }
    if let Some(found) = short_lead(bytes, 2) {
        return Some(found);
    }
    short_lead(bytes, 3)
}

/// Returns the number that all the bytes spell, if it has `count` digits.
#[inline(always)]
fn short_number(bytes: &[u8], count: usize) -> Option<u32>
    requires some { 0 < count }
    requires few { count ≤ 9 }
    ensures wide { IfSome result (λ n. Some n ≡ number_in 64 bytes.now) }
    ensures narrow { IfSome result (λ n. n < 2 ^ 32) }
{
    if bytes.len() == count {
        few_digits(bytes, count)
    } else {
        None
    }
}

/// Returns the number that all the bytes spell, if it has up to three digits.
#[inline(always)]
fn few_number(bytes: &[u8]) -> Option<u32>
    ensures wide { IfSome result (λ n. Some n ≡ number_in 64 bytes.now) }
    ensures narrow { IfSome result (λ n. n < 2 ^ 32) }
{
    if let Some(n) = short_number(bytes, 1) {
        return Some(n);
    }
    if let Some(n) = short_number(bytes, 2) {
        return Some(n);
    }
    short_number(bytes, 3)
}

/// Returns the number at the front and how many digits it has, after its first 19 digits were read as `n`.
#[inline(always)]
fn long_number(bytes: &[u8], n: u64) -> Option<(u64, usize)>
    requires { DigitsSpell bytes.now n 19 }
    ensures found { IfSome result (λ f. Fronts bytes.now f.0 f.1) }
    ensures only { (m : ℕ) (rest : List ℕ) → m < 2 ^ 64 → bytes.now ≡ decimal m ++ rest → NoDigitAt rest 0
        → result ≡ Some (m, length (decimal m)) }
{
    if bytes[0] == b'0' {
        return None;
    }
    if bytes.len() == LONG || !bytes[LONG].is_ascii_digit() {
        return Some((n, LONG));
    }
    if bytes.len() > LONG + 1 && bytes[LONG + 1].is_ascii_digit() {
        return None;
    }
    let n = n
        .checked_mul(10)?
        .checked_add(u64::from(bytes[LONG] - b'0'))?;
    Some((n, LONG + 1))
}

/// Returns the number at the front, and how many digits it has. No digit follows it.
#[inline(always)]
fn front_number(bytes: &[u8]) -> Option<(u64, usize)>
    // The number that is returned stands at the front, as it is spelled.
    ensures found { IfSome result (λ f. Fronts bytes.now f.0 f.1) }
    // A number that is spelled at the front is returned.
    ensures only { (m : ℕ) (rest : List ℕ) → m < 2 ^ 64 → bytes.now ≡ decimal m ++ rest → NoDigitAt rest 0
        → result ≡ Some (m, length (decimal m)) }
{
    let (n, count) = front_digits(bytes, LONG);
    if count == LONG {
        return long_number(bytes, n);
    }
    if count == 0 {
        return None;
    }
    if count > 1 && bytes[0] == b'0' {
        return None;
    }
    Some((n, count))
}

/// Returns the place of the first such byte.
fn place_of(byte: u8, bytes: &[u8]) -> Option<usize>
    ensures { result ≡ position (λ b. b == byte) bytes.now }
{
    bytes.iter().position(|b| *b == byte)
}

/// Returns the bytes before the first such byte, and those after it.
#[tactic(auto, using(crate::proofs::Cuts::rest_of), unfolding(crate::specs::Reading::cut_at))]
pub(crate) fn cut(byte: u8, bytes: &[u8]) -> Option<(&[u8], &[u8])>
    ensures { option_map (λ c. (c.0.now, c.1.now)) result ≡ cut_at byte bytes.now }
{
    let i = place_of(byte, bytes)?;
    Some((&bytes[..i], &bytes[i + 1..]))
}

/// Returns the bytes after a word at the front. The word's length is constant, so that few bytes are compared at
/// once.
#[tactic(auto, unfolding(crate::specs::Reading::after_in))]
#[inline(always)]
pub(crate) fn after<'a, const N: usize>(word: &[u8; N], bytes: &'a [u8]) -> Option<&'a [u8]>
    ensures { option_map (λ b. b.now) result ≡ after_in word.now bytes.now }
{
    let (front, rest) = bytes.split_first_chunk::<N>()?;
    if *front == *word { Some(rest) } else { None }
}

/// A value that bytes can spell.
pub(crate) trait Spelled: Sized {
    /// The value that bytes spell, if they spell one.
    ghost read_in: { List ℕ → Option Self };

    /// Reads the value that all the bytes spell.
    fn read(bytes: &[u8]) -> Option<Self>
        ensures { result ≡ read_in bytes.now };
}

/// A value that can stand before the first blank of bytes.
pub(crate) trait Leading: Copy {
    /// The value before the first blank, and the bytes after the blank.
    ghost lead_in: { List ℕ → Option (Self × List ℕ) };

    /// Reads the value before the first blank. Returns it, and the bytes after the blank.
    fn lead(bytes: &[u8]) -> Option<(Self, &[u8])>
        ensures { option_map (λ c. (c.0, c.1.now)) result ≡ lead_in bytes.now };
}

/// Returns the number that all the bytes spell, if it has up to five digits.
#[inline(always)]
fn some_number(bytes: &[u8]) -> Option<u32>
    ensures wide { IfSome result (λ n. Some n ≡ number_in 64 bytes.now) }
    ensures narrow { IfSome result (λ n. n < 2 ^ 32) }
{
    if let Some(n) = few_number(bytes) {
        return Some(n);
    }
    if let Some(n) = short_number(bytes, 4) {
        return Some(n);
    }
    short_number(bytes, 5)
}

/// Reads a word of any number of digits. This function stands apart, so that the readers of few digits stay short.
#[inline(never)]
fn any_word(bytes: &[u8]) -> Option<u64>
    ensures { result ≡ number_in 64 bytes.now }
{
    let (w, count) = front_number(bytes)?;
    if count == bytes.len() { Some(w) } else { None }
}

/// Reads a number of 32 bits, of any number of digits.
#[tactic(auto, unfolding(crate::specs::Reading::number_in))]
#[inline(never)]
fn any_number(bytes: &[u8]) -> Option<u32>
    ensures { result ≡ number_in 32 bytes.now }
{
    let n = any_word(bytes)?;
    if n < 4294967296 { Some(n as u32) } else { None }
}

/// Reads a number of 32 bits before the first blank, of any number of digits. Returns it, and the bytes after the
/// blank.
#[tactic(auto, unfolding(crate::specs::Reading::field_in))]
#[inline(never)]
fn any_lead(bytes: &[u8]) -> Option<(u32, &[u8])>
    ensures { option_map (λ c. (c.0, c.1.now)) result ≡ field_in 32 bytes.now }
{
    let (w, rest) = u64::lead(bytes)?;
    if w < 4294967296 {
        Some((w as u32, rest))
    } else {
        None
    }
}

/// A word, which has 64 bits.
impl Spelled for u64 {
    ghost read_in = { number_in 64 };

    #[inline(always)]
    fn read(bytes: &[u8]) -> Option<u64> {
        if let Some(n) = some_number(bytes) {
            return Some(u64::from(n));
        }
        any_word(bytes)
    }
}

impl Leading for u64 {
    ghost lead_in = { field_in 64 };

    #[tactic(auto, using(crate::proofs::Cuts::rest_of))]
    #[inline(never)]
    fn lead(bytes: &[u8]) -> Option<(u64, &[u8])> {
        let (w, count) = front_number(bytes)?;
        if count < bytes.len() && bytes[count] == b' ' {
            Some((w, &bytes[count + 1..]))
        } else {
            None
        }
    }
}

/// A number of 32 bits.
impl Spelled for u32 {
    ghost read_in = { number_in 32 };

    #[inline(always)]
    fn read(bytes: &[u8]) -> Option<u32> {
        if let Some(n) = few_number(bytes) {
            return Some(n);
        }
        any_number(bytes)
    }
}

impl Leading for u32 {
    ghost lead_in = { field_in 32 };

    #[inline(always)]
    fn lead(bytes: &[u8]) -> Option<(u32, &[u8])> {
        if let Some(found) = few_lead(bytes) {
            return Some(found);
        }
        any_lead(bytes)
    }
}

/// A number, a blank, and what is spelled after it.
impl<N: Leading, T: Spelled> Spelled for (N, T) {
    ghost read_in = { lead_then N.lead_in T.read_in };

    #[inline(always)]
    fn read(bytes: &[u8]) -> Option<(N, T)> {
        let (number, rest) = N::lead(bytes)?;
        let more = T::read(rest)?;
        Some((number, more))
    }
}
