//! A row of bits, one for each page.
ghost use Rattle.std.specs.Prelude.{◌≡◌, ◌≢◌, ℕ, ◌<◌, ◌≤◌, ◌^◌, IfOk, IfSome, IsNone, if◌then◌else◌, length};
ghost use Rattle.std.proofs.Props.{props};
ghost use Rattle.pages.specs.Bits.{IsSummary, IsLowest};

use crate::levels::{WORD_BITS, lowest_once_put, put_bit};
use graph_heap::NoMemory;
use std::alloc::Global;

/// A row of bits in three levels: words; groups, with a bit for each word that isn't 0; tops, with a bit for each group
/// that isn't 0. The lowest bit that is set is kept beside them.
#[derive(Drop)]
pub struct BitRow {
    words: Vec<u64>,
    groups: Vec<u64>,
    tops: Vec<u64>,
    lowest: Option<usize>,
    ghost few: { (length words.items < 2 ^ 32) × (length groups.items < 2 ^ 32) },
    ghost grouped: { IsSummary words.items groups.items },
    ghost topped: { IsSummary groups.items tops.items },
    ghost kept: { IsLowest words.items lowest } by { Prim.hlevel props },
}

impl BitRow {
    ghost use Rattle.pages.specs.BitRow.{has_bit, room_of};

    /// Returns a row with room for this many bits at least, none of them set.
    pub fn new(alloc: Global, bits: u32) -> Result<BitRow, NoMemory>
        ensures none { IfOk result (λ r. (k : ℕ) → has_bit r k ≡ 0) }
        ensures room { IfOk result (λ r. bits ≤ room_of r) }
    {
        let words = vec![in alloc; 0; (bits as usize).div_ceil(WORD_BITS)]?;
        let groups = vec![in alloc; 0; words.len().div_ceil(WORD_BITS)]?;
        let tops = vec![in alloc; 0; groups.len().div_ceil(WORD_BITS)]?;
        Ok(BitRow {
            words,
            groups,
            tops,
            lowest: None,
        })
    }

    /// Sets a bit, or clears it.
    #[inline(never)]
    pub fn set(&mut self, k: usize, on: bool)
        requires { k < room_of self.old }
        ensures here { has_bit self.new k ≡ (if on then 1 else 0) }
        ensures others { (i : ℕ) → i ≢ k → has_bit self.new i ≡ has_bit self.old i }
        ensures room { room_of self.new ≡ room_of self.old }
    {
        let words = self.words.as_mut_slice();
        let groups = self.groups.as_mut_slice();
        let tops = self.tops.as_mut_slice();
        put_bit(words, groups, tops, k, on);
        self.lowest = lowest_once_put(words, groups, tops, self.lowest, k, on);
    }

    /// Gives a bit another value. Writes nothing if it has that value.
    #[inline(always)]
    pub fn change(&mut self, k: usize, was: bool, is: bool)
        requires within { k < room_of self.old }
        requires was { has_bit self.old k ≡ (if was then 1 else 0) }
        ensures here { has_bit self.new k ≡ (if is then 1 else 0) }
        ensures others { (i : ℕ) → i ≢ k → has_bit self.new i ≡ has_bit self.old i }
        ensures room { room_of self.new ≡ room_of self.old }
    {
        if was != is {
            self.set(k, is);
        }
    }

    /// Returns the lowest bit that is set.
    #[inline(always)]
    pub fn first(&self) -> Option<usize>
        ensures here { IfSome result (λ k. has_bit self.now k ≡ 1) }
        ensures first { IfSome result (λ k. (i : ℕ) → i < k → has_bit self.now i ≡ 0) }
        ensures none { IsNone result → (i : ℕ) → has_bit self.now i ≡ 0 }
    {
        self.lowest
    }
}
