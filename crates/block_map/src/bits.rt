//! Bitmaps.
ghost use Rattle.std.specs.Prelude.{◌≡◌, ◌≢◌, ℕ, ◌+◌, ◌*◌, ◌/◌, ◌^◌, ◌<◌, ◌≤◌, true, false, length, slice_index, IfOk, IfSome, IfNone};
ghost use Rattle.block_map.specs.Bits.{holds, holds_some, IsLeastWord, IsLeastIn};

use mp_base::MemFault;
use std::alloc::Global;
use std::marker::Model;

/// A set of numbers below 64 times its words, a bit for each.
#[derive(Drop)]
pub(crate) struct Bits {
    words: Vec<u64>,
}

impl Model for Bits {
    ghost use Rattle.std.specs.Prelude.{ℕ, List};

    ghost Value = { List ℕ };

    ghost view = { λ bits. bits.words.items };
}

impl Bits {
    /// An empty set with room for the numbers below this one.
    pub(crate) fn new(alloc: Global, room: usize) -> Result<Bits, MemFault>
        ensures none { IfOk result (λ bits. (at : ℕ) → holds bits at ≡ false) }
        ensures words { IfOk result (λ bits. (w : ℕ) → slice_index bits w ≡ 0) }
        ensures size { IfOk result (λ bits. length bits ≡ room / 64 + 1) }
    {
        Ok(Bits {
            words: vec![in alloc; 0; room / 64 + 1]?,
        })
    }

    pub(crate) fn contains(&self, at: usize) -> bool
        requires { at < 64 * length self.now }
        ensures { result ≡ holds self.now at }
    {
        self.words[at / 64] >> (at % 64) & 1 == 1
    }

    pub(crate) fn insert(&mut self, at: usize)
        requires { at < 64 * length self.old }
        ensures there { holds self.new at ≡ true }
        ensures others { (i : ℕ) → i ≢ at → holds self.new i ≡ holds self.old i }
        ensures words { (w : ℕ) → w ≢ at / 64 → slice_index self.new w ≡ slice_index self.old w }
        ensures room { length self.new ≡ length self.old }
    {
        self.words[at / 64] |= 1 << (at % 64);
    }

    pub(crate) fn remove(&mut self, at: usize)
        requires { at < 64 * length self.old }
        ensures gone { holds self.new at ≡ false }
        ensures others { (i : ℕ) → i ≢ at → holds self.new i ≡ holds self.old i }
        ensures words { (w : ℕ) → w ≢ at / 64 → slice_index self.new w ≡ slice_index self.old w }
        ensures room { length self.new ≡ length self.old }
    {
        self.words[at / 64] &= !(1 << (at % 64));
    }

    /// Whether the word has a number.
    pub(crate) fn has_some(&self, word: usize) -> bool
        requires { word < length self.now }
        ensures { result ≡ holds_some self.now word }
    {
        self.words[word] != 0
    }

    /// The least number of a word that has one.
    pub(crate) fn least_in(&self, word: usize) -> usize
        requires inside { word < length self.now }
        requires some { holds_some self.now word ≡ true }
        requires room { word < 2 ^ 57 }
        ensures { IsLeastIn self.now word result }
    {
        let bits = self.words[word];
        64 * word + bits.trailing_zeros() as usize
    }

    /// The first word from this one on that has a number.
    pub(crate) fn least_word(&self, from: usize) -> Option<usize>
        ensures first { IfSome result (λ w. IsLeastWord self.now from w) }
        ensures none { IfNone result ((w : ℕ) → from ≤ w → holds_some self.now w ≡ false) }
    {
        for word in from..self.words.len() {
            if self.has_some(word) {
                return Some(word);
            }
        }
        None
    }
}
