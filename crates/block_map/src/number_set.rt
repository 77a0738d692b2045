//! Sets of numbers whose least is found at once.
//!
//! Where only few numbers are left, most words of the bitmap have none. So a second bitmap has the words that
//! have some, and no word of that one below `low` has any.
ghost use Rattle.std.specs.Prelude.{◌≡◌, ◌≢◌, ℕ, ◌+◌, ◌*◌, ◌/◌, ◌^◌, ◌<◌, ◌≤◌, true, false, length, IfOk, IfSome, IfNone};
ghost use Rattle.block_map.specs.Bits.{holds, holds_some};
ghost use Rattle.block_map.specs.NumberSet.{has, room, IsLeast, HasMore, HasLess, HasNow, count_below};

use crate::bits::Bits;
use mp_base::MemFault;
use std::alloc::Global;
use std::marker::Model;

/// A set of numbers.
#[derive(Drop)]
pub(crate) struct NumberSet {
    members: Bits,
    words: Bits,
    low: usize,
    count: usize,
}

impl Model for NumberSet {
    ghost use Rattle.block_map.specs.NumberSet.{Numbers, AreCounted};

    ghost Value = { Numbers };

    ghost view = { λ set. record { members = set.members; count = set.count } };

    ghost invariant = { λ set. AreCounted set.members set.words set.low set.count };
}

#[tactic(auto, unfolding(crate::specs::NumberSet::has, crate::specs::NumberSet::room))]
impl NumberSet {
    /// An empty set with room for the numbers below this one.
    pub(crate) fn new(alloc: Global, most: usize) -> Result<NumberSet, MemFault>
        requires { most ≤ 2 ^ 32 }
        ensures none { IfOk result (λ set. (at : ℕ) → has set at ≡ false) }
        ensures count { IfOk result (λ set. set.count ≡ 0) }
        ensures room { IfOk result (λ set. length set.members ≡ most / 64 + 1) }
    {
        let members = Bits::new(alloc, most)?;
        let words = Bits::new(alloc, most / 64 + 1)?;
        Ok(NumberSet {
            members,
            words,
            low: 0,
            count: 0,
        })
    }

    /// How many numbers it has.
    pub(crate) fn count(&self) -> usize
        ensures count { result ≡ self.now.count }
        ensures counted { result ≡ count_below (has self.now) (room self.now) }
    {
        self.count
    }

    /// Puts a number in that isn't there.
    pub(crate) fn insert(&mut self, at: usize)
        requires inside { at < room self.old }
        requires absent { has self.old at ≡ false }
        ensures more { HasMore self.old self.new at }
    {
        self.members.insert(at);
        self.words.insert(at / 64);
        self.low = self.low.min(at / 4096);
        self.count += 1;
    }

    /// Takes a number out that is there.
    pub(crate) fn remove(&mut self, at: usize)
        requires inside { at < room self.old }
        requires there { has self.old at ≡ true }
        ensures less { HasLess self.old self.new at }
    {
        self.members.remove(at);
        drop_if_empty(&mut self.words, &self.members, at / 64);
        self.count -= 1;
    }

    /// Has the number from now on, or has it no more.
    pub(crate) fn set(&mut self, at: usize, there: bool)
        requires { at < room self.old }
        ensures { HasNow there self.old self.new at }
    {
        if self.members.contains(at) == there {
            return;
        }
        if there {
            self.insert(at);
            return;
        }
        self.remove(at);
    }

    /// The least number, which it takes out.
    pub(crate) fn take_least(&mut self) -> Option<usize>
        ensures least { IfSome result (λ at. IsLeast (has self.old) at) }
        ensures less { IfSome result (λ at. HasLess self.old self.new at) }
        ensures none { IfNone result ((at : ℕ) → has self.old at ≡ false) }
        ensures empty { IfNone result (self.old.count ≡ 0) }
        ensures unchanged { IfNone result (self.new ≡ self.old) }
    {
        let low = self.words.least_word(self.low)?;
        let word = self.words.least_in(low);
        let at = self.members.least_in(word);
        self.low = low;
        self.remove(at);
        Some(at)
    }
}

/// Takes out a word that has no number any more.
fn drop_if_empty(words: &mut Bits, members: &Bits, word: usize)
    requires inside { word < length members.now }
    requires room { word < 64 * length words.old }
    requires had { holds words.old word ≡ true }
    ensures word { holds words.new word ≡ holds_some members.now word }
    ensures others { (w : ℕ) → w ≢ word → holds words.new w ≡ holds words.old w }
    ensures room { length words.new ≡ length words.old }
{
    if members.has_some(word) {
        return;
    }
    words.remove(word);
}
