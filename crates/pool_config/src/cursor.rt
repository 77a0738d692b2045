//! Reading from the front of bytes. It never fails: behind the end zeros are read. Whether the bytes end
//! too early is told by writing again what was read.
ghost use Rattle.std.specs.Prelude.{◌≡◌, ◌==◌, length, drop};
ghost use Rattle.pool_config.specs.Reading.{front, byte_in, count_in, number_in, text_in, behind_text};

use std::marker::Model;

/// What is still to be read.
#[derive(Drop)]
pub(crate) struct Cursor<'a> {
    rest: &'a [u8],
}

impl<'a> Model for Cursor<'a> {
    ghost use Rattle.std.specs.Prelude.{ℕ, List};

    ghost Value = { List ℕ };

    ghost view = { λ cursor. cursor.rest.now };
}

impl<'a> Cursor<'a> {
    pub(crate) fn new(bytes: &'a [u8]) -> Cursor<'a>
        ensures { result ≡ bytes.now }
    {
        Cursor { rest: bytes }
    }

    /// Passes so many bytes over.
    pub(crate) fn skip(&mut self, count: usize)
        ensures { self.new ≡ drop count self.old }
    {
        self.rest = &self.rest[count.min(self.rest.len())..];
    }

    /// Whether this byte is the next.
    pub(crate) fn is_at(&self, byte: u8) -> bool
        ensures { result ≡ (byte_in self.now == byte) }
    {
        self.rest.first().copied().unwrap_or(0) == byte
    }

    /// The next byte.
    pub(crate) fn byte(&mut self) -> u8
        ensures value { result ≡ byte_in self.old }
        ensures rest { self.new ≡ drop 1 self.old }
    {
        let byte = self.rest.first().copied().unwrap_or(0);
        self.skip(1);
        byte
    }

    /// The next four bytes as a number, the high one first.
    #[tactic(auto, unfolding(crate::specs::Reading::count_in))]
    pub(crate) fn count(&mut self) -> u32
        ensures value { result ≡ count_in self.old }
        ensures rest { self.new ≡ drop 4 self.old }
    {
        u32::from_be_bytes(self.bytes())
    }

    /// The next eight bytes as a number, the high one first.
    #[tactic(auto, unfolding(crate::specs::Reading::number_in))]
    pub(crate) fn number(&mut self) -> u64
        ensures value { result ≡ number_in self.old }
        ensures rest { self.new ≡ drop 8 self.old }
    {
        u64::from_be_bytes(self.bytes())
    }

    /// The next so many bytes.
    pub(crate) fn bytes<const N: usize>(&mut self) -> [u8; N]
        ensures value { result ≡ front N self.old }
        ensures rest { self.new ≡ drop N self.old }
    {
        let mut bytes = [0; N];
        let there = N.min(self.rest.len());
        bytes[..there].copy_from_slice(&self.rest[..there]);
        self.skip(N);
        bytes
    }

    /// The next text: a byte, its length, and its bytes.
    #[tactic(auto, unfolding(crate::specs::Reading::text_in, crate::specs::Reading::behind_text))]
    pub(crate) fn text(&mut self) -> &'a [u8]
        ensures value { result.now ≡ text_in self.old }
        ensures rest { self.new ≡ behind_text self.old }
    {
        let length = usize::from(self.byte());
        let text = &self.rest[..length.min(self.rest.len())];
        self.skip(length);
        text
    }
}
