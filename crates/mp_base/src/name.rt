//! Names of pools and devices.
ghost use Rattle.std.specs.Prelude.{◌≡◌, ◌↔◌, false, IfOk, IsErrOf, IsTrue};
ghost use Rattle.std.specs.List.{list_all};
ghost use Rattle.mp_base.specs.Name.{is_name, is_name_byte, is_name_start, is_word};

use crate::MemFault;
use std::alloc::{AllocError, Global};
use std::marker::Model;

/// A name: 1 to 64 bytes, lower-case letters, digits, `_`, `.` and `-`, of which the first is a letter
/// or a digit. The words `mirror` and `spare` are no names (docs/FORMATS.md, "Lines").
#[derive(Drop)]
pub struct Name {
    bytes: Vec<u8>,
}

impl Model for Name {
    ghost use Rattle.std.specs.Prelude.{ℕ, List, IsTrue};
    ghost use Rattle.mp_base.specs.Name.{is_name};

    ghost Value = { List ℕ };

    ghost view = { λ name. name.bytes.items };

    ghost invariant = { λ name. IsTrue (is_name name.bytes.items) };
}

impl PartialEq for Name {
    ghost use Rattle.std.specs.Str.{bytes_eq};
    ghost use Rattle.std.specs.Cmp.{partial_equiv_from_equiv};
    ghost use Rattle.std.proofs.lemmas.Cmp.{nat_list_eq_equiv};

    ghost eq = { bytes_eq };

    ghost laws = { partial_equiv_from_equiv nat_list_eq_equiv };

    fn eq(&self, other: &Name) -> bool {
        self.bytes.as_slice() == other.bytes.as_slice()
    }
}

/// Why there is no name.
#[derive(Clone, Copy, Debug, PartialEq, Eq)]
pub enum NameFault {
    Bad,
    Memory,
}

impl Name {
    /// The name that these bytes spell.
    pub fn new(alloc: Global, bytes: &[u8]) -> Result<Name, NameFault>
        ensures ok { IfOk result (λ name. name ≡ bytes.now) }
        ensures bad { IsErrOf result NameFault.Bad ↔ (is_name bytes.now ≡ false) }
    {
        if !may_name(bytes) {
            return Err(NameFault::Bad);
        }
        match Vec::from_slice(alloc, bytes) {
            Ok(bytes) => Ok(Name { bytes }),
            Err(_) => Err(NameFault::Memory),
        }
    }

    pub fn as_bytes(&self) -> &[u8]
        ensures { result.now ≡ self.now }
    {
        &self.bytes
    }

    /// Every name spells a name, as a fact for a caller's proof.
    pub fn spells_a_name(&self)
        ensures { IsTrue (is_name self.now) }
    {
        let _bytes = &self.bytes;
    }

    /// The same name once more.
    pub fn copy(&self, alloc: Global) -> Result<Name, MemFault>
        ensures { IfOk result (λ name. name ≡ self.now) }
    {
        Ok(Name {
            bytes: Vec::from_slice(alloc, &self.bytes)?,
        })
    }
}

/// Whether the bytes spell a name.
pub fn may_name(bytes: &[u8]) -> bool
    ensures { result ≡ is_name bytes.now }
{
    if bytes.is_empty() {
        return false;
    }
    if bytes.len() > 64 {
        return false;
    }
    if !is_name_start(bytes[0]) {
        return false;
    }
    if !has_name_bytes(bytes) {
        return false;
    }
    !is_word(bytes)
}

fn has_name_bytes(bytes: &[u8]) -> bool
    ensures { result ≡ list_all is_name_byte bytes.now }
{
    bytes.iter().all(|b| is_name_byte(*b))
}

fn is_name_start(b: u8) -> bool
    ensures { result ≡ is_name_start b }
{
    b.is_ascii_lowercase() || b.is_ascii_digit()
}

fn is_name_byte(b: u8) -> bool
    ensures { result ≡ is_name_byte b }
{
    is_name_start(b) || b == b'_' || b == b'.' || b == b'-'
}

fn is_word(bytes: &[u8]) -> bool
    ensures { result ≡ is_word bytes.now }
{
    bytes == b"mirror".as_slice() || bytes == b"spare".as_slice()
}
