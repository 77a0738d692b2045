//! A part of a label as it was read.
ghost use Rattle.std.specs.Prelude.{◌≡◌, Some, None};
ghost use Rattle.std.specs.Option.{option_copied};

use std::marker::Model;

/// The bytes of a ring or of a configuration part, where its read answered.
#[derive(Drop)]
pub(crate) struct Part {
    bytes: Option<Vec<u8>>,
}

impl Model for Part {
    ghost use Rattle.std.specs.Prelude.{ℕ, List, Option};
    ghost use Rattle.std.specs.Option.{option_map};

    ghost Value = { Option (List ℕ) };

    ghost view = { λ part. option_map (λ bytes. bytes.items) part.bytes };
}

impl Part {
    pub(crate) fn read(bytes: Vec<u8>) -> Part
        ensures { result ≡ Some bytes.items }
    {
        Part { bytes: Some(bytes) }
    }

    pub(crate) fn failed() -> Part
        ensures { result ≡ None }
    {
        Part { bytes: None }
    }

    pub(crate) fn bytes(&self) -> Option<&[u8]>
        ensures { option_copied result ≡ self.now }
    {
        match &self.bytes {
            Some(bytes) => Some(bytes),
            None => None,
        }
    }
}
