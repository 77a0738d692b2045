//! What holds of every configuration, whatever code there is.
ghost use Rattle.std.specs.Prelude.{◌≡◌, ◌↔◌, ℕ, ◌+◌, ◌*◌, ◌≤◌, List, length, Some, IsTrue};
ghost use Rattle.config_codec.specs.Fields.{Fields};
ghost use Rattle.config_codec.specs.Reading.{config_in};
ghost use Rattle.config_codec.specs.Spelling.{config_bytes};
ghost use Rattle.config_codec.specs.Validity.{IsValid, is_valid};

/// What is written is read back, and what is read is written so. So each valid configuration has one
/// spelling, and it has at most 1,949 bytes and 16 for each range.
pub fn each_has_one_spelling()
    ensures back { (c : Fields) → IsValid c → config_in (config_bytes c) ≡ Some c }
    ensures valid { (bytes : List ℕ) (c : Fields) → config_in bytes ≡ Some c → IsValid c }
    ensures spelled { (bytes : List ℕ) (c : Fields) → config_in bytes ≡ Some c → bytes ≡ config_bytes c }
    ensures fits { (c : Fields) → IsValid c → length (config_bytes c) ≤ 1949 + 16 * (length c.first.log + length c.second.log) }
{}

/// The test tells what is valid.
pub fn validity_is_tested()
    ensures { (c : Fields) → IsTrue (is_valid c) ↔ IsValid c }
{}
