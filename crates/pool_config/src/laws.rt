//! What holds of every configuration, whatever code there is.
ghost use Rattle.std.specs.Prelude.{◌≡◌, ◌↔◌, ℕ, ◌<◌, List, length, Some, IsTrue};
ghost use Rattle.vdev_tree.specs.declared.vdev.Vdev.{Vdev};
ghost use Rattle.vdev_tree.specs.Tree.{is_top};
ghost use Rattle.pool_config.specs.declared.config.Config.{Config};
ghost use Rattle.pool_config.specs.Alike.{TreesAlike, ConfigsAlike, SpelledAlike};
ghost use Rattle.pool_config.specs.Seen.{ConfigSeen, config_seen, vdevs_of};
ghost use Rattle.pool_config.specs.Trees.{is_tree};
ghost use Rattle.pool_config.specs.Reading.{config_in};
ghost use Rattle.pool_config.specs.Spelling.{config_bytes};
ghost use Rattle.pool_config.specs.Validity.{IsValid, is_valid};

/// What is written is read back, and what is read is written so. So each valid configuration has one
/// spelling, of fewer than 72,000 bytes, and no other configuration has it.
pub fn each_has_one_spelling()
    ensures back { (c : ConfigSeen) → IsValid c → config_in (config_bytes c) ≡ Some c }
    ensures valid { (bytes : List ℕ) (c : ConfigSeen) → config_in bytes ≡ Some c → IsValid c }
    ensures spelled { (bytes : List ℕ) (c : ConfigSeen) → config_in bytes ≡ Some c → bytes ≡ config_bytes c }
    ensures fits { (c : ConfigSeen) → IsValid c → length (config_bytes c) < 72000 }
    ensures one { (a b : Config) → IsValid (config_seen a) → IsValid (config_seen b) → SpelledAlike a b ↔ ConfigsAlike a b }
{}

/// The test tells what is valid.
pub fn validity_is_tested()
    ensures { (c : ConfigSeen) → IsTrue (is_valid c) ↔ IsValid c }
{}

/// A tree that is written out, vdev by vdev, is a top's just where the tree is, and two trees are written
/// out alike just where they are built alike with leaves that a record keeps alike.
pub fn a_tree_is_written_out()
    ensures top { (vdev : Vdev) → is_tree (vdevs_of vdev) ≡ is_top vdev }
    ensures one { (a b : Vdev) → (vdevs_of a ≡ vdevs_of b) ↔ TreesAlike a b }
{}
