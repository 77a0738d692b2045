//! Where the labels lie. A device of n sectors has four labels of 64 sectors each, at the sectors 0, 64,
//! n - 128 and n - 64. In a label the sectors 0 and 1 are the blank part and 2 and 3 the boot part, which
//! are never written; 4 to 31 are the configuration part, and 32 to 63 the ring of uberblocks.
ghost use Rattle.std.specs.Prelude.{◌≡◌, ◌≤◌};
ghost use Rattle.label_store.specs.Layout.{labels_of, even_labels, odd_labels};

/// The least sectors of a device with labels.
pub const LEAST_SECTORS: u64 = 320;

/// Where the configuration part of a label begins, and how many sectors it has.
pub(crate) const CONFIG_OFFSET: u64 = 4;

pub(crate) const CONFIG_SECTORS: usize = 28;

/// Where the ring of a label begins, and how many slots it has.
pub(crate) const RING_OFFSET: u64 = 32;

pub(crate) const RING_SLOTS: u64 = 32;

/// The first sectors of the labels of a device.
pub(crate) fn labels_of(sectors: u64) -> [u64; 4]
    requires { 320 ≤ sectors }
    ensures { result ≡ labels_of sectors }
{
    [0, 64, sectors - 128, sectors - 64]
}

/// Those that get a configuration first.
pub(crate) fn even_labels(sectors: u64) -> [u64; 2]
    requires { 320 ≤ sectors }
    ensures { result ≡ even_labels sectors }
{
    [0, sectors - 128]
}

/// Those that get it behind the uberblocks.
pub(crate) fn odd_labels(sectors: u64) -> [u64; 2]
    requires { 320 ≤ sectors }
    ensures { result ≡ odd_labels sectors }
{
    [64, sectors - 64]
}
