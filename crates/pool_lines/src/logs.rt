//! The text of a pool's logs.
ghost use Rattle.std.specs.Prelude.{◌≡◌, ◌++◌, map, codes, IfOk, OnOk};
ghost use Rattle.std.specs.List.{flat_map};
ghost use Rattle.pool_lines.specs.Text.{leaf_log_text, log_text, range_text};
ghost use Rattle.pool_lines.specs.Words.{with_commas};

use crate::LeafLog;
use crate::text::push_comma;
use mp_base::{GroupRange, MemFault};
use std::alloc::Global;

/// `ok`, and each leaf with its log.
pub(crate) fn write_logs(alloc: Global, leaves: &[LeafLog]) -> Result<Vec<u8>, MemFault>
    ensures { IfOk result (λ bytes. bytes.items ≡ codes "ok" ++ flat_map leaf_log_text leaves.now) }
{
    let mut text = Vec::from_slice(alloc, b"ok")?;
    for leaf in leaves {
        push_leaf_log(alloc, &mut text, leaf)?;
    }
    Ok(text)
}

fn push_leaf_log(alloc: Global, text: &mut Vec<u8>, leaf: &LeafLog) -> Result<(), MemFault>
    ensures { OnOk result (text.new.items ≡ text.old.items ++ leaf_log_text leaf.now) }
{
    let log = write_log(alloc, leaf.log.as_slice())?;
    text.push(b' ')?;
    text.extend_from_slice(leaf.name.as_bytes())?;
    text.push(b'=')?;
    text.extend_from_slice(&log)?;
    Ok(())
}

/// The ranges, `-` where there are none.
fn write_log(alloc: Global, ranges: &[GroupRange]) -> Result<Vec<u8>, MemFault>
    ensures { IfOk result (λ bytes. bytes.items ≡ log_text ranges.now) }
{
    if ranges.is_empty() {
        return Ok(Vec::from_slice(alloc, b"-")?);
    }
    write_ranges(alloc, ranges)
}

fn write_ranges(alloc: Global, ranges: &[GroupRange]) -> Result<Vec<u8>, MemFault>
    ensures { IfOk result (λ bytes. bytes.items ≡ with_commas (map range_text ranges.now)) }
{
    let mut text = Vec::new(alloc);
    for (at, range) in ranges.iter().enumerate() {
        push_comma(&mut text, at)?;
        let shown = write_range(alloc, *range)?;
        text.extend_from_slice(&shown)?;
    }
    Ok(text)
}

/// A range of one group is shown as this group.
fn write_range(alloc: Global, range: GroupRange) -> Result<Vec<u8>, MemFault>
    ensures { IfOk result (λ bytes. bytes.items ≡ range_text range) }
{
    let low = range.low.0;
    let high = range.high.0;
    if low == high {
        return Ok(format!(in alloc; "{low}")?.into_bytes());
    }
    Ok(format!(in alloc; "{low}-{high}")?.into_bytes())
}
