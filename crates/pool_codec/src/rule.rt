//! Which bytes are a pool's configuration, as the labels ask it.
ghost use Rattle.std.specs.Prelude.{◌≡◌};
ghost use Rattle.pool_config.specs.Seen.{config_seen};
ghost use Rattle.pool_codec.specs.Codecs.{head_of_seen};

use label_store::{BlobRule, Head};
use mp_base::MemFault;
use pool_config::{Config, decode};
use std::alloc::Global;

/// Configurations of version 1 (docs/FORMATS.md, "Configuration, version 1").
pub struct ConfigRule;

impl BlobRule for ConfigRule {
    ghost use Rattle.pool_codec.specs.Codecs.{head_of};

    ghost head_of = { head_of };

    fn reads(alloc: Global, bytes: &[u8]) -> Result<Option<Head>, MemFault> {
        match decode(alloc, bytes)? {
            Some(config) => Ok(Some(head_from(config))),
            None => Ok(None),
        }
    }
}

fn head_from(config: Config) -> Head
    ensures { result ≡ head_of_seen (config_seen config) }
{
    let Config {
        pool,
        name,
        number,
        ..
    } = config;
    Head { pool, name, number }
}
