//! Which bytes are a pool's configuration, as the labels ask it.
ghost use Rattle.std.specs.Prelude.{◌≡◌, IfOk};
ghost use Rattle.config_codec.specs.Fields.{config_fields};
ghost use Rattle.pool_core.specs.Heads.{head_from};

use config_codec::{Config, decode};
use label_store::{BlobRule, Head};
use mp_base::MemFault;
use std::alloc::Global;

/// The configurations that this build reads (docs/FORMATS.md, "Configuration").
pub struct ConfigRule;

impl BlobRule for ConfigRule {
    ghost use Rattle.pool_core.specs.Heads.{head_of};

    ghost head_of = { head_of };

    fn reads(alloc: Global, bytes: &[u8]) -> Result<Option<Head>, MemFault> {
        match decode(alloc, bytes)? {
            Some(config) => Ok(Some(head_from(config))),
            None => Ok(None),
        }
    }
}

fn head_from(config: Config) -> Head
    ensures { result ≡ head_from (config_fields config) }
{
    let Config {
        pool,
        name,
        number,
        ..
    } = config;
    Head { pool, name, number }
}
