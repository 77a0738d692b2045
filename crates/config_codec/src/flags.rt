//! The flags of a leaf: 1 offline, 2 faulted, 4 degraded, and 8 more where it is marked to come back.
ghost use Rattle.std.specs.Prelude.{◌≡◌, ◌≤◌};
ghost use Rattle.config_codec.specs.Flags.{flag_of, flags_of, state_of, kept_in, marked_in};

use crate::config::KeptState;

const OFFLINE: u8 = 1;

const FAULTED: u8 = 2;

const DEGRADED: u8 = 4;

const MARKED: u8 = 8;

pub(crate) fn flags_of(kept: KeptState, marked: bool) -> u8
    ensures { result ≡ flags_of kept marked }
{
    if marked {
        flag_of(kept) + MARKED
    } else {
        flag_of(kept)
    }
}

fn flag_of(kept: KeptState) -> u8
    ensures flag { result ≡ flag_of kept }
    ensures low { result ≤ 4 }
{
    match kept {
        KeptState::Online => 0,
        KeptState::Offline => OFFLINE,
        KeptState::Faulted => FAULTED,
        KeptState::Degraded => DEGRADED,
    }
}

/// The state that the flags tell. Where they tell several or none it is `Online`.
pub(crate) fn kept_in(flags: u8) -> KeptState
    ensures { result ≡ kept_in flags }
{
    match flags % MARKED {
        OFFLINE => KeptState::Offline,
        FAULTED => KeptState::Faulted,
        DEGRADED => KeptState::Degraded,
        _ => KeptState::Online,
    }
}

pub(crate) fn is_marked(flags: u8) -> bool
    ensures { result ≡ marked_in flags }
{
    flags >= MARKED
}
