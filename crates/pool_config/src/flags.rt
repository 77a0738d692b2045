//! The flags of a leaf: 1 offline, 2 faulted, 4 degraded, and 8 more where it is marked to come back.
ghost use Rattle.std.specs.Prelude.{◌≡◌, ◌≤◌, false, true};
ghost use Rattle.pool_config.specs.Flags.{recorded, is_recorded, flag_of, flags_of, state_of_flag, state_in, marked_in};

use vdev_tree::{LeafVdev, State};

const OFFLINE: u8 = 1;

const FAULTED: u8 = 2;

const DEGRADED: u8 = 4;

const MARKED: u8 = 8;

pub(crate) fn flags_of(leaf: &LeafVdev) -> u8
    ensures { result ≡ flags_of (recorded leaf.now.state leaf.now.temporary) leaf.now.marked }
{
    let flag = flag_of(leaf.state, leaf.temporary);
    if leaf.marked { flag + MARKED } else { flag }
}

fn flag_of(state: State, temporary: bool) -> u8
    ensures flag { result ≡ flag_of (recorded state temporary) }
    ensures low { result ≤ 4 }
{
    match state {
        State::Offline if !temporary => OFFLINE,
        State::Faulted => FAULTED,
        State::Degraded => DEGRADED,
        _ => 0,
    }
}

/// The state that the flags tell. Where they tell several or none it is `Online`.
pub(crate) fn state_in(flags: u8) -> State
    ensures state { result ≡ state_in flags }
    ensures kept { recorded result false ≡ result }
    ensures recorded { is_recorded result ≡ true }
{
    match flags % MARKED {
        OFFLINE => State::Offline,
        FAULTED => State::Faulted,
        DEGRADED => State::Degraded,
        _ => State::Online,
    }
}

pub(crate) fn is_marked(flags: u8) -> bool
    ensures { result ≡ marked_in flags }
{
    flags >= MARKED
}
