//! Lists of members that take no memory.
ghost use Rattle.std.specs.Prelude.{◌≡◌, ◌<◌, ◌≤◌, ◌∷◌, ◌++◌, [], length, map, take};
ghost use Rattle.txg_engine.specs.Boards.{dev_of};

use crate::seat::MOST_LEAVES;
use label_store::Member;
use mp_base::Guid;
use std::marker::Model;

/// Members in tree order, at most 32.
#[derive(Drop)]
pub(crate) struct Members {
    list: [Member; MOST_LEAVES],
    len: usize,
}

impl Model for Members {
    ghost use Rattle.std.specs.Prelude.{◌≡◌, ◌≤◌, List, length, take};
    ghost use Rattle.label_store.specs.declared.member.Member.{Member};

    ghost Value = { List Member };

    ghost view = { λ members. take members.len members.list };

    ghost invariant = { λ members. (members.len ≤ 32) × (length members.list ≡ 32) };
}

impl Members {
    pub(crate) fn new() -> Members
        ensures { result ≡ [] }
    {
        let nobody = Member {
            dev: 0,
            guid: Guid(0),
        };
        Members {
            list: [nobody; MOST_LEAVES],
            len: 0,
        }
    }

    pub(crate) fn push(&mut self, member: Member)
        requires { length self.old < 32 }
        ensures { self.new ≡ self.old ++ member ∷ [] }
    {
        self.list[self.len] = member;
        self.len += 1;
    }

    pub(crate) fn as_slice(&self) -> &[Member]
        ensures members { result.now ≡ self.now }
        ensures most { length result.now ≤ 32 }
    {
        &self.list[..self.len]
    }
}

/// The numbers of the devices of these members, at the front.
pub(crate) fn devs_of(members: &[Member]) -> [u32; MOST_LEAVES]
    requires { length members.now ≤ 32 }
    ensures { take (length members.now) result ≡ map dev_of members.now }
{
    let mut devs = [0; MOST_LEAVES];
    for i in 0..members.len() {
        devs[i] = members[i].dev;
    }
    devs
}
