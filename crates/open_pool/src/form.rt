//! What holds of each open pool.
ghost use Rattle.std.specs.Prelude.{IfSome};
ghost use Rattle.block_map.specs.Map.{is_open, CountsPlaces};
ghost use Rattle.txg_engine.specs.Frozen.{IsGroup};
ghost use Rattle.txg_engine.specs.Writes.{RiseFrom};
ghost use Rattle.open_pool.specs.Form.{IsPool};

use crate::Pool;

impl Pool {
    /// What holds of each open pool between two lines. It computes nothing: its clauses are the law.
    pub fn keeps_its_form(&self)
        ensures pool { IsPool self.now }
        ensures rise { RiseFrom 0 self.now.unfrozen.writes }
        ensures counted { CountsPlaces (is_open self.now.map) self.now.map.count }
        ensures group { IfSome self.now.frozen IsGroup }
    {
        self.open.keeps_its_form();
        self.map.keeps_its_form();
        if let Some(frozen) = &self.frozen {
            frozen.keeps_its_form();
        }
    }
}
