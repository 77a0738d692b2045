//! What is planned for the calls on a bank in memory, by their places in its list.
use crate::bank::Fault;
use crate::call::Damage;
use mp_base::MemFault;
use std::alloc::Global;

/// The calls on a device at the places `from..=to` of the list fail.
#[derive(Clone, Copy)]
struct PlannedFault {
    dev: u32,
    from: u64,
    to: u64,
    fault: Fault,
}

/// This damage comes with the call at this place of the list.
#[derive(Clone, Copy)]
struct PlannedDamage {
    place: u64,
    damage: Damage,
}

#[derive(Drop)]
pub(crate) struct Plan {
    faults: Vec<PlannedFault>,
    damages: Vec<PlannedDamage>,
}

impl Plan {
    pub(crate) fn new(alloc: Global) -> Plan {
        Plan {
            faults: Vec::new(alloc),
            damages: Vec::new(alloc),
        }
    }

    pub(crate) fn fail(
        &mut self,
        dev: u32,
        from: u64,
        to: u64,
        fault: Fault,
    ) -> Result<(), MemFault> {
        self.faults.push(PlannedFault {
            dev,
            from,
            to,
            fault,
        })?;
        Ok(())
    }

    pub(crate) fn damage(&mut self, place: u64, damage: Damage) -> Result<(), MemFault> {
        self.damages.push(PlannedDamage { place, damage })?;
        Ok(())
    }

    /// The fault of a call on the device at this place, by the plan that was made first.
    pub(crate) fn fault_at(&self, dev: u32, place: u64) -> Option<Fault> {
        self.faults
            .iter()
            .find(|x| x.dev == dev && x.from <= place && place <= x.to)
            .map(|x| x.fault)
    }

    /// The damage that comes with the call at this place.
    pub(crate) fn damage_at(&self, alloc: Global, place: u64) -> Result<Vec<Damage>, MemFault> {
        let mut damage = Vec::new(alloc);
        for x in &self.damages {
            if x.place == place {
                damage.push(x.damage)?;
            }
        }
        Ok(damage)
    }
}
