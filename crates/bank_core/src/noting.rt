//! How a bank in memory notes a call: in its list, and in the count of faults of the device.
ghost use Rattle.std.specs.Prelude.{◌≡◌, ◌≢◌, ℕ, ◌+◌, ◌<◌, ◌≤◌, ◌++◌, [], ◌∷◌, OnOk, OnErr};
ghost use Rattle.mp_base.specs.Outside.{Rose};
ghost use Rattle.bank_core.specs.Calls.{Called, device_of, fault_of};
ghost use Rattle.bank_core.specs.Disk.{Call, sectors_in};
ghost use Rattle.bank_core.specs.MemBank.{bank_size, bank_faults, bank_view};
ghost use Rattle.bank_core.specs.Memory.{call_as, AnswersThere};
ghost use Rattle.bank_core.specs.Story.{fault_in};

use crate::bank::Fault;
use crate::call::MemCall;
use crate::memory::MemBank;
use mp_base::MemFault;

impl MemBank {
    /// Raises the count of faults of a device.
    fn count(&mut self, dev: u32)
        requires { dev < 64 }
        ensures devices { self.new.devices ≡ self.old.devices }
        ensures calls { self.new.calls ≡ self.old.calls }
        ensures tells { self.new.tells ≡ self.old.tells }
        ensures counts { (d : ℕ) → bank_faults self.old d ≤ bank_faults self.new d }
        ensures rose { Rose (bank_faults self.old dev) (bank_faults self.new dev) }
        ensures others { (d : ℕ) → d ≢ dev → bank_faults self.new d ≡ bank_faults self.old d }
    {
        self.faults[dev as usize] = self.faults[dev as usize].saturating_add(1);
    }

    /// Puts a call into the list.
    fn keep(&mut self, call: MemCall) -> Result<(), MemFault>
        requires { call.at + sectors_in call.bytes.items ≤ bank_size self.old call.dev }
        ensures devices { self.new.devices ≡ self.old.devices }
        ensures faults { self.new.faults ≡ self.old.faults }
        ensures tells { self.new.tells ≡ self.old.tells }
        ensures ok { OnOk result (self.new.calls.items ≡ self.old.calls.items ++ call ∷ []) }
        ensures err { OnErr result (self.new.calls.items ≡ self.old.calls.items) }
    {
        self.calls.push(call)?;
        Ok(())
    }

    /// Stops telling, since the list has no memory for a call, which fails.
    pub(crate) fn lose(&mut self, dev: u32) -> Result<(), Fault>
        requires { dev < 64 }
        ensures failed { result ≡ Err Fault.Failed }
        ensures devices { self.new.devices ≡ self.old.devices }
        ensures lost { (call : Call) → device_of call ≡ dev → fault_of call ≡ fault_in result
            → Called call (bank_view self.old) (bank_view self.new) }
    {
        self.tells = false;
        self.count(dev);
        Err(Fault::Failed)
    }

    /// Makes a call, whose answer it holds.
    pub(crate) fn note(&mut self, call: MemCall) -> Result<(), Fault>
        requires device { 0 < bank_size self.old call.dev }
        requires inside { call.at + sectors_in call.bytes.items ≤ bank_size self.old call.dev }
        requires answers { AnswersThere self.old.devices.items self.old.calls.items call }
        ensures { Called (call_as call.kind call.dev call.at call.bytes.items (fault_in result))
            (bank_view self.old) (bank_view self.new) }
    {
        let dev = call.dev;
        let fault = call.fault;
        if self.keep(call).is_err() {
            return self.lose(dev);
        }
        match fault {
            None => Ok(()),
            Some(fault) => {
                self.count(dev);
                Err(fault)
            }
        }
    }
}
