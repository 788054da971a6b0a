// The random bytes of a run. The device is opened when they are first drawn.
ghost use Rattle.std.specs.Prelude.{◌≡◌, ◌-◌, ◌≤◌, length, take, OnOk, OnErr, IsTrue};
ghost use Rattle.edge_model.specs.Causes.{HasCause};

use crate::failure::{Failure, called, settle};
use crate::host_streams::{DEVICE, HostDevice};
use edge_model::{Entropy, Failed};
use system_calls::{DeviceCalls, read_whole};

/// The bytes of a device, in order. Those that it gave to a fill that failed are lost, and are not drawn.
#[derive(Drop)]
pub struct RandomBytes<'a, D: DeviceCalls> {
    device: D,
    /// How many bytes the device gave to a fill that failed. Behind one that got any nothing is asked of it.
    lost: usize,
    /// How often the device has failed.
    pub faults: u64,
    /// The last failure.
    pub last: Option<Failure<'a>>,
}

/// The same, over the device of the system that runs this program.
pub type DeviceEntropy<'a> = RandomBytes<'a, HostDevice<'a>>;

impl<'a> DeviceEntropy<'a> {
    /// The device is not opened.
    pub fn new(rt: &'a HostRuntime) -> DeviceEntropy<'a> {
        RandomBytes::over(HostDevice::new(rt))
    }
}

impl<'a, D: DeviceCalls> RandomBytes<'a, D> {
    /// The bytes of this device.
    pub fn over(device: D) -> RandomBytes<'a, D>
        ensures device { result.device ≡ device }
        ensures lost { result.lost ≡ 0 }
        ensures faults { result.faults ≡ 0 }
    {
        RandomBytes {
            device,
            lost: 0,
            faults: 0,
            last: None,
        }
    }

    // Fails where bytes were lost.
    fn admit(&mut self) -> Result<(), Failed>
        ensures ok { OnOk result (self.new.lost ≡ 0) }
        ensures device { self.new.device ≡ self.old.device }
        ensures lost { self.new.lost ≡ self.old.lost }
        ensures cause { HasCause self.old.faults self.new.faults result }
    {
        if self.lost > 0 {
            self.faults = self.faults.saturating_add(1);
            return Err(Failed);
        }
        Ok(())
    }
}

impl<'a, D: DeviceCalls> Entropy for RandomBytes<'a, D> {
    ghost tells = { D.tells };

    ghost left = { λ entropy. D.left entropy.device };

    ghost drawn = { λ entropy. take (length (D.given entropy.device) - entropy.lost) (D.given entropy.device) };

    ghost faults = { λ entropy. entropy.faults };

    fn fill(&mut self, buf: &mut [u8]) -> Result<(), Failed> {
        self.admit()?;
        let opened = called(DEVICE, "open", self.device.open());
        settle(&mut self.faults, &mut self.last, opened)?;
        let outcome = called(
            DEVICE,
            "read",
            read_whole(&mut self.device, buf, &mut self.lost),
        );
        settle(&mut self.faults, &mut self.last, outcome)?;
        self.lost = 0;
        Ok(())
    }
}
