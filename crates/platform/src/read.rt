// What a platform has.
ghost use Rattle.std.specs.Prelude.{◌≡◌};
ghost use Rattle.platform.specs.Devices.{devices};
ghost use Rattle.platform.specs.Rules.{Sound};

use crate::platform::Platform;
use crate::unit::Unit;

impl Platform {
    pub fn rails(&self) -> u8
        ensures { result ≡ self.now.rails }
    {
        self.rails
    }

    pub fn units(&self) -> &[Unit]
        ensures value { result.now ≡ self.now.units.items }
        ensures sound { Sound self.now.rails (devices result.now) }
    {
        &self.units
    }
}
