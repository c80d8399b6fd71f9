ghost use Rattle.std.specs.Prelude.{◌≡◌, IfSome};

use crate::calibration::Calibration;
use crate::limits::Limits;
use station_base::{FIELD_COUNT, FieldId};

// The calibration and the limits of each field by its number, where a file or a change names them.
#[derive(Clone, Copy, Debug)]
pub(crate) struct Corrections {
    pub calibrations: [Option<Calibration>; FIELD_COUNT],
    pub limits: [Option<Limits>; FIELD_COUNT],
}

impl Corrections {
    ghost use Rattle.settings_file.specs.Calibration.{IsCalibration};
    ghost use Rattle.settings_file.specs.Limits.{AreLimits};
    ghost use Rattle.settings_file.specs.Corrections.{calibration_in, limits_in, AreCorrections};

    // Nothing is named of any field.
    pub const NONE: Corrections = Corrections {
        calibrations: [None; FIELD_COUNT],
        limits: [None; FIELD_COUNT],
    };

    pub fn calibration(&self, field: FieldId) -> Option<Calibration>
        requires { AreCorrections self.now }
        ensures value { result ≡ calibration_in field self.now }
        ensures range { IfSome result IsCalibration }
    {
        self.calibrations[field.index()]
    }

    pub fn limits(&self, field: FieldId) -> Option<Limits>
        requires { AreCorrections self.now }
        ensures value { result ≡ limits_in field self.now }
        ensures range { IfSome result AreLimits }
    {
        self.limits[field.index()]
    }
}
