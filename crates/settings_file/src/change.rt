ghost use Rattle.std.specs.Prelude.{◌≡◌, ◌<◌, ◌≤◌, ◌++◌, ◌∷◌, [], List, length, IsTrue, IfSome, Some, None, true};
ghost use Rattle.station_base.specs.LastStamp.{exceeds};

use crate::calibration::Calibration;
use crate::corrections::Corrections;
use crate::limits::Limits;
use station_base::{FieldId, Stamp};
use std::marker::Model;

// How many changes a file has at most.
pub(crate) const MOST_SETTINGS_CHANGES: usize = 16;

// Corrections that are in force from a stamp on. (A change of settings: no change of a disk.)
#[derive(Clone, Copy, Debug)]
pub(crate) struct Change {
    pub from: Stamp,
    pub named: Corrections,
}

impl Change {
    ghost use Rattle.settings_file.specs.Calibration.{IsCalibration};
    ghost use Rattle.settings_file.specs.Limits.{AreLimits};
    ghost use Rattle.settings_file.specs.Corrections.{calibration_in, limits_in};
    ghost use Rattle.settings_file.specs.Changes.{IsChange, is_in_force, named_by};

    // Whether a row of this stamp is corrected by the change, unless a later one names the field.
    fn is_in_force(&self, stamp: &Stamp) -> bool
        ensures { result ≡ is_in_force stamp.now self.now }
    {
        self.from <= *stamp
    }

    // The calibration of a field that the change names, where it is in force at a stamp.
    fn calibration(&self, field: FieldId, stamp: &Stamp) -> Option<Calibration>
        requires { IsChange self.now }
        ensures value { result ≡ named_by (calibration_in field) stamp.now self.now }
        ensures range { IfSome result IsCalibration }
    {
        if self.is_in_force(stamp) {
            self.named.calibration(field)
        } else {
            None
        }
    }

    // The limits of a field that the change names, where it is in force at a stamp.
    fn limits(&self, field: FieldId, stamp: &Stamp) -> Option<Limits>
        requires { IsChange self.now }
        ensures value { result ≡ named_by (limits_in field) stamp.now self.now }
        ensures range { IfSome result AreLimits }
    {
        if self.is_in_force(stamp) {
            self.named.limits(field)
        } else {
            None
        }
    }
}

// The changes of a file, in order. Places past their count hold a blank change.
#[derive(Clone, Copy, Debug)]
pub(crate) struct Changes {
    all: [Change; MOST_SETTINGS_CHANGES],
    count: usize,
}

impl Model for Changes {
    ghost use Rattle.std.specs.Prelude.{◌-◌, ◌++◌, List, length, take, replicate};
    ghost use Rattle.settings_file.specs.declared.change.Change.{Change};
    ghost use Rattle.settings_file.specs.Changes.{blank_change};
    ghost use Rattle.settings_file.specs.ChangesStored.{AreStored};
    ghost use Rattle.settings_file.specs.ChangesBack.{count_back, places_back};

    ghost Value = { List Change };

    ghost view = { λ c. take c.count c.all };

    ghost invariant = { λ c. AreStored c.count c.all };

    ghost inverse = { λ changes. record {
      all = changes
          ++ replicate (16 - length changes) blank_change;
      count = length changes;
    } };

    ghost inverse_ok = { λ c stored i. record {
      all = places_back c.count c.all stored i;
      count = count_back c.count c.all stored i;
    } };
}

impl Changes {
    ghost use Rattle.settings_file.specs.Calibration.{IsCalibration};
    ghost use Rattle.settings_file.specs.Limits.{AreLimits};
    ghost use Rattle.settings_file.specs.Corrections.{calibration_in, limits_in};
    ghost use Rattle.settings_file.specs.Changes.{AreChanges, IsChange, change_start, last_start, last_given, named_by};

    // No changes.
    pub fn none() -> Changes
        ensures none { result ≡ [] }
        ensures valid { AreChanges result }
    {
        let blank = Change {
            from: Stamp::first(),
            named: Corrections::NONE,
        };
        Changes {
            all: [blank; MOST_SETTINGS_CHANGES],
            count: 0,
        }
    }

    // Adds a change behind the others.
    pub fn push(&mut self, change: &Change)
        requires room { length self.old < MOST_SETTINGS_CHANGES }
        requires change { IsChange change.now }
        requires later { exceeds (last_start self.old) (Some change.now.from) ≡ true }
        ensures more { self.new ≡ self.old ++ change.now ∷ [] }
        ensures valid { AreChanges self.new }
    {
        self.all[self.count] = *change;
        self.count += 1;
    }

    // The calibration of a field that the last of the changes names which are in force at a stamp.
    pub fn calibration(&self, field: FieldId, stamp: &Stamp) -> Option<Calibration>
        ensures value { result ≡ last_given (named_by (calibration_in field) stamp.now) self.now }
        ensures range { IfSome result IsCalibration }
    {
        let changes = &self.all[..self.count];
        let mut last = None;
        for change in changes {
            last = change.calibration(field, stamp).or(last);
        }
        last
    }

    // The limits of a field that the last of the changes names which are in force at a stamp.
    pub fn limits(&self, field: FieldId, stamp: &Stamp) -> Option<Limits>
        ensures value { result ≡ last_given (named_by (limits_in field) stamp.now) self.now }
        ensures range { IfSome result AreLimits }
    {
        let changes = &self.all[..self.count];
        let mut last = None;
        for change in changes {
            last = change.limits(field, stamp).or(last);
        }
        last
    }
}
