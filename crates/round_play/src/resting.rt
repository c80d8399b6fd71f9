ghost use Rattle.std.specs.Prelude.{◌≡◌, true, false};
ghost use Rattle.disk_model.specs.Disk.{Stays};
ghost use Rattle.disk_model.specs.Stopping.{stopping_medium, stopping_state_of};
ghost use Rattle.replay_laws.specs.Stopped.{IsStop};
ghost use Rattle.round_play.specs.Restarting.{IsBegunAgain, IsDisarmed, armed_with};

use disk_model::{MemDisk, Stopping};
use schedule_file::Stop;

/// Arms the stop, if one is set.
pub fn arm(stop: Option<Stop>, disk: &mut Stopping<MemDisk>)
    requires goes { (stopping_state_of disk.old).stopped ≡ false }
    requires stop { IsStop stop }
    ensures state { stopping_state_of disk.new ≡ armed_with stop (stopping_state_of disk.old) }
    ensures stays { Stays stopping_medium disk.old disk.new }
{
    if let Some(stop) = stop {
        disk.arm(stop.change, stop.pick);
    }
}

/// Takes a stop back that did not come, or begins the disk again where it came.
pub fn rest(disk: &mut Stopping<MemDisk>)
    ensures went_on { (stopping_state_of disk.old).stopped ≡ false → IsDisarmed disk.old disk.new }
    ensures stopped { (stopping_state_of disk.old).stopped ≡ true → IsBegunAgain disk.old disk.new }
{
    if disk.stopped() {
        disk.restart();
    } else {
        disk.disarm();
    }
}
