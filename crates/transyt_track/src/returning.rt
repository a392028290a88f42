//! All rows become a copy of others.

ghost use Rattle.std.specs.Prelude.{◌≡◌};
ghost use Rattle.transyt_sweep.specs.Reading.{Fits};
ghost use Rattle.transyt_sweep.specs.Front.{AreEvaluation};

use transyt_kept::Rows;
use transyt_net::Net;

/// All rows become those of an evaluation of the network. The rows of the mark stay.
pub(crate) fn copy_rows(net: &Net, from: &Rows, kept: &mut Rows)
    requires fits { Fits net.now kept.old.now }
    requires from { AreEvaluation net.now from.now.now }
    ensures rows { AreEvaluation net.now kept.new.now }
    ensures marked { kept.new.marked ≡ kept.old.marked }
{
    for sweep in 0..net.frame().sweeps + 1 {
        for link in 0..net.links().len() {
            kept.take_pair(sweep, link, from);
        }
    }
}
