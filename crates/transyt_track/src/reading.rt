//! Whether what a link reads differs: its feeders and the link to which it gives way, by their flags.

ghost use Rattle.std.specs.Prelude.{◌≡◌, ◌<◌, length, All};
ghost use Rattle.std.specs.List.{list_any};
ghost use Rattle.transyt_track.specs.Due.{is_due};
ghost use Rattle.transyt_track.specs.Change.{IsFront};
ghost use Rattle.transyt_track.specs.Front.{flag};

use crate::change::{Front, Pair};

/// Whether the flag of one of these is up. The loop ends at the first, so it isn't unrolled: a link reads few others.
pub(crate) fn any_changed(changed: &[bool], places: &[usize]) -> bool
    requires { All (λ p. p < length changed.now) places.now }
    ensures { result ≡ list_any (flag changed.now) places.now }
{
    for place in places {
        if changed[*place] {
            return true;
        }
    }
    false
}

/// Whether the pair at the front is due: its link's own data differ, or departures that it reads.
pub(crate) fn is_due(pair: &Pair<'_, '_>, front: &Front) -> bool
    requires { IsFront pair.now.change.now pair.now.sweep pair.now.link front.now }
    ensures { result ≡ is_due pair.now.change.now.before.now pair.now.change.now.after.now
        pair.now.sweep
        pair.now.link }
{
    let places = pair.change.link(pair.link).places;
    any_changed(&front.out_changed, places.read()) || front.own_changed[pair.link]
}
