//! The devices that are played with: asked for an act at a time, and let go where nobody wants more.

ghost use Rattle.std.specs.Prelude.{◌≡◌, [], IfOk, map, slice_get, slice_set, slice_index_or, drop};
ghost use Rattle.board_core.specs.Played.{IsReport};
ghost use Rattle.board_play.specs.Tried.{after_asked, asked, left_or_none, lefts};

use board_plan::List;
use ras_device::{Act, ErrorDevice};
use ras_io::NoMemory;
use std::alloc::Global;

/// A place for each device, by number. `NoMemory` comes where no room was found for it.
pub(crate) fn placed<D: ErrorDevice>(
    alloc: Global,
    devices: Vec<D>,
) -> Result<Vec<Option<D>>, NoMemory>
    ensures { IfOk result (λ v. lefts D.left v.items ≡ map (λ d. (D.left d).acts) devices.items) }
{
    let mut places = List::new(alloc);
    for device in devices {
        places.push(Some(device))?;
    }
    Ok(places.into_vec())
}

/// Asks a device for its next act.
fn next<D: ErrorDevice>(place: &mut Option<D>) -> Option<Act>
    ensures act { result ≡ slice_get (left_or_none D.left place.old) 0 }
    ensures left { left_or_none D.left place.new ≡ drop 1 (left_or_none D.left place.old) }
    ensures report { IsReport result }
{
    match place {
        Some(device) => device.next(),
        None => None,
    }
}

/// Asks a device for one act where its reporter is wanted, and else lets it go.
fn ask_or_drop<D: ErrorDevice>(place: &mut Option<D>, wanted: bool) -> Option<Act>
    ensures act { result ≡ asked wanted (left_or_none D.left place.old) }
    ensures left { left_or_none D.left place.new ≡ after_asked wanted (left_or_none D.left place.old) }
    ensures report { IsReport result }
{
    if wanted {
        return next(place);
    }
    *place = None;
    None
}

/// Asks the device of this number for one act where its reporter is wanted, and else lets it go. None where the device
/// isn't there.
pub(crate) fn ask<D: ErrorDevice>(
    devices: &mut [Option<D>],
    number: u8,
    wanted: bool,
) -> Option<Act>
    ensures act { result ≡ asked wanted (slice_index_or (lefts D.left devices.old) number []) }
    ensures left { lefts D.left devices.new ≡ slice_set (lefts D.left devices.old) number
        (after_asked wanted (slice_index_or (lefts D.left devices.old) number [])) }
    ensures report { IsReport result }
{
    let at = number as usize;
    if at >= devices.len() {
        return None;
    }
    ask_or_drop(&mut devices[at], wanted)
}
