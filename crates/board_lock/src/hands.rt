//! What the worker of a reporter has at hand: the acts that its device gave, and the device.

ghost use Rattle.std.specs.Prelude.{◌≤◌, length, vec_capacity};
ghost use Rattle.ras_device.specs.Acts.{HasReports};

use ras_device::Act;

/// What the worker of a reporter has at hand: its device, the acts that the device gave, with room for as many as it
/// may give, and how many of them were handed on.
#[derive(Drop)]
pub(crate) struct Hands<D> {
    pub(crate) reporter: u8,
    pub(crate) device: Option<D>,
    pub(crate) given: Vec<Act>,
    pub(crate) handed: usize,
    pub(crate) limit: u16,
    ghost handed_few: { handed ≤ length given.items },
    ghost all_fit: { limit ≤ vec_capacity given },
    ghost reports: { HasReports given.items },
}
