//! A worker for each hart and reporter of a plan.

ghost use Rattle.std.specs.Prelude.{◌≡◌, ◌+◌, ◌<◌, ◌++◌, IfOk, OnOk, Some, length, map};
ghost use Rattle.std.specs.List.{range_with_len};
ghost use Rattle.board_plan.specs.Plans.{IsPlan};
ghost use Rattle.board_lock.specs.Hand.{hart_hand, rewound};
ghost use Rattle.board_lock.specs.Hiring.{device_acts, hand_for, hired, left_in, reporter_hand, without_device};
ghost use Rattle.board_lock.specs.Views.{left_or_none};
ghost use Rattle.board_lock.specs.Workers.{hand_of};

use crate::worker::Worker;
use board_plan::{List, Plan, Reporter};
use ras_device::ErrorDevice;
use ras_io::NoMemory;
use std::alloc::Global;

/// The devices in their order, each to be taken once. `NoMemory` comes where no room was found for them.
fn shelf_of<D: ErrorDevice>(alloc: Global, devices: Vec<D>) -> Result<Vec<Option<D>>, NoMemory>
    ensures { IfOk result (λ shelf. map (left_or_none D.left) shelf.items ≡ left_in D.left devices.items) }
{
    let mut shelf = List::new(alloc);
    for device in devices {
        shelf.push(Some(device))?;
    }
    Ok(shelf.into_vec())
}

/// Takes the device that a reporter names off the shelf. None where it names none, or one that isn't there.
fn take<D: ErrorDevice>(shelf: &mut [Option<D>], device: Option<u8>) -> Option<D>
    ensures got { left_or_none D.left result ≡ device_acts (map (left_or_none D.left) shelf.old) device }
    ensures shelf { map (left_or_none D.left) shelf.new
        ≡ without_device (map (left_or_none D.left) shelf.old) device }
{
    let Some(number) = device else {
        return None;
    };
    let place = usize::from(number);
    if place >= shelf.len() {
        return None;
    }
    shelf[place].take()
}

/// The workers of so many harts.
fn hire_harts<D: ErrorDevice>(alloc: Global, harts: u8) -> Result<List<Worker<D>>, NoMemory>
    ensures { IfOk result (λ l. map (hand_of D.left) l ≡ map hart_hand (range_with_len 0 harts)) }
{
    let mut workers = List::new(alloc);
    for hart in 0..harts {
        workers.push(Worker::hart(hart))?;
    }
    Ok(workers)
}

/// The worker of a reporter, with its device.
fn hire_reporter<D: ErrorDevice>(
    alloc: Global,
    harts: u8,
    number: u8,
    reporter: &Reporter,
    shelf: &mut [Option<D>],
) -> Result<Worker<D>, NoMemory>
    requires { harts + number < 256 }
    ensures hand { IfOk result (λ w. hand_of D.left w
        ≡ hand_for (map (left_or_none D.left) shelf.old) number (Some reporter.now)) }
    ensures shelf { map (left_or_none D.left) shelf.new
        ≡ without_device (map (left_or_none D.left) shelf.old) reporter.now.device }
{
    let device = take(shelf, reporter.device);
    Worker::reporter(alloc, harts, number, device, reporter.limit)
}

/// The workers of all reporters, behind those that are there.
fn hire_reporters<D: ErrorDevice>(
    alloc: Global,
    plan: &Plan,
    shelf: &mut [Option<D>],
    workers: &mut List<Worker<D>>,
) -> Result<(), NoMemory>
    requires { IsPlan plan.now }
    ensures { OnOk result (map (hand_of D.left) workers.new ≡ map (hand_of D.left) workers.old
        ++ map (reporter_hand plan.now (map (left_or_none D.left) shelf.old))
        (range_with_len 0 (length plan.now.reporters))) }
{
    let reporters = plan.reporters.as_slice();
    for number in 0..reporters.len() {
        let worker = hire_reporter(alloc, plan.harts, number as u8, &reporters[number], shelf)?;
        workers.push(worker)?;
    }
    Ok(())
}

/// A worker for each hart and then one for each reporter of a plan, each with its device and the plan's limit. It takes
/// all memory that they need; `NoMemory` comes only where no room was found.
pub fn hire<D: ErrorDevice>(
    alloc: Global,
    plan: &Plan,
    devices: Vec<D>,
) -> Result<Vec<Worker<D>>, NoMemory>
    requires { IsPlan plan.now }
    ensures { IfOk result (λ v. map (hand_of D.left) v.items ≡ hired plan.now (left_in D.left devices.items)) }
{
    let mut shelf = shelf_of(alloc, devices)?;
    let mut workers = hire_harts(alloc, plan.harts)?;
    hire_reporters(alloc, plan, shelf.as_mut_slice(), &mut workers)?;
    Ok(workers.into_vec())
}

/// Rewinds all workers: no given act counts as handed on any more.
pub fn rewind_all<D: ErrorDevice>(workers: &mut [Worker<D>])
    ensures { map (hand_of D.left) workers.new ≡ map rewound (map (hand_of D.left) workers.old) }
{
    for place in 0..workers.len() {
        workers[place].rewind();
    }
}
