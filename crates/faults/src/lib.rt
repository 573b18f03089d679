// What is wrong with a forecast, if anything: the first cell that has a fault, and which.
#![tactic(auto)]

ghost use Rattle.std.specs.Prelude.{◌≡◌, ◌≤◌, ◌<◌, length};
ghost use Rattle.slots.specs.Segments.{Segments};
ghost use Rattle.slots.specs.Shown.{Shows};
ghost use Rattle.forecast.specs.Faults.{marker_fault, fault_at, fault_of};

use cells::Cell;
use forecast::{Fault, Forecast};

// No marker, no segment and no count: what an unused cell is.
const ZERO_CELL: Cell = Cell {
    marker: 0,
    segment: 0,
    count: 0,
};

// What is wrong with cell `i` of a forecast, if anything.
fn fault_at(forecast: &Forecast, i: usize, p: usize, list: &[u64]) -> Result<(), Fault>
    requires { (i < 12) × (64 ≤ length list.now) }
    ensures { (ss : Segments) → Shows ss list.now → result ≡ fault_at p ss forecast.now i }
{
    let cell = forecast.cell(i);
    if forecast.used <= i {
        if cell == ZERO_CELL {
            return Ok(());
        }
        return Err(Fault::NotZero(i));
    }
    if cell.count < 1 || p < cell.count {
        return Err(Fault::Count(i));
    }
    if forecast.markers[..i].contains(&cell.marker) {
        return Err(Fault::Repeated(i));
    }
    marker_fault(cell, i, list)
}

// What is wrong with a used cell's marker or segment, if anything.
fn marker_fault(cell: Cell, i: usize, list: &[u64]) -> Result<(), Fault>
    requires { 64 ≤ length list.now }
    ensures { (ss : Segments) → Shows ss list.now → result ≡ marker_fault ss cell i }
{
    if cell.marker == 0 {
        if cell.segment == 0 {
            return Ok(());
        }
        return Err(Fault::Misplaced(i));
    }
    // The segment that the cell names first: most often the marker is there.
    if places::finding::stands_in(list, cell.segment, cell.marker) {
        return Ok(());
    }
    let place = places::finding::locate(list, cell.marker);
    if place.present {
        if cell.segment == place.segment {
            return Ok(());
        }
        return Err(Fault::Misplaced(i));
    }
    Err(Fault::NotLive(i))
}

// The first fault from the head. Of any forecast; the list is one that passed refusals 1 to 3.
pub fn fault_of(forecast: Forecast, p: usize, list: &[u64]) -> Result<(), Fault>
    ensures { (ss : Segments) → Shows ss list.now → 64 ≤ length list.now → result ≡ fault_of p ss forecast }
{
    if list.len() < 64 {
        return Ok(());
    }
    if p < forecast.used {
        return Err(Fault::TooMany);
    }
    for i in 0..12 {
        fault_at(&forecast, i, p, list)?;
    }
    Ok(())
}
