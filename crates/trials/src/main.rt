// Works the commands of its standard input on one array, its cards, table and forecast, in one profile at a time, through the public calls, and
// writes what each answers.
#![tactic(auto)]

mod calling;
mod commands;
mod showing;

use calling::Lent;
use commands::Command;
use forecast::Forecast;
use std::io;
use std::io::{BufWriter, Write};

// How much is lent, in which profile, and the forecast.
#[derive(Clone, Copy)]
struct Room {
    profile: u64,
    slots: usize,
    cards: usize,
    entries: usize,
    forecast: Forecast,
}

impl Room {
    // What is lent from this command on.
    fn lending(mut self, command: Command) -> Room {
        match command {
            Command::Make {
                slots,
                entries,
                cards,
            } => {
                self.slots = slots;
                self.entries = entries;
                self.cards = cards;
            }
            Command::Profile { number } => self.profile = number,
            Command::Beside { entries, cards } => {
                self.entries = entries;
                self.cards = cards;
            }
            _ => {}
        }
        self
    }
}

// A command on what is lent then; ignored where there is not as much.
fn work(
    out: &mut impl Write,
    slots: &mut [u64],
    cards: &mut [u32],
    table: &mut [usize],
    room: Room,
    command: Command,
) -> io::Result<Room> {
    let mut then = room.lending(command);
    if slots.len() < then.slots || cards.len() < then.cards || table.len() < then.entries {
        return Ok(room);
    }
    let mut lent = Lent {
        profile: then.profile,
        list: &mut slots[..then.slots],
        cards: &mut cards[..then.cards],
        table: &mut table[..then.entries],
    };
    then.forecast = lent.work(out, then.forecast, command)?;
    Ok(then)
}

fn play(
    out: &mut impl Write,
    input: &[u8],
    slots: &mut [u64],
    cards: &mut [u32],
    table: &mut [usize],
) -> io::Result<()> {
    let mut room = Room {
        profile: 1,
        slots: 0,
        cards: 0,
        entries: 0,
        forecast: Forecast::empty(),
    };
    let (records, _) = input.as_chunks::<25>();
    for record in records {
        if let Some(command) = Command::read(record) {
            room = work(out, slots, cards, table, room, command)?;
        }
    }
    Ok(())
}

fn main(rt: HostRuntime) -> io::Result<()> {
    let mut out = BufWriter::new(rt.alloc(), io::writer(&rt))?;
    let mut input = inputs::large_buffer();
    let n = inputs::read_full(&mut rt.reader(), &mut input);
    let mut slots = [0u64; 8192];
    let mut cards = [0u32; 8192];
    let mut table = [0usize; 256];
    play(&mut out, &input[..n], &mut slots, &mut cards, &mut table)?;
    out.flush()
}
