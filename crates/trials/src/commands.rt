// The commands. Each is 25 bytes: what is asked, and three numbers, high byte first.
ghost use Rattle.std.specs.Prelude.{◌≤◌, ◌+◌, length};

#[derive(Clone, Copy)]
pub enum Command {
    // An empty list, with so much lent from now on.
    Make {
        slots: usize,
        entries: usize,
        cards: usize,
    },
    Insert {
        key: u64,
        card: u32,
    },
    Delete {
        key: u64,
    },
    Lookup {
        key: u64,
    },
    // From a key on, into so many numbers and so many cards.
    Scan {
        from: u64,
        numbers: usize,
        cards: usize,
    },
    Check,
    Show,
    // A slot, card, entry of the table or cell, or the number of cells used, is overwritten.
    PutSlot {
        at: usize,
        key: u64,
    },
    PutCard {
        at: usize,
        card: u32,
    },
    PutEntry {
        at: usize,
        count: usize,
    },
    PutCell {
        at: usize,
        marker: u64,
        segment: u8,
        count: u8,
    },
    PutUsed {
        cells: usize,
    },
    // The profile from now on.
    Profile {
        number: u64,
    },
    // So many entries and cards are lent from now on.
    Beside {
        entries: usize,
        cards: usize,
    },
}

// The eight bytes from `a` on as a number, high byte first.
fn number_at(record: &[u8], a: usize) -> u64
    requires { a + 8 ≤ length record.now }
{
    let mut bytes = [0; 8];
    bytes.copy_from_slice(&record[a..a + 8]);
    u64::from_be_bytes(bytes)
}

// A number as a card: its low 32 bits.
fn card_of(x: u64) -> u32 {
    (x % 4294967296) as u32
}

// A number as a byte: 255 for all that is over it.
fn narrow(x: u64) -> u8 {
    u8::try_from(x).unwrap_or(255)
}

impl Command {
    // None where the first byte asks for nothing.
    pub fn read(record: &[u8; 25]) -> Option<Command> {
        let x = number_at(record, 1);
        let y = number_at(record, 9);
        let z = number_at(record, 17);
        match record[0] {
            1 => Some(Command::Make {
                slots: x as usize,
                entries: y as usize,
                cards: z as usize,
            }),
            2 => Some(Command::Insert {
                key: x,
                card: card_of(y),
            }),
            3 => Some(Command::Delete { key: x }),
            4 => Some(Command::Lookup { key: x }),
            5 => Some(Command::Scan {
                from: x,
                numbers: y as usize,
                cards: z as usize,
            }),
            6 => Some(Command::Check),
            7 => Some(Command::PutSlot {
                at: x as usize,
                key: y,
            }),
            8 => Some(Command::PutCell {
                at: x as usize,
                marker: y,
                segment: narrow(z >> 32),
                count: narrow(z & 0xffff_ffff),
            }),
            9 => Some(Command::PutUsed { cells: x as usize }),
            10 => Some(Command::Show),
            11 => Some(Command::Profile { number: x }),
            12 => Some(Command::PutEntry {
                at: x as usize,
                count: y as usize,
            }),
            13 => Some(Command::Beside {
                entries: x as usize,
                cards: y as usize,
            }),
            14 => Some(Command::PutCard {
                at: x as usize,
                card: card_of(y),
            }),
            _ => None,
        }
    }
}
