// Makes a list of height 2 in profile 1, works at most 65,536 bytes of request records from standard input on it, and writes the keys now live, the
// run's moves, the sweeps made and the stop number; then each segment's number and key count, a line each. Further input stays unread.
#![tactic(auto)]

use rules::Totals;
use std::io;
use std::io::{BufWriter, Write};

fn main(rt: HostRuntime) -> io::Result<()> {
    let mut out = BufWriter::new(rt.alloc(), io::writer(&rt))?;
    let mut input = inputs::large_buffer();
    let n = inputs::read_full(&mut rt.reader(), &mut input);
    let mut slots = [0u64; 256];
    let mut cards = [0u32; 256];
    let mut table = [0usize; 7];
    let made = list::calls::make(1, &mut slots, &mut cards, &mut table);
    let totals = Totals {
        worked: 0,
        refused: 0,
        moved: 0,
        sweeps: 0,
    };
    let reply = run::running::run_with(
        1,
        &mut slots,
        &mut cards,
        &mut table,
        made.forecast,
        &input[..n],
        1000000,
        totals,
    )
    .reply;
    writeln!(
        out,
        "keys {} moved {} swept {} stop {}",
        table[6],
        reply.tally.moves,
        reply.tally.sweeps,
        words::numbers::verdict_number(reply.stop)
    )?;
    for (at, keys) in table[..4].iter().enumerate() {
        writeln!(out, "{at} {keys}")?;
    }
    out.flush()
}
