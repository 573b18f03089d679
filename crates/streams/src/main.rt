// Works the request streams of data/ through the run, in either profile and in none, on lists of 256 slots made empty, and writes for each its
// name, the reply, the four totals, what was added to them, the number that a check gives of what it left, the table and the cards then.
#![tactic(auto)]

use forecast::Forecast;
use rules::Totals;
use std::fs::File;
use std::io;
use std::io::{BufWriter, Write};
use std::rt::Files;

// A stream of data/, and the profile's number and the allowance that it is worked with.
#[derive(Clone, Copy)]
struct Stream<'a> {
    name: &'a str,
    profile: u64,
    allowance: u64,
}

impl<'a> Stream<'a> {
    fn new(name: &'a str, profile: u64, allowance: u64) -> Stream<'a> {
        Stream {
            name,
            profile,
            allowance,
        }
    }
}

// What is lent: a list's slots, the cards beside them, the table and the forecast.
#[derive(Drop)]
struct Lent<'a> {
    list: &'a mut [u64],
    cards: &'a mut [u32],
    table: &'a mut [usize],
    forecast: Forecast,
}

impl<'a> Lent<'a> {
    fn new(
        list: &'a mut [u64],
        cards: &'a mut [u32],
        table: &'a mut [usize],
        forecast: Forecast,
    ) -> Lent<'a> {
        Lent {
            list,
            cards,
            table,
            forecast,
        }
    }
}

fn four(out: &mut impl Write, name: &str, totals: Totals) -> io::Result<()> {
    write!(
        out,
        " {name} {} {} {} {}",
        totals.worked, totals.refused, totals.moved, totals.sweeps
    )
}

// What the cards hold, as one number. As in `trials`: the programs share no crate that sums.
fn sum_of(cards: &[u32]) -> u64 {
    let mut sum: u64 = 0;
    for &card in cards {
        sum = (sum * 31 + u64::from(card) % 1000003) % 1000003;
    }
    sum
}

// The number that a check gives of what was left, the table and the cards.
fn left(out: &mut impl Write, check: u64, table: &[usize], cards: &[u32]) -> io::Result<()> {
    write!(out, " check {check} table")?;
    for &count in table {
        write!(out, " {count}")?;
    }
    writeln!(out, " cards {}", sum_of(cards))
}

// Works one stream and hands the forecast back.
fn work(rt: &impl Files, out: &mut impl Write, stream: Stream, lent: Lent) -> io::Result<Forecast> {
    let mut input = inputs::large_buffer();
    let n = inputs::read_full(&mut File::open(rt, stream.name)?, &mut input);
    let before = Totals {
        worked: 4294967295,
        refused: 0,
        moved: 4294967290,
        sweeps: 0,
    };
    let Lent {
        list,
        cards,
        table,
        forecast,
    } = lent;
    let done = run::running::run_with(
        stream.profile,
        list,
        cards,
        table,
        forecast,
        &input[..n],
        stream.allowance,
        before,
    );
    let forecast = done.reply.forecast;
    let answer = list::calls::check(stream.profile, list, cards, table, forecast);
    let tally = done.reply.tally;
    write!(
        out,
        "{} worked {} refused {} moves {} stop {} place {}",
        stream.name,
        tally.worked,
        tally.refused,
        tally.moves,
        words::numbers::verdict_number(done.reply.stop),
        tally.place
    )?;
    four(out, "totals", done.totals)?;
    four(out, "added", run::totals::difference(done.totals, before))?;
    left(out, words::numbers::verdict_number(answer), table, cards)?;
    Ok(forecast)
}

// A stream on a list of its own, made empty.
fn fresh(rt: &impl Files, out: &mut impl Write, stream: Stream) -> io::Result<()> {
    let mut slots = [0; 256];
    let mut cards = [0; 256];
    let mut table = [0; 7];
    let made = list::calls::make(stream.profile, &mut slots, &mut cards, &mut table);
    let lent = Lent::new(&mut slots, &mut cards, &mut table, made.forecast);
    work(rt, out, stream, lent)?;
    Ok(())
}

fn apart(rt: &impl Files, out: &mut impl Write) -> io::Result<()> {
    let streams = [
        Stream::new("empty", 1, 1000),
        Stream::new("short", 1, 1000),
        Stream::new("mark", 1, 1000),
        Stream::new("kind", 1, 1000),
        Stream::new("refused", 1, 1000000),
        Stream::new("moving", 1, 55),
        Stream::new("moving", 1, 54),
        Stream::new("moving", 2, 1000),
        Stream::new("cards", 1, 1000),
        Stream::new("cut", 1, 1000),
        Stream::new("swept", 1, 1000),
    ];
    for stream in streams {
        fresh(rt, out, stream)?;
    }
    Ok(())
}

// Several on one list, one after the other; then with a table too short, too few cards, too few slots, and a card in a gap.
fn together(rt: &impl Files, out: &mut impl Write) -> io::Result<()> {
    let mut slots = [0; 256];
    let mut cards = [0; 256];
    let mut table = [0; 7];
    let mut forecast = list::calls::make(1, &mut slots, &mut cards, &mut table).forecast;
    for name in ["moving", "again", "cards"] {
        let lent = Lent::new(&mut slots, &mut cards, &mut table, forecast);
        forecast = work(rt, out, Stream::new(name, 1, 1000), lent)?;
    }
    for profile in [1, 3] {
        let lent = Lent::new(&mut slots, &mut cards, &mut table, forecast);
        work(rt, out, Stream::new("empty", profile, 0), lent)?;
    }
    let moving = Stream::new("moving", 1, 1000);
    let mut short = [0; 6];
    let lent = Lent::new(&mut slots, &mut cards, &mut short, forecast);
    work(rt, out, moving, lent)?;
    let mut few = [0; 255];
    let lent = Lent::new(&mut slots, &mut few, &mut table, forecast);
    work(rt, out, moving, lent)?;
    let mut wrong = [0; 255];
    let lent = Lent::new(&mut wrong, &mut cards, &mut table, forecast);
    work(rt, out, moving, lent)?;
    cards[255] = 7;
    let lent = Lent::new(&mut slots, &mut cards, &mut table, forecast);
    work(rt, out, moving, lent)?;
    Ok(())
}

fn main(rt: HostRuntime) -> io::Result<()> {
    let mut out = BufWriter::new(rt.alloc(), io::writer(&rt))?;
    apart(&rt, &mut out)?;
    together(&rt, &mut out)?;
    out.flush()
}
