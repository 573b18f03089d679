// What the program writes: a line for an answer, and what slots, cards, cells and table hold.
use forecast::Forecast;
use given::Told;
use std::io;
use std::io::Write;

// A line of a word and two numbers.
pub fn line(out: &mut impl Write, word: &str, a: u64, b: u64) -> io::Result<()> {
    writeln!(out, "{word} {a} {b}")
}

// An answer's number and the three values that come with it.
pub fn told(out: &mut impl Write, word: &str, answer: Told) -> io::Result<()> {
    writeln!(
        out,
        "{word} {} {} {} {}",
        answer.number, answer.first, answer.second, answer.third
    )
}

// What slots or cards hold, as one number.
pub fn sum_of<T: Copy + Into<u64>>(items: &[T]) -> u64 {
    let mut sum: u64 = 0;
    for &x in items {
        sum = (sum * 31 + x.into() % 1000003) % 1000003;
    }
    sum
}

// The keys of each segment.
pub fn show_counts(out: &mut impl Write, slots: &[u64]) -> io::Result<()> {
    write!(out, "counts")?;
    for segment in slots.chunks_exact(64) {
        write!(out, " {}", places::counting::count_keys(segment))?;
    }
    writeln!(out)
}

// The cells.
pub fn show_cells(out: &mut impl Write, forecast: Forecast) -> io::Result<()> {
    write!(out, "cells {}", forecast.used)?;
    for i in 0..12 {
        let cell = forecast.cell(i);
        write!(out, " {} {} {}", cell.marker, cell.segment, cell.count)?;
    }
    writeln!(out)
}

// The entries of the table.
pub fn show_table(out: &mut impl Write, table: &[usize]) -> io::Result<()> {
    write!(out, "table")?;
    for &count in table {
        write!(out, " {count}")?;
    }
    writeln!(out)
}
