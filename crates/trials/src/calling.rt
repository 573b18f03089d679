// Each command, worked on what is lent; one that may change the forecast gives it as it is then.
use crate::commands::Command;
use crate::showing;
use forecast::Forecast;
use std::io;
use std::io::Write;

// The profile's number, the list's slots, the cards beside them and the table.
#[derive(Drop)]
pub struct Lent<'a> {
    pub profile: u64,
    pub list: &'a mut [u64],
    pub cards: &'a mut [u32],
    pub table: &'a mut [usize],
}

impl Lent<'_> {
    // A command, and the forecast then.
    pub fn work(
        &mut self,
        out: &mut impl Write,
        forecast: Forecast,
        command: Command,
    ) -> io::Result<Forecast> {
        match command {
            Command::Make { .. } => return self.make(out),
            Command::Insert { key, card } => return self.insert(out, forecast, key, card),
            Command::Delete { key } => return self.delete(out, forecast, key),
            Command::PutCell {
                at,
                marker,
                segment,
                count,
            } => return Ok(put_cell(forecast, at, marker, segment, count)),
            Command::PutUsed { cells } => return Ok(put_used(forecast, cells)),
            Command::Lookup { key } => self.lookup(out, key)?,
            Command::Scan {
                from,
                numbers,
                cards,
            } => self.scan(out, from, numbers, cards)?,
            Command::Check => self.check(out, forecast)?,
            Command::Show => self.show(out, forecast)?,
            Command::PutSlot { at, key } => put(&mut *self.list, at, key),
            Command::PutCard { at, card } => put(&mut *self.cards, at, card),
            Command::PutEntry { at, count } => put(&mut *self.table, at, count),
            Command::Profile { .. } | Command::Beside { .. } => {}
        }
        Ok(forecast)
    }

    fn make(&mut self, out: &mut impl Write) -> io::Result<Forecast> {
        let profile = self.profile;
        let (list, cards, table) = (&mut *self.list, &mut *self.cards, &mut *self.table);
        let reply = list::calls::make(profile, list, cards, table);
        showing::line(out, "make", words::numbers::verdict_number(reply.answer), 0)?;
        Ok(reply.forecast)
    }

    fn insert(
        &mut self,
        out: &mut impl Write,
        forecast: Forecast,
        key: u64,
        card: u32,
    ) -> io::Result<Forecast> {
        let profile = self.profile;
        let (list, cards, table) = (&mut *self.list, &mut *self.cards, &mut *self.table);
        let reply = list::changing::insert(profile, list, cards, table, forecast, key, card);
        showing::told(out, "insert", telling::insert_told(reply.answer))?;
        Ok(reply.forecast)
    }

    fn delete(
        &mut self,
        out: &mut impl Write,
        forecast: Forecast,
        key: u64,
    ) -> io::Result<Forecast> {
        let profile = self.profile;
        let (list, cards, table) = (&mut *self.list, &mut *self.cards, &mut *self.table);
        let reply = list::changing::delete(profile, list, cards, table, forecast, key);
        showing::told(out, "delete", telling::delete_told(reply.answer))?;
        Ok(reply.forecast)
    }

    fn lookup(&self, out: &mut impl Write, key: u64) -> io::Result<()> {
        let profile = self.profile;
        let answer = list::calls::lookup(profile, self.list, self.cards, self.table, key);
        showing::told(out, "lookup", telling::lookup_told(answer))
    }

    // Into the first of 64 numbers, all 7 before, and of 64 cards, all 9 before; and what all hold then.
    fn scan(
        &self,
        out: &mut impl Write,
        from: u64,
        numbers: usize,
        cards: usize,
    ) -> io::Result<()> {
        let mut output = [7u64; 64];
        let mut beside = [9u32; 64];
        if output.len() < numbers || beside.len() < cards {
            return Ok(());
        }
        let profile = self.profile;
        let answer = list::calls::scan(
            profile,
            self.list,
            self.cards,
            self.table,
            from,
            &mut output[..numbers],
            &mut beside[..cards],
        );
        showing::told(out, "scan", telling::scan_told(answer))?;
        showing::line(
            out,
            "output",
            showing::sum_of(&output),
            showing::sum_of(&beside),
        )
    }

    fn check(&self, out: &mut impl Write, forecast: Forecast) -> io::Result<()> {
        let profile = self.profile;
        let answer = list::calls::check(profile, self.list, self.cards, self.table, forecast);
        showing::line(out, "check", words::numbers::verdict_number(answer), 0)
    }

    // What is lent, as it stands.
    fn show(&self, out: &mut impl Write, forecast: Forecast) -> io::Result<()> {
        showing::show_counts(out, self.list)?;
        showing::show_cells(out, forecast)?;
        showing::line(
            out,
            "slots",
            showing::sum_of(self.list),
            showing::sum_of(self.cards),
        )?;
        showing::show_table(out, self.table)
    }
}

fn put<T: Copy>(items: &mut [T], at: usize, item: T) {
    if at < items.len() {
        items[at] = item;
    }
}

fn put_cell(mut forecast: Forecast, at: usize, marker: u64, segment: u8, count: u8) -> Forecast {
    if at < 12 {
        forecast.markers[at] = marker;
        forecast.segments[at] = segment;
        forecast.counts[at] = count;
    }
    forecast
}

fn put_used(mut forecast: Forecast, cells: usize) -> Forecast {
    forecast.used = cells;
    forecast
}
