// What each answer tells in numbers, for C calls and programs: the paper's number, and its values (yes is 1, no is 0).
#![tactic(auto)]

ghost use Rattle.std.specs.Prelude.{◌≡◌};
ghost use Rattle.answers.specs.Answers.{lookup_paper, scan_paper, insert_paper, delete_paper};
ghost use Rattle.telling.specs.Told.{found_words, scanned_words, answer_words};

use answers::{DeleteAnswer, InsertAnswer, LookupAnswer, ScanAnswer};
use given::Told;

// Whether the key is live, its segment and its card.
pub fn lookup_told(answer: LookupAnswer) -> Told
    ensures { result ≡ found_words (lookup_paper answer) }
{
    match answer {
        Err(refusal) => Told::from(refusal),
        Ok(Some(entry)) => Told {
            first: 1,
            second: entry.segment as u64,
            third: u64::from(entry.card),
            ..Told::default()
        },
        Ok(None) => Told::default(),
    }
}

// The keys written, and whether more remain.
pub fn scan_told(answer: ScanAnswer) -> Told
    ensures { result ≡ scanned_words (scan_paper answer) }
{
    match answer {
        Err(refusal) => Told::from(refusal),
        Ok(written) => Told {
            first: written.keys as u64,
            second: u64::from(written.more),
            ..Told::default()
        },
    }
}

// The moves.
pub fn insert_told(answer: InsertAnswer) -> Told
    ensures { result ≡ answer_words (insert_paper answer) }
{
    match answer {
        Err(refusal) => Told::from(refusal),
        Ok(moves) => Told {
            first: moves,
            ..Told::default()
        },
    }
}

// The moves, and whether the list is sparse then.
pub fn delete_told(answer: DeleteAnswer) -> Told
    ensures { result ≡ answer_words (delete_paper answer) }
{
    match answer {
        Err(refusal) => Told::from(refusal),
        Ok(deleted) => Told {
            first: deleted.moves,
            second: u64::from(deleted.sparse),
            ..Told::default()
        },
    }
}
