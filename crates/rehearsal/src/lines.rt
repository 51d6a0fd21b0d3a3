ghost use Rattle.std.specs.Prelude.{◌≡◌, ◌+◌, ◌≤◌, ◌++◌, decimal, length};
ghost use Rattle.rehearsal.specs.Lines.{counts_line, fault_line, first_line, link_line, listing_line, rehearsal_lines, threads_line};

use crate::rehearsing::Rehearsed;
use drawn_session::Counts;
use edge_traits::{Octets, Status};
use itoa::Buffer;
use mrulist_run::{Listing, RunFault, run_status};

/// What is printed of a rehearsal of this number.
pub(crate) fn rehearsal_lines(number: u64, rehearsed: &Rehearsed) -> Octets
    ensures { result ≡ rehearsal_lines number rehearsed.now }
{
    let mut lines = first_line(number);
    lines.put(counts_line(rehearsed.session.counts).as_slice());
    lines.put(link_line(rehearsed.link.given, &rehearsed.link.result).as_slice());
    lines
}

/// The line of the number.
fn first_line(number: u64) -> Octets
    ensures line { result ≡ first_line number }
    ensures short { length result ≤ 100 }
{
    let mut line = Octets::new();
    put_numbered(&mut line, b"rehearsal ", number);
    line.push(b'\n');
    line
}

/// The line of a session in which so much was done.
fn counts_line(counts: Counts) -> Octets
    ensures line { result ≡ counts_line counts }
    ensures short { length result ≤ 200 }
{
    threads_line(counts.times, counts.controls, counts.silent, counts.clients)
}

/// The line of a session, by its four counts.
fn threads_line(times: u64, controls: u64, silent: u64, clients: u64) -> Octets
    ensures line { result ≡ threads_line times controls silent clients }
    ensures short { length result ≤ 200 }
{
    let mut line = Octets::new();
    put_numbered(&mut line, b"threads times ", times);
    put_numbered(&mut line, b" variables ", controls);
    put_numbered(&mut line, b" silent ", silent);
    put_numbered(&mut line, b" clients ", clients);
    line.push(b'\n');
    line
}

/// The line of the listing, for which so many requests were given.
fn link_line(given: u64, listed: &Result<Listing, RunFault>) -> Octets
    ensures line { result ≡ link_line given listed.now }
    ensures short { length result ≤ 200 }
{
    match listed {
        Ok(listing) => {
            let rows = listing.rows.len() as u64;
            listing_line(given, listing.pages, listing.refused, rows)
        }
        Err(fault) => fault_line(run_status(fault)),
    }
}

/// The line of a listing that completed.
fn listing_line(given: u64, pages: u32, refused: u32, rows: u64) -> Octets
    ensures line { result ≡ listing_line given pages refused rows }
    ensures short { length result ≤ 200 }
{
    let mut line = Octets::new();
    put_numbered(&mut line, b"link requests ", given);
    put_numbered(&mut line, b" pages ", u64::from(pages));
    put_numbered(&mut line, b" refused ", u64::from(refused));
    put_numbered(&mut line, b" rows ", rows);
    line.push(b'\n');
    line
}

/// The line of a listing for whose fault a query tool gives this exit status.
fn fault_line(status: Status) -> Octets
    ensures line { result ≡ fault_line status.0 }
    ensures short { length result ≤ 200 }
{
    let mut line = Octets::new();
    put_numbered(&mut line, b"link ended ", u64::from(status.0));
    line.push(b'\n');
    line
}

/// Appends a word and a decimal number.
fn put_numbered(line: &mut Octets, word: &[u8], number: u64)
    requires line { length line.old ≤ 300 }
    requires word { length word.now ≤ 16 }
    ensures text { line.new ≡ line.old ++ word.now ++ decimal number }
    ensures short { length line.new ≤ length line.old + length word.now + 20 }
{
    let mut digits = Buffer::new();
    line.put(word);
    line.put(digits.format(number).as_bytes());
}
