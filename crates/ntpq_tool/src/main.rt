//! The program `ntpq`: it asks an NTP server of its state by control messages, and prints the
//! answers.
//!
//! Layer 7. Stands on: `ntpq_report`, `mrulist_run`, `mrulist_reader`, `ntpq_client`, `mru_items`,
//! `mode6_frame`, `text_words`, `command_line`, `edge_traits`, `net_addr`.
//! Promises: exactly the requests of the command are sent; a report is printed of the answers to
//! them, and only where all were taken; a report of clients is that of a listing that ran; each
//! status has its cause.
#![tactic(auto)]

mod answers;
mod clients;
mod command;
mod ending;
mod inquiries;
mod masks;
mod options;
mod peers;
mod report;
mod requests;
#[cfg(test)]
mod tests;
mod usage;
mod words;

use command::ntpq;
use edge_traits::{StandardOutput, UdpAny};
use ending::Failure;
use report::report;
use std::process::ExitCode;

fn main(rt: HostRuntime) -> ExitCode {
    let mut out = StandardOutput::new(rt);
    let status = match command_line::words(&rt) {
        Err(_) => report(&Err(Failure::NoMemory), &mut out),
        Ok(words) => match command_line::notice_of(words.as_slice()) {
            Some(notice) => command_line::print(usage::text_of(notice), &mut out),
            None => ntpq(rt.alloc(), words.as_slice(), &mut UdpAny::new(rt), &mut out),
        },
    };
    ExitCode::from(status.0)
}
