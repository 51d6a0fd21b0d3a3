//! The program `ntpd`: an NTP server, by `serve FILE`, or for one datagram, by `once ADDR:PORT`; and a
//! rehearsal of server and query tool in one process, by `rehearse N`.
//!
//! Layer 7. Stands on: `rehearsal`, `setup`, `responders`, `worker`, `pilot`, `shared_book`, `giving`,
//! `server_core`, `associations`, `mru_read`, `recency`, `access_rules`, `conf_file`, `sys_vars`,
//! `mode6_frame`, `mac_keys`, `command_line`, `text_words`, `edge_traits`, `net_addr`, `fixed_time`.
//! Promises: `serve` runs the session of its configuration, and hands it back with its one history;
//! `once` gives the defined answer to one datagram and nothing else; `rehearse` does what its number
//! draws; each prints its lines, and each
//! status has its cause.
#![tactic(auto)]

mod command;
mod ending;
mod laws;
mod once;
mod outcome;
mod report;
mod serve;
#[cfg(test)]
mod tests;
mod usage;

use command::ntpd;
use edge_traits::{OpenGate, RealHost, StandardOutput};
use ending::{Ending, Failure};
use report::report;
use std::process::ExitCode;

fn main(rt: HostRuntime) -> ExitCode {
    let mut out = StandardOutput::new(rt);
    let status = match command_line::words(&rt) {
        Err(_) => report(&Ending::Failed(Failure::NoMemory), &mut out),
        Ok(words) => match command_line::notice_of(words.as_slice()) {
            Some(notice) => command_line::print(usage::text_of(notice), &mut out),
            None => ntpd(
                &rt,
                rt.alloc(),
                words.as_slice(),
                &mut RealHost::new(rt),
                &OpenGate,
                &mut out,
            )
            .status,
        },
    };
    ExitCode::from(status.0)
}
