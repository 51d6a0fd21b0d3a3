ghost use Rattle.std.specs.Prelude.{◌≡◌, ◌⊎◌, ◌+◌, ◌≤◌, List, ℕ, map, string_bytes, Result, Ok, Err, IsTrue};
ghost use Rattle.edge_traits.specs.Ports.{IsPortKept};
ghost use Rattle.edge_traits.specs.Told.{gained, Rose};
ghost use Rattle.mode6_frame.specs.declared.message.TheConstants.{HEAD_LEN, MAX_BODY};
ghost use Rattle.ntpq_client.specs.declared.client.TheConstants.{MAX_QUIETS};
ghost use Rattle.ntpq_client.specs.declared.fault.AskFault.{AskFault};
ghost use Rattle.ntpq_tool.specs.Command.{IsAskable, IsCommand, IsNoCommand};
ghost use Rattle.ntpq_tool.specs.Ending.{Reports};
ghost use Rattle.ntpq_tool.specs.Runs.{Behind, Happens, Ran};
ghost use Rattle.ntpq_tool.specs.declared.ending.Failure.{Failure};
ghost use Rattle.ntpq_tool.specs.declared.words.Command.{Command};

use crate::clients::list_clients;
use crate::ending::{Ending, Failure};
use crate::inquiries::{ask_associations, ask_variables};
use crate::peers::ask_peers;
use crate::report::report;
use crate::words::{Command, Wanted, read_command};
use edge_traits::{Port, Sink, Status};
use ntpq_client::Client;
use std::alloc::Global;

/// Reads the words, and runs their command.
fn run_words<P: Port>(alloc: Global, words: &[String], port: &mut P) -> Ending
    requires most { HEAD_LEN + MAX_BODY ≤ P.most port.old }
    ensures happens { Happens (map string_bytes words.now) result
        (P.trace port.old) (P.trace port.new) }
    ensures causes { Behind result (P.faults port.old) (P.faults port.new)
        (P.is_closed port.new) }
    ensures no_reply { result ≡ Err (Failure.Ask AskFault.NoReply)
        → Rose MAX_QUIETS (P.quiets port.old) (P.quiets port.new) }
    ensures kept { IsPortKept P.faults P.quiets P.address P.most port.old port.new }
{
    match read_command(alloc, words) {
        Err(_) => Err(Failure::NoMemory),
        Ok(None) => Err(Failure::Words),
        Ok(Some(command)) => run(alloc, command, port),
    }
}

/// Asks what is wanted of the server, and makes the report of the answers.
fn run<P: Port>(alloc: Global, command: Command, port: &mut P) -> Ending
    requires most { HEAD_LEN + MAX_BODY ≤ P.most port.old }
    requires askable { IsAskable command.what }
    ensures ran { Ran command.what command.server result (P.trace port.old) (P.trace port.new) }
    ensures causes { Behind result (P.faults port.old) (P.faults port.new)
        (P.is_closed port.new) }
    ensures no_reply { result ≡ Err (Failure.Ask AskFault.NoReply)
        → Rose MAX_QUIETS (P.quiets port.old) (P.quiets port.new) }
    ensures kept { IsPortKept P.faults P.quiets P.address P.most port.old port.new }
{
    let Command { server, what } = command;
    let mut client = Client::new(alloc, server);
    match what {
        Wanted::Variables { assoc, names } => {
            ask_variables(alloc, &mut client, assoc, names, port)
        }
        Wanted::Associations => ask_associations(alloc, &mut client, port),
        Wanted::Peers => ask_peers(alloc, &mut client, port),
        Wanted::Clients { query } => list_clients(alloc, &mut client, &query, port),
    }
}

/// The program, over any port and sink: the words that follow its name are its command.
///
/// `HOST rv`, `HOST rv A` and `HOST rv A NAME ..` ask for variables, `HOST as` for the
/// associations, `HOST peers` for a line of each, `HOST mrulist OPTION ..` for a line of each of the
/// server's clients. The report is written once all answers were
/// taken, and only then.
pub fn ntpq<P: Port, S: Sink>(alloc: Global, words: &[String], port: &mut P, out: &mut S) -> Status
    requires most { HEAD_LEN + MAX_BODY ≤ P.most port.old }

    // What happened at the port, and what the sink has: the report of the answers that were taken
    // there, or why there is none; or a front of it, where the sink failed.
    ensures happens { (ending : Result (List ℕ) Failure)
        × Happens (map string_bytes words.now) ending (P.trace port.old) (P.trace port.new)
        × Behind ending (P.faults port.old) (P.faults port.new) (P.is_closed port.new)
        × Reports ending result (S.contents out.old) (S.contents out.new) }
    ensures kept { IsPortKept P.faults P.quiets P.address P.most port.old port.new }

    // With status 0 the sink gained the report of the answers to the words' command.
    ensures answered { result.0 ≡ 0 → (command : Command) × (report : List ℕ)
        × IsCommand (map string_bytes words.now) command
        × Ran command.what command.server (Ok report) (P.trace port.old) (P.trace port.new)
        × (S.contents out.new ≡ gained (S.contents out.old) report) }

    // Causes that the words or the counts show.
    ensures words { result.0 ≡ 1 → IsNoCommand (map string_bytes words.now) }
    ensures no_command { IsNoCommand (map string_bytes words.now)
        → (P.trace port.new ≡ P.trace port.old)
        × ((result.0 ≡ 1) ⊎ ((result.0 ≡ 8) ⊎ (result.0 ≡ 9))) }
    ensures port_failed { result.0 ≡ 3 → Rose 1 (P.faults port.old) (P.faults port.new) }
    ensures no_reply { result.0 ≡ 4 → Rose MAX_QUIETS (P.quiets port.old) (P.quiets port.new) }
    ensures closed { result.0 ≡ 11 → IsTrue (P.is_closed port.new) }
    ensures sink_failed { result.0 ≡ 8 → Rose 1 (S.faults out.old) (S.faults out.new) }
    ensures sink_kept { S.faults out.old ≤ S.faults out.new }
{
    let ending = run_words(alloc, words, port);
    report(&ending, out)
}
