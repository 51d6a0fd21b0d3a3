ghost use Rattle.std.specs.Prelude.{◌≡◌};
ghost use Rattle.conf_file.specs.Servers.{words_of_server};

use access_rules::ServerLine;
use std::marker::Model;

/// A server as a line names it.
#[derive(Drop)]
pub struct Server {
    line: ServerLine,
}

impl Model for Server {
    ghost use Rattle.conf_file.specs.Servers.{ServerWords, words_of_server};

    ghost Value = { ServerWords };

    ghost view = { λ s. words_of_server s.line };
}

impl Server {
    /// The server of a line.
    pub fn of_line(line: ServerLine) -> Server
        ensures { result ≡ words_of_server line }
    {
        Server { line }
    }

    /// The line itself.
    pub fn into_line(self) -> ServerLine
        ensures { words_of_server result ≡ self }
    {
        self.line
    }
}
