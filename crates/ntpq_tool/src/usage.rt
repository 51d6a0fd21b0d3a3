ghost use Rattle.std.specs.Prelude.{◌≡◌};
ghost use Rattle.ntpq_tool.specs.Usage.{notice_text};

use command_line::Notice;

/// How to call it.
pub const HELP: &[u8] =
    b"usage: ntpq HOST rv [ASSOC [NAME ..]]  print variables of the system or an association
       ntpq HOST as                   print the associations and their status words
       ntpq HOST peers                print a line for each association
       ntpq HOST mrulist [OPTION ..]  print a line for each client of the server
       ntpq --help                    print this
       ntpq --version                 print the version
HOST is an address, as 127.0.0.1, ::1 or [::1]:123; without a port it is 123.
An OPTION of mrulist stands once at most, and is one of
  limit=N          the most clients of a page, 1 to 256
  frags=N          the most datagrams of a page, 1 to 128; else 32
  mincount=N       clients that arrived so often at least
  resall=0xFLAGS   clients that have all of these restrict flags
  resany=0xFLAGS   clients that have one of these restrict flags
";

/// Its version.
pub const VERSION: &[u8] = b"ntpq 0.1.0\n";

/// The text of a notice.
pub fn text_of(notice: Notice) -> &'static [u8]
    ensures { result.now ≡ notice_text notice }
{
    match notice {
        Notice::Help => HELP,
        Notice::Version => VERSION,
    }
}
