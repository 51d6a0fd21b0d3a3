ghost use Rattle.std.specs.Prelude.{◌≡◌};
ghost use Rattle.ntpd_serve.specs.Usage.{notice_text};

use command_line::Notice;

/// How to call it.
pub const HELP: &[u8] = b"usage: ntpd serve FILE        serve as this configuration file says
       ntpd once ADDR:PORT    serve one datagram at that address, as 127.0.0.1:123 or [::1]:123
       ntpd rehearse N        serve and list in this process, as the number N draws it
       ntpd --help            print this
       ntpd --version         print the version
";

/// Its version.
pub const VERSION: &[u8] = b"ntpd 0.1.0\n";

/// The text of a notice.
pub fn text_of(notice: Notice) -> &'static [u8]
    ensures { result.now ≡ notice_text notice }
{
    match notice {
        Notice::Help => HELP,
        Notice::Version => VERSION,
    }
}
