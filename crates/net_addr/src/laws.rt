ghost use Rattle.std.specs.Prelude.{◌≡◌, ◌↔◌, List, Some, ℕ};
ghost use Rattle.net_addr.specs.Readings.{addr_in};
ghost use Rattle.net_addr.specs.Spelling.{IsAddr, Spells, text_of};
ghost use Rattle.net_addr.specs.declared.addr.Addr.{Addr};

use crate::addr::Addr;
use crate::addr_text::write_text;

/// An address is read from a text exactly where the text spells it, whatever the text and the
/// address.
pub fn an_address_is_read_where_it_is_spelled()
    ghost given: { record { text : List ℕ; address : Addr } }
    ensures { (addr_in given.text ≡ Some given.address)
        ↔ (IsAddr given.address × Spells given.text given.address) }
{}

/// What is written of an address is read as that address.
pub fn written_addresses_are_read_back(a: &Addr)
    ensures { addr_in (text_of a.now) ≡ Some a.now }
{
    write_text(a);
}
