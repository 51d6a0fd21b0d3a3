ghost use Rattle.std.specs.Prelude.{◌≡◌, ◌≢◌, ◌≤◌, ◌<◌, ℕ, List, Some, MatchOption, map, length, slice_get};
ghost use Rattle.std.specs.Option.{option_copied};
ghost use Rattle.sys_vars.specs.Names.{name_of, names_of, system_names, peer_names, texts_of};

/// The number of no variable.
pub const UNKNOWN_NAME: u8 = 255;

/// The names of the system variables; each stands at its number.
const SYSTEM_NAMES: [&str; 16] = [
    "version",
    "leap",
    "stratum",
    "precision",
    "rootdelay",
    "rootdisp",
    "refid",
    "reftime",
    "peer",
    "tc",
    "mintc",
    "offset",
    "frequency",
    "sys_jitter",
    "state",
    "epoch",
];

/// The names of the variables of a peer; each stands at its number.
const PEER_NAMES: [&str; 23] = [
    "srcadr",
    "srcport",
    "hmode",
    "pmode",
    "hpoll",
    "ppoll",
    "leap",
    "stratum",
    "precision",
    "rootdelay",
    "rootdisp",
    "refid",
    "reftime",
    "rec",
    "reach",
    "keyid",
    "offset",
    "delay",
    "dispersion",
    "jitter",
    "filtdelay",
    "filtoffset",
    "filtdisp",
];

/// The number of the variable of this name, or that of none. Association 0 is the system, any
/// other a peer.
pub fn name_number(assoc: u16, name: &[u8]) -> u8
    ensures known { result ≢ UNKNOWN_NAME → name_of assoc result ≡ Some name.now }
    ensures only { (number : ℕ) → name_of assoc number ≡ Some name.now → result ≡ number }
{
    match place_of(names_of(assoc), name) {
        Some(place) => place as u8,
        None => UNKNOWN_NAME,
    }
}

/// The names of the variables of an association; each stands at its number.
fn names_of(assoc: u16) -> &'static [&'static str]
    ensures names { texts_of result.now ≡ names_of assoc }
    ensures few { length result.now ≤ 23 }
{
    if assoc == 0 {
        system_names()
    } else {
        peer_names()
    }
}

/// The names of the system variables; each stands at its number.
#[tactic(auto, unfolding(crate::specs::Names::system_names))]
pub(crate) fn system_names() -> &'static [&'static str]
    ensures names { texts_of result.now ≡ system_names }
    ensures few { length result.now ≤ 23 }
{
    SYSTEM_NAMES.as_slice()
}

/// The names of the variables of a peer; each stands at its number.
#[tactic(auto, unfolding(crate::specs::Names::peer_names))]
pub(crate) fn peer_names() -> &'static [&'static str]
    ensures names { texts_of result.now ≡ peer_names }
    ensures few { length result.now ≤ 23 }
{
    PEER_NAMES.as_slice()
}

/// The place of a name among names.
fn place_of(names: &[&str], name: &[u8]) -> Option<usize>
    ensures { MatchOption result
        ((place : ℕ) → slice_get (texts_of names.now) place ≢ Some name.now)
        (λ place. slice_get (texts_of names.now) place ≡ Some name.now) }
{
    for place in 0..names.len() {
        if names[place].as_bytes() == name {
            return Some(place);
        }
    }
    None
}
