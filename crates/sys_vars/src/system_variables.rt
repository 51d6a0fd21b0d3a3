ghost use Rattle.std.specs.Prelude.{◌≡◌, ◌≤◌, ◌<◌, [], IfOk, length, slice_index_or};
ghost use Rattle.sys_vars.specs.Names.{system_names};
ghost use Rattle.sys_vars.specs.Texts.{state_number};
ghost use Rattle.sys_vars.specs.Variables.{IsPlainValue, system_texts};
ghost use Rattle.discipline.specs.declared.state.State.{State};

use crate::number_text::{
    fixed, integer, milliseconds, natural, parts_per_million, signed_milliseconds, stamp,
};
use crate::published::Record;
use crate::refid_text::refid_text;
use discipline::State;
use mode6_frame::Text;
use std::alloc::{AllocError, Global};

/// The text of the system variable of a number.
#[tactic(auto, unfolding(crate::specs::Variables::system_texts, crate::specs::Names::system_names))]
pub(crate) fn system_text(alloc: Global, rec: &Record, number: u8) -> Result<Text, AllocError>
    requires { number < length system_names }
    ensures value { IfOk result (λ text. text ≡ slice_index_or (system_texts rec.now) number []) }
    ensures short { IfOk result (λ text. length text ≤ 40) }
    ensures plain { IfOk result IsPlainValue }
{
    let system = &rec.system;
    match number {
        0 => fixed(alloc, b"ntpd profile 1"),
        1 => natural(alloc, u64::from(system.leap)),
        2 => natural(alloc, u64::from(system.stratum)),
        3 => integer(alloc, system.precision),
        4 => milliseconds(alloc, system.root_delay),
        5 => milliseconds(alloc, system.root_disp),
        6 => refid_text(alloc, system.stratum, &system.refid),
        7 => stamp(alloc, system.reference),
        8 => natural(alloc, u64::from(system.peer)),
        9 => natural(alloc, u64::from(system.poll)),
        10 => fixed(alloc, b"3"),
        11 => signed_milliseconds(alloc, system.offset),
        12 => parts_per_million(alloc, system.freq),
        13 => milliseconds(alloc, system.jitter),
        14 => natural(alloc, state_number(system.state)),
        _ => natural(alloc, rec.epoch),
    }
}

/// The number of a state of the clock discipline.
fn state_number(state: State) -> u64
    ensures { result ≡ state_number state }
{
    match state {
        State::Nset => 1,
        State::Fset => 2,
        State::Spik => 3,
        State::Freq => 4,
        State::Sync => 5,
    }
}
