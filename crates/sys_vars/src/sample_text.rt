ghost use Rattle.std.specs.Prelude.{◌≡◌, ◌≤◌, ◌+◌, ◌*◌, ◌++◌, ◌==◌, if◌then◌else◌, [], IfOk, OnOk, codes, length};
ghost use Rattle.sys_vars.specs.Variables.{IsPlainValue};
ghost use Rattle.sys_vars.specs.Texts.{IsWord, measure_text, measures_text};

use crate::number_text::{put_ms, put_signed_ms};
use clock_filter::{STAGES, Sample};
use fixed_time::{MAX_DISPERSION, Span};
use mode6_frame::Text;
use std::alloc::{AllocError, Global};

/// A value of a sample of the clock filter (RFC 5905, section 10).
#[derive(Clone, Copy, Debug, PartialEq, Eq)]
pub enum Measure {
    /// The delay.
    Delay,
    /// The offset.
    Offset,
    /// The dispersion.
    Dispersion,
}

/// One value of all stages of the clock filter, newest first, in milliseconds with a space between
/// two.
#[tactic(auto, unfolding(crate::specs::Texts::measures_text))]
pub(crate) fn measures(
    alloc: Global,
    measure: Measure,
    stages: &[Option<Sample>; STAGES],
) -> Result<Text, AllocError>
    ensures value { IfOk result (λ text. text ≡ measures_text measure stages.now) }
    ensures short { IfOk result (λ text. length text ≤ 232) }
    ensures plain { IfOk result IsPlainValue }
{
    let mut text = Vec::new(alloc);
    for place in 0..STAGES {
        text.extend_from_slice(gap(place))?;
        put_measure(&mut text, measure, &stages[place])?;
    }
    Ok(Text::of(text))
}

/// What stands in front of the value at a place.
fn gap(place: usize) -> &'static [u8]
    ensures value { result.now ≡ (if place == 0 then [] else codes " ") }
    ensures short { length result.now ≤ 1 }
{
    if place == 0 { b"" } else { b" " }
}

/// Appends one value of a stage.
#[tactic(auto, unfolding(crate::specs::Texts::measure_text))]
fn put_measure(
    text: &mut Vec<u8>,
    measure: Measure,
    stage: &Option<Sample>,
) -> Result<(), AllocError>
    ensures value { OnOk result (text.new.items ≡ text.old.items ++ measure_text measure stage.now) }
    ensures longer { OnOk result (length text.new.items ≤ length text.old.items + 28) }
    ensures word { OnOk result (IsWord (measure_text measure stage.now)) }
{
    match (measure, stage) {
        (Measure::Delay, Some(sample)) => put_ms(text, sample.delay),
        (Measure::Offset, Some(sample)) => put_signed_ms(text, sample.offset),
        (Measure::Dispersion, Some(sample)) => put_ms(text, sample.disp),
        (Measure::Delay, None) => put_ms(text, 0),
        (Measure::Offset, None) => put_signed_ms(text, Span(0)),
        (Measure::Dispersion, None) => put_ms(text, MAX_DISPERSION),
    }
}
