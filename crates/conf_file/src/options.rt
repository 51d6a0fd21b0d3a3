ghost use Rattle.std.specs.Prelude.{◌≡◌, ◌≤◌, ◌<◌, ◌^◌, ◌++◌, ◌∷◌, [], ℕ, Some, Option, List, length, find, bytes_eq, IfSome, map, slice_get};
ghost use Rattle.std.specs.Option.{option_copied, option_map};
ghost use Rattle.std.specs.List.{list_any};
ghost use Rattle.conf_file.specs.OptionRules.{Given, OptionWords};
ghost use Rattle.conf_file.specs.declared.options.TheConstants.{MAX_OPTIONS};
ghost use Rattle.conf_file.specs.RestrictOptions.{flags_of};
ghost use Rattle.conf_file.specs.declared.options.Value.TheVariants.{Alone, Number};
ghost use Rattle.conf_file.specs.Options.{AreSound, IsOptionList, IsReadAs, number_of, rule_of};

use arrayvec::ArrayVec;
use std::marker::Model;
use text_words::{Words, read_decimal_within};

/// The most options of a line.
pub const MAX_OPTIONS: usize = 11;

/// The value of an option.
#[derive(Clone, Copy, Debug, PartialEq, Eq)]
pub enum Value {
    /// The number that stands behind its name.
    Number { least: u32, most: u32 },
    /// This one, and nothing stands behind its name.
    Alone(u32),
}

/// An option that a line may have.
#[derive(Drop)]
pub struct OptionRule {
    name: &'static [u8],
    value: Value,
}

impl Model for OptionRule {
    ghost use Rattle.conf_file.specs.OptionRules.{OptionWords};

    ghost Value = { OptionWords };

    ghost view = { λ r. record { name = r.name.now; value = r.value } };
}

impl OptionRule {
    /// An option that a number follows, from `least` to `most`.
    pub fn number(name: &'static [u8], least: u32, most: u32) -> OptionRule
        ensures { result ≡ record { name = name.now; value = Number least most } }
    {
        OptionRule {
            name,
            value: Value::Number { least, most },
        }
    }

    /// An option that nothing follows, and that stands for a number of its own.
    pub fn alone(name: &'static [u8], own: u32) -> OptionRule
        ensures { result ≡ record { name = name.now; value = Alone own } }
    {
        OptionRule {
            name,
            value: Value::Alone(own),
        }
    }
}

/// An option that is given.
#[derive(Drop)]
pub struct GivenOption {
    name: &'static [u8],
    number: u32,
}

impl Model for GivenOption {
    ghost use Rattle.conf_file.specs.OptionRules.{Given};

    ghost Value = { Given };

    ghost view = { λ g. record { name = g.name.now; number = g.number } };
}

impl Default for GivenOption {
    fn default() -> GivenOption {
        GivenOption {
            name: b"",
            number: 0,
        }
    }
}

/// The options of a line that are given, in their order.
#[derive(Drop)]
pub struct Options {
    given: ArrayVec<GivenOption, MAX_OPTIONS>,
}

impl Model for Options {
    ghost use Rattle.std.specs.Prelude.{List};
    ghost use Rattle.conf_file.specs.OptionRules.{Given};

    ghost Value = { List Given };

    ghost view = { λ o. o.given.items };
}

impl Options {
    /// No options.
    pub fn none() -> Options
        ensures { result ≡ [] }
    {
        Options {
            given: ArrayVec::new(),
        }
    }

    /// How many options are given.
    pub fn len(&self) -> usize
        ensures { result ≡ length self.now }
    {
        self.given.len()
    }

    /// Whether the option with this name is given.
    pub fn has(&self, name: &[u8]) -> bool
        ensures { result ≡ list_any (λ (option : Given). bytes_eq name.now option.name) self.now }
    {
        for place in 0..self.given.len() {
            let given = &self.given[place];
            if name == given.name {
                return true;
            }
        }
        false
    }

    /// The number of the option with this name, if it is given.
    pub fn number(&self, name: &[u8]) -> Option<u32>
        ensures { result ≡ number_of self.now name.now }
    {
        for place in 0..self.given.len() {
            let given = &self.given[place];
            if name == given.name {
                return Some(given.number);
            }
        }
        None
    }

    /// The numbers of the options that are given, joined bit by bit.
    pub fn joined(&self) -> u32
        ensures { result ≡ flags_of self.now }
    {
        let mut joined = 0;
        for place in 0..self.given.len() {
            let given = &self.given[place];
            joined |= given.number;
        }
        joined
    }

    /// Adds the option of a rule, with its number.
    pub fn push(&mut self, rule: &OptionRule, number: u32)
        requires { length self.old < MAX_OPTIONS }
        ensures { self.new ≡ self.old ++ record { name = rule.now.name; number = number } ∷ [] }
    {
        self.given.push(GivenOption {
            name: rule.name,
            number,
        });
    }
}

/// The rule of the option with this name.
fn rule_in<'a>(rules: &'a [OptionRule], name: &[u8]) -> Option<&'a OptionRule>
    ensures { option_copied result ≡ rule_of rules.now name.now }
{
    for place in 0..rules.len() {
        let rule = &rules[place];
        if name == rule.name {
            return Some(rule);
        }
    }
    None
}

/// The options that the rest of a line are, in any order and each at most once, and `fewest` at
/// least; else the number of the first word that is refused, where the next one has the number
/// `first`.
pub fn read_options(
    rules: &[OptionRule],
    fewest: usize,
    words: &mut Words<'_>,
    first: u32,
) -> Result<Options, u32>
    requires few { fewest ≤ 1 }
    requires room { length rules.now ≤ MAX_OPTIONS }
    requires low { first < 2 ^ 31 }
    requires sound { AreSound fewest rules.now }
    ensures { IsReadAs first (IsOptionList fewest rules.now) words.old result }
{
    let mut given = Options::none();
    let mut number = first;
    'words: while let Some(name) = words.next() {
        let Some(rule) = rule_in(rules, name) else {
            return Err(number);
        };
        if given.has(name) {
            return Err(number);
        }
        match rule.value {
            Value::Alone(own) => given.push(rule, own),
            Value::Number { least, most } => {
                number = number.saturating_add(1);
                let Some(word) = words.next() else {
                    return Err(number);
                };
                let Some(own) = read_decimal_within(word, least, most) else {
                    return Err(number);
                };
                given.push(rule, own);
            }
        }
        number = number.saturating_add(1);
    }
    if given.len() < fewest {
        return Err(number);
    }
    Ok(given)
}
