ghost use Rattle.std.specs.Prelude.{◌≡◌, ◌↔◌, ◌*◌, ◌^◌, false, Err, Some, None, IsSome, IfSome, IfOk, IfErr, OnOk};
ghost use Rattle.std.specs.Option.{option_map, unwrap_or};
ghost use Rattle.conf_file.specs.Drafts.{DoFit, IsLimitsOf, IsOpening, IsTakenInto, IsUntaken, is_closed, kind_of_line, rate_of, restricted, rules_after, untaken_of};
ghost use Rattle.access_rules.specs.declared.rules.RuleFault.TheVariants.{Full};

use crate::frequencies::Frequency;
use crate::kinds::Kind;
use crate::lines::Line;
use crate::list_options::ListOptions;
use crate::lists::{Addrs, MAX_LISTEN, ServerLines};
use crate::rate_options::RateOptions;
use crate::restrict_options::Restriction;
use access_rules::{MAX_SERVERS, Rate, RuleFault, Rules};
use edge_traits::Name;
use net_addr::Prefix;
use recency::{Limits, PLAIN_MAXAGE, PLAIN_MAXDEPTH, PLAIN_MINAGE, PLAIN_MINDEPTH};
use std::alloc::{AllocError, Global};

/// What the lines read so far make of a configuration.
#[derive(Drop)]
pub struct Draft {
    pub listen: Addrs,
    pub servers: ServerLines,
    pub rules: Rules,
    pub rate: Option<Rate>,
    pub limits: Option<Limits>,
    pub keys: Option<Name>,
    pub local: Option<u8>,
    pub freq: Option<Frequency>,
}

/// Why a line that is read is not taken: one rule too many, limits that don't fit each other, or for
/// want of memory.
#[derive(Clone, Copy, Debug, PartialEq, Eq)]
pub enum Untaken {
    Full,
    Unfit,
    NoMemory,
}

impl Draft {
    /// Before the first line.
    pub fn new(alloc: Global) -> Result<Draft, AllocError>
        ensures { IfOk result IsOpening }
    {
        Ok(Draft {
            listen: Addrs::of(Vec::new(alloc)),
            servers: ServerLines::of(Vec::new(alloc)),
            rules: Rules::plain(alloc)?,
            rate: None,
            limits: None,
            keys: None,
            local: None,
            freq: None,
        })
    }

    /// Whether no more lines of this kind are taken.
    pub fn is_closed(&self, kind: Kind) -> bool
        ensures { result ≡ is_closed self.now kind }
    {
        match kind {
            Kind::Listen => self.listen.len() >= MAX_LISTEN,
            Kind::Server => self.servers.len() >= MAX_SERVERS,
            Kind::Limit => self.rate.is_some(),
            Kind::Mru => self.limits.is_some(),
            Kind::Keys => self.keys.is_some(),
            Kind::Local => self.local.is_some(),
            Kind::Frequency => self.freq.is_some(),
            Kind::Restrict | Kind::Ignored => false,
        }
    }

    /// Takes what a line means.
    pub fn take(&mut self, line: Line) -> Result<(), Untaken>
        requires { is_closed self.old (kind_of_line line) ≡ false }
        ensures taken { OnOk result (IsTakenInto self.old line self.new) }
        ensures refused { IfErr result (IsUntaken self.old line) }
    {
        match line {
            Line::Nothing => Ok(()),
            Line::Listen(addr) => match self.listen.push(addr) {
                Ok(()) => Ok(()),
                Err(_) => Err(Untaken::NoMemory),
            },
            Line::Server(server) => match self.servers.push(server) {
                Ok(()) => Ok(()),
                Err(_) => Err(Untaken::NoMemory),
            },
            Line::Restrict(given) => match restrict(&mut self.rules, &given) {
                Ok(()) => Ok(()),
                Err(fault) => Err(why_untaken(fault)),
            },
            Line::Limit(given) => {
                self.rate = Some(rate_with(&given));
                Ok(())
            }
            Line::Mru(given) => {
                let Some(limits) = limits_with(&given) else {
                    return Err(Untaken::Unfit);
                };
                self.limits = Some(limits);
                Ok(())
            }
            Line::Keys(name) => {
                self.keys = Some(name);
                Ok(())
            }
            Line::Local(stratum) => {
                self.local = Some(stratum);
                Ok(())
            }
            Line::Frequency(frequency) => {
                self.freq = Some(frequency);
                Ok(())
            }
        }
    }
}

/// Joins the flags of a line to those of the rules of its prefixes.
fn restrict(rules: &mut Rules, given: &Restriction) -> Result<(), RuleFault>
    ensures taken { OnOk result (restricted rules.old given.now ≡ Some rules.new) }
    ensures full { IfErr result (λ fault. fault ≡ Full → restricted rules.old given.now ≡ None) }
{
    add(rules, &given.first, given.flags)?;
    match &given.second {
        Some(second) => add(rules, second, given.flags),
        None => Ok(()),
    }
}

/// Joins flags to those of the rule of a prefix.
fn add(rules: &mut Rules, prefix: &Prefix, flags: u16) -> Result<(), RuleFault>
    ensures taken { OnOk result (rules_after prefix.now flags rules.old ≡ Some rules.new) }
    ensures full { IfErr result (λ fault. fault ≡ Full
        → rules_after prefix.now flags rules.old ≡ None) }
{
    rules.add(prefix, flags)
}

/// Why a line is not taken whose rules refuse its flags.
fn why_untaken(fault: RuleFault) -> Untaken
    ensures { result ≡ untaken_of fault }
{
    match fault {
        RuleFault::Full => Untaken::Full,
        RuleFault::NotThere | RuleFault::NoMemory => Untaken::NoMemory,
    }
}

/// The rate limit of these options.
pub fn rate_with(given: &RateOptions) -> Rate
    ensures { result ≡ rate_of given.now }
{
    let plain = Rate::plain();
    Rate {
        average: given.average.unwrap_or(plain.average),
        burst: given.burst.unwrap_or(plain.burst),
        spacing: spacing_with(given.spacing, plain.spacing),
    }
}

/// The time between two kiss codes: so many seconds, or else this one, in 32.32 seconds.
fn spacing_with(seconds: Option<u32>, plain: u64) -> u64
    ensures { result ≡ unwrap_or (option_map (λ n. n * 2 ^ 32) seconds) plain }
{
    match seconds {
        Some(seconds) => u64::from(seconds) << 32,
        None => plain,
    }
}

/// The limits of the client list that these options ask for, if they fit each other.
pub fn limits_with(given: &ListOptions) -> Option<Limits>
    ensures found { IfSome result (IsLimitsOf given.now) }
    ensures fit { IsSome result ↔ DoFit given.now }
{
    Limits::of(
        given.mindepth.unwrap_or(PLAIN_MINDEPTH),
        given.maxdepth.unwrap_or(PLAIN_MAXDEPTH),
        u64::from(given.minage.unwrap_or(PLAIN_MINAGE)) << 32,
        u64::from(given.maxage.unwrap_or(PLAIN_MAXAGE)) << 32,
    )
}
