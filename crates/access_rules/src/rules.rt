ghost use Rattle.std.specs.Prelude.{◌≡◌, ◌≤◌, ◌<◌, ◌↔◌, ℕ, List, length, Some, None, Err, IsTrue, IfOk, IfErr, OnOk, OnErr, slice_get, vec_len, vec_capacity, find, reverse, if◌then◌else◌};
ghost use Rattle.std.specs.List.{insert};
ghost use Rattle.std.specs.Option.{option_copied};
ghost use Rattle.net_addr.specs.Addresses.{bits_of, number_of};
ghost use Rattle.net_addr.specs.Prefixes.{has_ip};
ghost use Rattle.net_addr.specs.declared.prefix.Prefix.{Prefix};
ghost use Rattle.access_rules.specs.Flags.{joined};
ghost use Rattle.access_rules.specs.Order.{same_prefix};
ghost use Rattle.access_rules.specs.Rules.{AreWholes, IsPlain, IsRules, flags_at, flags_of, is_default, rules_with, rules_without};
ghost use Rattle.access_rules.specs.Places.{family_end, is_placed, place_of};
ghost use Rattle.access_rules.specs.declared.rules.RuleFault.TheVariants.{Full, NotThere};
ghost use Rattle.access_rules.specs.declared.rules.TheConstants.{MAX_RULES};

use crate::order::{is_before, is_same};
use net_addr::{Ip, Prefix, bits, in_prefix};
use std::alloc::{AllocError, Global};
use std::marker::Model;

/// The most rules of a list.
pub const MAX_RULES: usize = 1024;

/// The flags of the addresses of a prefix, as bits.
#[derive(Clone, Copy, Debug, PartialEq, Eq)]
pub struct Rule {
    pub prefix: Prefix,
    pub flags: u16,
}

/// Why rules stay as they were: there are 1,024, or no rule has the prefix. No change of rules wants
/// memory: `NoMemory` is for those who make them.
#[derive(Clone, Copy, Debug, PartialEq, Eq)]
pub enum RuleFault {
    Full,
    NotThere,
    NoMemory,
}

/// 2 to 1,024 rules with distinct prefixes, in order: IPv4 before IPv6, then by address, then the
/// shorter prefix first. The prefixes of length 0 of both families always have a rule. Only `plain` and
/// `copy` take memory, for 1,024 rules.
#[derive(Drop)]
pub struct Rules {
    rules: Vec<Rule>,
}

impl Model for Rules {
    ghost use Rattle.std.specs.Prelude.{◌≤◌, List, vec_capacity};
    ghost use Rattle.access_rules.specs.declared.rules.Rule.{Rule};
    ghost use Rattle.access_rules.specs.Rules.{IsRules};
    ghost use Rattle.access_rules.specs.declared.rules.TheConstants.{MAX_RULES};

    ghost Value = { List Rule };

    ghost view = { λ r. r.rules.items };

    ghost invariant = { λ r. IsRules r.rules.items × (MAX_RULES ≤ vec_capacity r.rules) };
}

impl Rules {
    /// The two defaults, without flags.
    pub fn plain(alloc: Global) -> Result<Rules, AllocError>
        ensures plain { IfOk result IsPlain }
        ensures wholes { IfOk result AreWholes }
    {
        let mut rules = Vec::with_capacity(alloc, MAX_RULES)?;
        rules.push_reserved(default_of(Ip::V4([0; 4])));
        rules.push_reserved(default_of(Ip::V6([0; 16])));
        Ok(Rules { rules })
    }

    /// The same rules once more.
    pub fn copy(&self) -> Result<Rules, AllocError>
        ensures { IfOk result (λ rules. rules ≡ self.now) }
    {
        let mut rules = Vec::with_capacity(*self.rules.allocator(), MAX_RULES)?;
        fill(&mut rules, self);
        Ok(Rules { rules })
    }

    /// Makes these rules the same as others. Takes no memory.
    pub fn assign(&mut self, from: &Rules)
        ensures { self.new ≡ from.now }
    {
        fill(&mut self.rules, from);
    }

    /// How many rules there are.
    pub fn len(&self) -> usize
        ensures len { result ≡ length self.now }
        ensures at_least { 2 ≤ result }
        ensures table { IsRules self.now }
    {
        self.rules.len()
    }

    /// The rule at a place, counted from 0 in their order.
    pub fn get(&self, place: usize) -> &Rule
        requires { place < length self.now }
        ensures rule { slice_get self.now place ≡ Some result.now }
        ensures table { IsRules self.now }
    {
        &self.rules[place]
    }

    /// Joins flags to those of the rule with this prefix, or puts a new rule in its place, found by
    /// halving. Takes no memory.
    pub fn add(&mut self, prefix: &Prefix, flags: u16) -> Result<(), RuleFault>
        ensures added { OnOk result (self.new ≡ rules_with self.old prefix.now flags) }
        ensures at_each { OnOk result ((other : Prefix) → flags_at self.new other
            ≡ (if same_prefix prefix.now other
            then Some (joined (flags_at self.old other) flags)
            else flags_at self.old other)) }
        ensures kept { OnErr result (self.new ≡ self.old) }

        // The refusal, and that there is no other.
        ensures full { (result ≡ Err Full)
            ↔ ((flags_at self.old prefix.now ≡ None) × (length self.old ≡ MAX_RULES)) }
        ensures only { IfErr result (λ fault. fault ≡ Full) }
    {
        let place = self.place(prefix);
        if self.has_at(place, prefix) {
            self.rules[place].flags |= flags;
            return Ok(());
        }
        if self.is_full() {
            return Err(RuleFault::Full);
        }
        let rule = Rule {
            prefix: *prefix,
            flags,
        };
        put_in(&mut self.rules, place, rule);
        Ok(())
    }

    /// Takes the rule with this prefix out, or its flags where it is a default, found by halving.
    pub fn remove(&mut self, prefix: &Prefix) -> Result<(), RuleFault>
        ensures removed { OnOk result (self.new ≡ rules_without self.old prefix.now) }
        ensures at_each { OnOk result ((other : Prefix) → flags_at self.new other
            ≡ (if same_prefix prefix.now other
            then (if is_default prefix.now then Some 0 else None)
            else flags_at self.old other)) }
        ensures kept { OnErr result (self.new ≡ self.old) }

        // The refusal, and that there is no other.
        ensures not_there { (result ≡ Err NotThere) ↔ (flags_at self.old prefix.now ≡ None) }
        ensures only { IfErr result (λ fault. fault ≡ NotThere) }
    {
        let place = self.place(prefix);
        if !self.has_at(place, prefix) {
            return Err(RuleFault::NotThere);
        }
        if is_default(prefix) {
            self.rules[place].flags = 0;
            return Ok(());
        }
        self.rules.remove(place);
        Ok(())
    }

    fn is_full(&self) -> bool
        ensures { IsTrue result ↔ (length self.now ≡ MAX_RULES) }
    {
        self.rules.len() == MAX_RULES
    }

    /// How many rules have a prefix that stands before this one.
    fn place(&self, prefix: &Prefix) -> usize
        ensures place { result ≡ place_of self.now prefix.now }
        ensures within { result ≤ length self.now }
        ensures table { IsRules self.now }
    {
        self.rules
            .as_slice()
            .partition_point(|rule| is_before(&rule.prefix, prefix))
    }

    /// How many rules have a family that is not behind that of the address.
    fn family_end(&self, ip: &Ip) -> usize
        ensures end { result ≡ family_end self.now ip.now }
        ensures within { result ≤ length self.now }
        ensures table { IsRules self.now }
    {
        self.rules
            .as_slice()
            .partition_point(|rule| bits(&rule.prefix.ip) <= bits(ip))
    }

    /// Whether the rule at the place of a prefix has it.
    fn has_at(&self, place: usize, prefix: &Prefix) -> bool
        requires { place ≡ place_of self.now prefix.now }
        ensures placed { result ≡ is_placed self.now prefix.now }
        ensures within { IsTrue result → place < length self.now }
    {
        if place >= self.rules.len() {
            return false;
        }
        is_same(&self.rules[place].prefix, prefix)
    }
}

/// Puts rules into a vector with room for them, in the place of what it had.
fn fill(into: &mut Vec<Rule>, from: &Rules)
    requires { MAX_RULES ≤ vec_capacity into.old }
    ensures items { into.new.items ≡ from.now }
    ensures table { IsRules into.new.items }
    ensures capacity { MAX_RULES ≤ vec_capacity into.new }
{
    into.clear();
    let filled = into.extend_from_slice(from.rules.as_slice()).is_ok();
    prove!(filled);
}

/// Puts a rule at a place, within the room that there is.
fn put_in(rules: &mut Vec<Rule>, place: usize, rule: Rule)
    requires place { place ≤ vec_len rules.old }
    requires room { vec_len rules.old < vec_capacity rules.old }
    ensures items { rules.new.items ≡ insert rules.old.items place rule }
    ensures capacity { vec_capacity rules.old ≤ vec_capacity rules.new }
{
    let added = rules.insert(place, rule).is_ok();
    prove!(added);
}

/// Whether the prefix has every address of its family.
fn is_default(prefix: &Prefix) -> bool
    ensures { result ≡ is_default prefix.now }
{
    prefix.length == 0
}

/// The rule of every address of a family, without flags.
fn default_of(ip: Ip) -> Rule
    requires { number_of ip ≡ 0 }
    ensures ip { result.prefix.ip ≡ ip }
    ensures all { result.prefix.length ≡ 0 }
    ensures no_flags { result.flags ≡ 0 }
{
    Rule {
        prefix: Prefix { ip, length: 0 },
        flags: 0,
    }
}

/// The flags of the last rule, in order, whose prefix has the address: those of a family's rules are
/// looked at from their end, which is found by halving.
pub fn flags_for(rules: &Rules, ip: &Ip) -> u16
    ensures { result ≡ flags_of rules.now ip.now }
{
    let end = rules.family_end(ip);
    match last_for(&rules.rules[..end], ip) {
        Some(rule) => rule.flags,
        None => 0,
    }
}

/// The last rule whose prefix has the address.
fn last_for<'a>(rules: &'a [Rule], ip: &Ip) -> Option<&'a Rule>
    ensures { option_copied result ≡ find (λ rule. has_ip rule.prefix ip.now) (reverse rules.now) }
{
    rules.iter().rev().find(|rule| in_prefix(ip, &rule.prefix))
}

#[cfg(test)]
mod tests {
    use super::*;
    use crate::flags::{KOD, LIMITED, NOQUERY, NOSERVE};
    use std::test::Fail;

    #[tactic(auto, unfolding(net_addr::specs::Addresses::number_of))]
    fn all_v4() -> Prefix {
        default_of(Ip::V4([0; 4])).prefix
    }

    #[tactic(auto, unfolding(net_addr::specs::Addresses::number_of))]
    fn all_v6() -> Prefix {
        default_of(Ip::V6([0; 16])).prefix
    }

    #[tactic(auto, unfolding(net_addr::specs::Addresses::number_of))]
    fn net_10() -> Prefix {
        Prefix {
            ip: Ip::V4([10, 0, 0, 0]),
            length: 8,
        }
    }

    fn host(ip: [u8; 4]) -> Prefix {
        Prefix {
            ip: Ip::V4(ip),
            length: 32,
        }
    }

    #[test]
    fn the_last_rule_that_has_the_address_gives_its_flags(rt: HostRuntime) -> Result<(), Fail> {
        let mut rules = Rules::plain(rt.alloc())?;
        rules.add(&all_v4(), NOSERVE)?;
        rules.add(&net_10(), 0)?;
        let mut assigned = Rules::plain(rt.alloc())?;
        assigned.add(&net_10(), KOD)?;
        assigned.assign(&rules);
        let mut mapped = [0; 16];
        mapped[10..].copy_from_slice(&[0xff, 0xff, 11, 1, 2, 3]);
        let cases = [
            (Ip::V4([10, 1, 2, 3]), 0),
            (Ip::V4([11, 1, 2, 3]), NOSERVE),
            (Ip::V4([9, 255, 255, 255]), NOSERVE),
            (Ip::V6([0; 16]), 0),
            (Ip::V6(mapped), 0),
        ];
        for (ip, flags) in cases {
            assert_eq!(rt; flags_for(&rules, &ip), flags, "{ip:?}");
            assert_eq!(rt; flags_for(&rules.copy()?, &ip), flags, "{ip:?} of a copy");
            assert_eq!(rt; flags_for(&assigned, &ip), flags, "{ip:?} assigned");
        }
        Ok(())
    }

    #[test]
    fn rules_stand_in_order_and_flags_are_joined(rt: HostRuntime) -> Result<(), Fail> {
        let mut rules = Rules::plain(rt.alloc())?;
        rules.add(&all_v6(), NOSERVE)?;
        rules.add(&host([10, 0, 0, 0]), LIMITED)?;
        rules.add(&host([9, 255, 0, 1]), NOQUERY)?;
        rules.add(&net_10(), 0)?;
        rules.add(&host([10, 0, 0, 0]), KOD)?;
        let cases = [
            (all_v4(), 0),
            (host([9, 255, 0, 1]), NOQUERY),
            (net_10(), 0),
            (host([10, 0, 0, 0]), LIMITED | KOD),
            (all_v6(), NOSERVE),
        ];
        assert_eq!(rt; rules.len(), cases.len());
        for (place, (prefix, flags)) in cases.into_iter().enumerate() {
            assert!(rt; place < rules.len());
            let rule = rules.get(place);
            assert_eq!(rt; rule.prefix, prefix, "at {place}");
            assert_eq!(rt; rule.flags, flags, "at {place}");
        }
        Ok(())
    }

    #[test]
    fn a_default_stays_when_it_is_removed(rt: HostRuntime) -> Result<(), Fail> {
        let mut rules = Rules::plain(rt.alloc())?;
        rules.add(&all_v4(), NOSERVE)?;
        rules.add(&net_10(), LIMITED)?;
        rules.remove(&net_10())?;
        assert_eq!(rt; rules.remove(&net_10()), Err(RuleFault::NotThere));
        assert_eq!(rt; flags_for(&rules, &Ip::V4([10, 1, 2, 3])), NOSERVE);
        rules.remove(&all_v4())?;
        assert_eq!(rt; flags_for(&rules, &Ip::V4([10, 1, 2, 3])), 0);
        assert_eq!(rt; rules.len(), 2);
        Ok(())
    }

    #[test]
    fn a_full_list_takes_no_new_rule(rt: HostRuntime) -> Result<(), Fail> {
        let mut rules = Rules::plain(rt.alloc())?;
        for number in 0..1022u16 {
            let [high, low] = number.to_be_bytes();
            rules.add(&host([10, 0, high, low]), NOQUERY)?;
        }
        assert_eq!(rt; rules.len(), MAX_RULES);
        assert_eq!(rt; rules.add(&net_10(), 0), Err(RuleFault::Full));
        rules.add(&host([10, 0, 0, 0]), KOD)?;
        assert_eq!(rt; flags_for(&rules, &Ip::V4([10, 0, 0, 0])), NOQUERY | KOD);
        assert_eq!(rt; rules.len(), MAX_RULES);
        Ok(())
    }
}
