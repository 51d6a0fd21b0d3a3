ghost use Rattle.std.specs.Prelude.{◌≡◌, ◌+◌, ◌*◌, ◌<◌, ◌≤◌};
ghost use Rattle.fixed_time.specs.Root.{root};

/// The square root of `n`, rounded down.
pub fn isqrt(n: u128) -> u64
    ensures square_within { result * result ≤ n }
    ensures greatest { n < (result + 1) * (result + 1) }
    ensures value { result ≡ root n }
{
    n.isqrt() as u64
}

#[cfg(test)]
mod tests {
    use super::*;

    #[test]
    fn roots_round_down(rt: HostRuntime) {
        let cases: [(u128, u64); 6] = [
            (0, 0),
            (3, 1),
            (4, 2),
            (4_500_000, 2121),
            (1 << 120, 1 << 60),
            (u128::MAX, u64::MAX),
        ];
        for (n, root) in cases {
            assert_eq!(rt; isqrt(n), root, "the root of {n}");
        }
    }
}
